// Lines of a stored list: each names a call and gives its words and its text, in hexadecimal.
#![tactic(auto)]

ghost use Rattle.std.specs.Prelude.{◌≡◌, ℕ, ◌+◌, ◌*◌, ◌≤◌, ◌<◌, length, get_or};
ghost use Rattle.std.proofs.Common.{rules};
ghost use Rattle.stored.specs.Counts.{IsPrefixLen};

use std::io::Read;

// A line taken apart: the letter of its call, 0 where the line has another form; the letter of the leaf, for L; how many words and how many bytes of text it has.
#[derive(Clone, Copy, Drop)]
pub struct Line {
    pub call: u8,
    pub leaf: u8,
    pub words: usize,
    pub bytes: usize,
}

// What a word of lent memory holds before a call.
pub const LENT: u32 = 0xA5A5A5A5;

// The next byte of a reader, a line feed at its end.
fn next_byte<R: Read>(reader: &mut R) -> u8 {
    let mut byte = [0u8; 1];
    match reader.read_exact(&mut byte) {
        Ok(()) => byte[0],
        Err(_) => b'\n',
    }
}

// Reads a line, as far as `line` goes, and yields its length, without the line feed: 0 behind the last line.
pub fn read_line<R: Read>(reader: &mut R, line: &mut [u8]) -> usize
    ensures { IsPrefixLen result line.new }
{
    for n in 0..line.len() {
        let b = next_byte(reader);
        if b == b'\n' {
            return n;
        }
        line[n] = b;
    }
    line.len()
}

// n, but no more than there are.
pub fn part(n: u32, most: usize) -> usize
    ensures { result ≤ most }
{
    most.min(n as usize)
}

// The byte at a place, 0 where there is none.
fn byte_at(line: &[u8], p: usize) -> u8
    ensures { result ≡ get_or line.now p 0 }
{
    if p < line.len() { line[p] } else { 0 }
}

// What a line has in hexadecimal: bytes of two digits, and words of eight with a space behind them.
trait Digits: Copy {
    ghost WIDTH: { ℕ };

    const WIDTH: usize;

    // The number whose digits begin at p, if they are digits.
    fn digits_at(text: &[u8], p: usize) -> Option<Self>
        requires { p + WIDTH ≤ length text.now };

    ghost wide: { 0 < WIDTH };
}

impl Digits for u8 {
    ghost WIDTH = { 2 };

    const WIDTH: usize = 2;

    fn digits_at(text: &[u8], p: usize) -> Option<u8> {
        let high = scan::digit_of(text[p]);
        let low = scan::digit_of(text[p + 1]);
        if high > 15 || low > 15 {
            return None;
        }
        Some(high * 16 + low)
    }

    ghost wide = { Prim.search rules };
}

impl Digits for u32 {
    ghost WIDTH = { 9 };

    const WIDTH: usize = 9;

    fn digits_at(text: &[u8], p: usize) -> Option<u32> {
        if text[p + 8] != b' ' {
            return None;
        }
        let a = u8::digits_at(text, p)?;
        let b = u8::digits_at(text, p + 2)?;
        let c = u8::digits_at(text, p + 4)?;
        let d = u8::digits_at(text, p + 6)?;
        Some(u32::from_be_bytes([a, b, c, d]))
    }

    ghost wide = { Prim.search rules };
}

// Puts the numbers that a text has in digits into `numbers`, as far as it goes, and yields how many they are.
fn numbers_of<T: Digits>(text: &[u8], numbers: &mut [T]) -> usize
    ensures { IsPrefixLen result numbers.new × (result * T.WIDTH ≤ length text.now) }
{
    let most = numbers.len().min(text.len() / T::WIDTH);
    for i in 0..most {
        let Some(number) = T::digits_at(text, i * T::WIDTH) else {
            return i;
        };
        numbers[i] = number;
    }
    most
}

// How many bytes the name of a line's call has: a letter, and behind L that of a leaf.
fn name_size(line: &[u8]) -> usize
    ensures { result ≤ 2 }
{
    if byte_at(line, 0) == b'L' { 2 } else { 1 }
}

// Takes a line apart: a name, words with a space before each, a space and a text.
pub fn parse(line: &[u8], words: &mut [u32], text: &mut [u8]) -> Line
    ensures { IsPrefixLen result.words words.new × IsPrefixLen result.bytes text.new }
{
    let name = name_size(line);
    let start = scan::span_back(line, scan::Not(b' '), 0, line.len());
    let from = start.min(name + 1);
    let w = numbers_of(&line[from..start], words);
    let n = numbers_of(&line[start..], text);
    let whole = from + w * 9 == start && start + n * 2 == line.len();
    let known = whole && byte_at(line, name) == b' ';
    Line {
        call: if known { byte_at(line, 0) } else { 0 },
        leaf: byte_at(line, 1),
        words: w,
        bytes: n,
    }
}

// Room for the words of the longest line: a table of 1,028 records, and eight more.
pub fn words_buffer() -> [u32; 8232]
    ensures { 8232 ≡ length result }
{
    [0; 8232]
}

// Room for two texts of more than 12,288 bytes.
pub fn text_buffer() -> [u8; 24578]
    ensures { 24578 ≡ length result }
{
    [0; 24578]
}

// Memory to lend: the largest table or path, 1,028 records or commands.
pub fn lent_buffer() -> [u32; 8224]
    ensures { 8224 ≡ length result }
{
    [LENT; 8224]
}

// Room for the longest line.
pub fn line_buffer() -> [u8; 131072]
    ensures { 131072 ≡ length result }
{
    [0; 131072]
}
