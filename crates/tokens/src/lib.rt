// The tokens of a drawing's text: what stands between its blanks.
#![tactic(auto)]

ghost use Rattle.std.specs.Prelude.{◌≡◌, true, ◌≤◌, ◌<◌, length, map};
ghost use Rattle.std.specs.Char.{to_ascii_lowercase};
ghost use Rattle.tokens.specs.Tokens.{spells as spells_at, special as special_at, one_letter, token_of, token_end, is_letter, from as tokens_from, tail, tokens_ground};
ghost use Rattle.tokens.specs.Inner.{Follows, Skips, IsWord, rate_of, letter_weight, Light, Straight};

use numeral::Numeral;
use refusal::Refusal;
use scan::Class;

// A token: a single ASCII letter, a number, a numeral that is refused with the place of its first byte, or anything else.
#[derive(Clone, Copy, Drop)]
pub enum Token {
    Letter(u8),
    Number(f32),
    Refused(usize),
    Other,
}

// Whether the text between two places is the word, in any letter case.
fn spells(text: &[u8], i: usize, e: usize, word: &[u8]) -> bool
    requires { (i ≤ e) × (e ≤ length text.now) }
    ensures { result ≡ spells_at (map to_ascii_lowercase word.now) text.now i e }
{
    text[i..e].eq_ignore_ascii_case(word)
}

// Whether a token is inf, infinity or nan, in any letter case, with or without a sign.
#[tactic(auto, unfolding(crate::specs::Tokens::special))]
fn special(text: &[u8], a: usize, b: usize) -> bool
    requires { (a ≤ b) × (b ≤ length text.now) }
    ensures { result ≡ special_at text.now a b }
{
    let i = scan::past(text, scan::Either(b'+', b'-'), a, b);
    spells(text, i, b, b"inf") || spells(text, i, b, b"infinity") || spells(text, i, b, b"nan")
}

// Whether the text between two places is a single ASCII letter.
fn one_letter(text: &[u8], a: usize, b: usize) -> bool
    requires { (a < b) × (b ≤ length text.now) }
    ensures { result ≡ one_letter text.now a b }
{
    b == a + 1 && scan::Letter.has(text[a])
}

// The token between two places.
#[tactic(auto, unfolding(crate::specs::Tokens::token_of))]
fn token_of(text: &[u8], a: usize, b: usize) -> Token
    requires { (a < b) × (b ≤ length text.now) }
    ensures { result ≡ token_of text.now a b }
{
    if one_letter(text, a, b) {
        return Token::Letter(text[a]);
    }
    if special(text, a, b) {
        return Token::Refused(a);
    }
    match numeral::f32_at(text, a, b) {
        Numeral::No => Token::Other,
        Numeral::TooLong(p) => Token::Refused(p),
        Numeral::Word(w) => Token::Number(float::f32_of_word(w)),
    }
}

// The first place from i on at which a blank starts, or the end.
fn token_end(text: &[u8], i: usize) -> usize
    requires { i ≤ length text.now }
    ensures { (result ≡ token_end text.now i) × (i ≤ result) × (result ≤ length text.now) }
{
    let mut k = scan::clear(text, b' ', i, text.len());
    while k < text.len() && scan::blank_at(text, k, text.len()) == 0 {
        k += 1;
    }
    k
}

// Where the next token from i on begins and ends.
fn next_word(text: &[u8], i: usize) -> Option<(usize, usize)>
    requires { i ≤ length text.now }
    ensures { IsWord text.now i result }
{
    let a = scan::trim_start(text, i, text.len());
    if a == text.len() {
        return None;
    }
    Some((a, token_end(text, a + 1)))
}

// The token behind i, with the place where it ends.
pub fn next_token(text: &[u8], i: usize) -> Option<(Token, usize)>
    requires { i ≤ length text.now }
    ensures { Follows text.now i result }
{
    let (a, b) = next_word(text, i)?;
    Some((token_of(text, a, b), b))
}

// The place from i on at which the next single letter follows, or the end: there an unknown command's tail ends.
pub fn skip_tail(text: &[u8], i: usize) -> usize
    requires { i ≤ length text.now }
    ensures { Skips text.now i result }
{
    let mut at = i;
    while let Some((t, k)) = next_token(text, at) {
        if let Token::Letter(_) = t {
            return at;
        }
        at = k;
    }
    at
}

// Ground 3 in the tail of an unknown command, up to the next letter.
pub fn tail_ground(text: &[u8], i: usize) -> Result<(), Refusal>
    requires { i ≤ length text.now }
    ensures { result ≡ tokens_ground (tail (tokens_from text.now i)) }
{
    let mut at = i;
    while let Some((t, k)) = next_token(text, at) {
        match t {
            Token::Letter(_) => return Ok(()),
            Token::Refused(p) => return Err(Refusal::NumeralTooLong(p)),
            _ => at = k,
        }
    }
    Ok(())
}

// Ground 3: the first token that is a refused numeral.
pub fn check_tokens(text: &[u8]) -> Result<(), Refusal>
    ensures { result ≡ tokens_ground (tokens_from text.now 0) }
{
    let mut i = 0;
    while let Some((t, k)) = next_token(text, i) {
        if let Token::Refused(p) = t {
            return Err(Refusal::NumeralTooLong(p));
        }
        i = k;
    }
    Ok(())
}

// Whether a token that is no single letter may be inf, infinity or nan: it begins with a letter, behind a sign.
fn wordy(text: &[u8], a: usize, b: usize) -> bool
    requires { (a < b) × (b ≤ length text.now) }
    ensures { special_at text.now a b ≡ true → result ≡ true }
{
    let i = scan::past(text, scan::Either(b'+', b'-'), a, b);
    i < scan::past(text, scan::Letter, i, b)
}

// What a token behind a letter weighs, in sixths of a command.
fn rate_of(b: u8) -> usize
    ensures { (result ≡ rate_of b) × (result ≤ 3) }
{
    match b {
        b'b' | b'B' => 1,
        _ => 3,
    }
}

// What a letter weighs, in sixths of a command.
fn letter_weight(b: u8) -> usize
    ensures { (result ≡ letter_weight b) × (result ≤ 6) }
{
    match b {
        b'm' | b'M' | b'c' | b'C' => 6,
        _ => 0,
    }
}

// Whether the tokens weigh at most so much, in sixths of a command, and none is a word.
fn light(text: &[u8], most: usize) -> bool
    requires { (length text.now ≤ 12288) × (most ≤ 65536) }
    ensures { result ≡ true → Light text.now 0 3 0 most }
{
    let mut i = 0;
    let mut rate = 3;
    let mut w = 0;
    while let Some((a, b)) = next_word(text, i) {
        if one_letter(text, a, b) {
            rate = rate_of(text[a]);
            w += letter_weight(text[a]);
        } else if wordy(text, a, b) {
            return false;
        } else {
            w += rate;
        }
        if w > most {
            return false;
        }
        i = b;
    }
    true
}

// Whether a drawing can be drawn straight into a path with so many places: no token is refused, and there is room.
pub fn straight(text: &[u8], places: usize) -> bool
    requires { (length text.now ≤ 12288) × (places ≤ 1024) }
    ensures { result ≡ true → Straight text.now places }
{
    light(text, 6 * places) && survey::plain(text, 0, text.len())
}
