// Scans over a text by positions: classes of bytes, blanks, trimming, the closing parenthesis.
#![tactic(auto)]

ghost use Rattle.std.specs.Prelude.{◌≡◌, ℕ, ◌+◌, ◌-◌, ◌^◌, ◌≤◌, ◌<◌, min, length, get_or, ltb};
ghost use Rattle.scan.specs.Scan.{lower as lower_of, digit_of, below as below_of, is_blank, blank_at, blank_before, span_to, back_to, trim_start, trim_end, past as past_to, opened as opened_by, closing_to, Place};
ghost use Rattle.scan.specs.Inner.{Passed};

mod class;

pub use crate::class::{Below, Class, Digit, Either, Is, Letter, Neither, Not};

// A byte in lower case.
pub fn lower(b: u8) -> u8
    ensures { result ≡ lower_of b }
{
    b.to_ascii_lowercase()
}

// The value of a hexadecimal digit of either case, and 16 for any other byte: one comparison tests for a digit of any radix.
pub fn digit_of(b: u8) -> u8
    ensures { result ≡ digit_of b }
{
    match b {
        b'0'..=b'9' => b - b'0',
        b'A'..=b'F' => b - b'A' + 10,
        b'a'..=b'f' => b - b'a' + 10,
        _ => 16,
    }
}

// A bound of the bytes between two places: the highest.
// For the compiler (MEASURED, Shapes for the compiler): a loop with no exit, which runs many bytes at a time.
fn highest(text: &[u8], from: usize, to: usize) -> u8
    requires { (from ≤ to) × (to ≤ length text.now) }
    ensures { (j : ℕ) → from ≤ j → j < to → get_or text.now j 0 ≤ result }
{
    let mut m = 0;
    for i in from..to {
        m = text[i].max(m);
    }
    m
}

// The first place from `from` on whose byte is not below x, or `to`: mostly there is none.
pub fn below(text: &[u8], x: u8, from: usize, to: usize) -> usize
    requires { (from ≤ to) × (to ≤ length text.now) }
    ensures { Place from to (span_to (below_of x) text.now from to) result }
{
    if highest(text, from, to) < x {
        return to;
    }
    span(text, Below(x), from, to)
}

// The first place from `from` on whose byte is not of the class, or `to`.
#[tactic(auto, using(crate::proofs::Laws::spans))]
pub fn span<C: Class>(text: &[u8], class: C, from: usize, to: usize) -> usize
    requires { (from ≤ to) × (to ≤ length text.now) }
    ensures { Place from to (span_to (C.holds class) text.now from to) result }
{
    for i in from..to {
        if !class.has(text[i]) {
            return i;
        }
    }
    to
}

// The least place from which on, up to `to`, all bytes are of the class.
#[tactic(auto, using(crate::proofs::Laws::backs))]
pub fn span_back<C: Class>(text: &[u8], class: C, from: usize, to: usize) -> usize
    requires { (from ≤ to) × (to ≤ length text.now) }
    ensures { Place from to (back_to (C.holds class) text.now from to) result }
{
    for i in (from..to).rev() {
        if !class.has(text[i]) {
            return i + 1;
        }
    }
    from
}

pub fn is_blank(b: u8) -> bool
    ensures { result ≡ is_blank b }
{
    matches!(b, b'\t'..=b'\r' | b' ')
}

// The width of the blank that starts at i, 0 where none does.
#[tactic(auto, unfolding(crate::specs::Scan::blank_at))]
pub fn blank_at(text: &[u8], i: usize, to: usize) -> usize
    requires { (i ≤ to) × (to ≤ length text.now) }
    ensures { (result ≡ blank_at text.now i to) × (i + result ≤ to) }
{
    if i < to && is_blank(text[i]) { 1 } else { 0 }
}

// The width of the blank that ends at e, 0 where none does.
#[tactic(auto, unfolding(crate::specs::Scan::blank_before))]
pub fn blank_before(text: &[u8], from: usize, e: usize) -> usize
    requires { (from ≤ e) × (e ≤ length text.now) }
    ensures { (result ≡ blank_before text.now from e) × (from + result ≤ e) }
{
    if from < e && is_blank(text[e - 1]) {
        1
    } else {
        0
    }
}

// Where the text between two places begins once its leading blanks are dropped.
#[tactic(auto, using(crate::proofs::Laws::skips))]
pub fn trim_start(text: &[u8], from: usize, to: usize) -> usize
    requires { (from ≤ to) × (to ≤ length text.now) }
    ensures { Place from to (trim_start text.now from to) result }
{
    let mut i = from;
    loop {
        let w = blank_at(text, i, to);
        if w == 0 {
            return i;
        }
        i += w;
    }
}

// Where it ends once its trailing blanks are dropped.
#[tactic(auto, using(crate::proofs::Laws::trims))]
pub fn trim_end(text: &[u8], from: usize, to: usize) -> usize
    requires { (from ≤ to) × (to ≤ length text.now) }
    ensures { Place from to (trim_end text.now from to) result }
{
    let mut e = to;
    loop {
        let w = blank_before(text, from, e);
        if w == 0 {
            return e;
        }
        e -= w;
    }
}

// The place behind i where the byte there is of the class, else i.
pub fn past<C: Class>(text: &[u8], class: C, i: usize, to: usize) -> usize
    requires { (i ≤ to) × (to ≤ length text.now) }
    ensures { Place i to (past_to (C.holds class) text.now i to) result }
{
    if i < to && class.has(text[i]) {
        i + 1
    } else {
        i
    }
}

fn opened(b: u8, k: usize) -> usize
    requires { (0 < k) × (k < 2 ^ 63) }
    ensures { (result ≡ opened_by b k) × (result ≤ k + 1) }
{
    match b {
        b'(' => k + 1,
        b')' => k - 1,
        _ => k,
    }
}

// A place from `from` on, with no byte up to x before it: at the first one, or less than four places before `to`.
// For the compiler (MEASURED, Shapes for the compiler): four bytes a turn.
pub fn clear(text: &[u8], x: u8, from: usize, to: usize) -> usize
    requires { (from ≤ to) × (to ≤ length text.now) }
    ensures { Passed (λ b. ltb x b) text.now from to result }
{
    let mut i = from;
    while to - i >= 4 {
        if text[i] <= x {
            return i;
        }
        if text[i + 1] <= x {
            return i + 1;
        }
        if text[i + 2] <= x {
            return i + 2;
        }
        if text[i + 3] <= x {
            return i + 3;
        }
        i += 4;
    }
    i
}

// The place of the parenthesis that closes the one open before `from`, or `to`.
#[tactic(auto, using(crate::proofs::Laws::closings))]
pub fn closing(text: &[u8], from: usize, to: usize) -> usize
    requires { (from ≤ to) × (to ≤ length text.now) }
    ensures { Place from to (closing_to text.now from to 1) result }
{
    let mut i = from;
    let mut k: usize = 1;
    while i < to {
        i = clear(text, b')', i, to);
        if i < to {
            k = opened(text[i], k);
            if k == 0 {
                return i;
            }
            i += 1;
        }
    }
    i
}

// The lesser of two numbers.
pub fn least(a: usize, b: usize) -> usize
    ensures { result ≡ min a b }
{
    a.min(b)
}
