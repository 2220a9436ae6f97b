// Numbers as text writes them: numerals, whole numbers, hexadecimal.
#![tactic(auto)]

ghost use Rattle.std.specs.Prelude.{◌≡◌, ◌+◌, ◌-◌, ◌*◌, ◌^◌, ◌≤◌, ◌<◌, min, length};
ghost use Rattle.scan.specs.Scan.{span_to, Place};
ghost use Rattle.std.specs.Float.{binary32};
ghost use Rattle.std.specs.Float.Ieee.{to_bits};
ghost use Rattle.numeral.specs.Inner.{Split, Counted, Says};
ghost use Rattle.numeral.specs.Numeral.{value as value_of, is_digit, word, too_long, most, whole_number, up_to, word_of_i32, i32_at, hex_at, split_at, exponent_at, digits_of, before as before_of, behind as behind_of, zeros as zeros_of, nearest, signed, word_of_f32, f32_of, f32_at};

// What a field holds: no number, a numeral that is too long with the place of its first byte, or the word of a number.
#[derive(Clone, Copy, Drop)]
pub enum Numeral {
    No,
    TooLong(usize),
    Word(u32),
}

impl Numeral {
    // The word of a number.
    pub fn word(self) -> Option<u32>
        ensures { result ≡ word self }
    {
        match self {
            Numeral::Word(w) => Some(w),
            _ => None,
        }
    }

    // The place of a numeral that is too long.
    pub fn too_long(self) -> Option<usize>
        ensures { result ≡ too_long self }
    {
        match self {
            Numeral::TooLong(p) => Some(p),
            _ => None,
        }
    }
}

// Where a decimal numeral's digits stand: before the point from `from` to `whole`, behind it from `fraction` to `end`.
#[derive(Clone, Copy, Drop)]
pub struct Decimal {
    pub from: usize,
    pub whole: usize,
    pub fraction: usize,
    pub end: usize,
}

// More than any whole number that is kept.
const MOST: u64 = 1_000_000_000_000_000_000;

// The number that the digits between two places write behind `start`, at most 10^18.
#[tactic(auto, using(crate::proofs::Laws::values))]
fn value(text: &[u8], radix: u8, from: usize, to: usize, start: u64) -> u64
    requires { (from ≤ to) × (to ≤ length text.now) × (0 < radix) × (radix ≤ 16) × (start ≤ most) }
    ensures { result ≡ min most (value_of radix text.now (to - from) from start) }
{
    let mut a = start;
    for i in from..to {
        a = MOST.min(a * u64::from(radix) + u64::from(scan::digit_of(text[i])));
    }
    a
}

// The whole number that fills the text between two places; 10^18 where it is larger or there is none: one limit rules both out.
#[tactic(auto, unfolding(crate::specs::Numeral::whole_number))]
pub fn whole_number(text: &[u8], radix: u8, from: usize, to: usize) -> u64
    requires { (from ≤ to) × (to ≤ length text.now) × (0 < radix) × (radix ≤ 16) }
    ensures { result ≡ min most (whole_number radix text.now from to) }
{
    if from < to && scan::span(text, scan::Digit(radix), from, to) == to {
        return value(text, radix, from, to, 0);
    }
    MOST
}

// A whole number as Rust reads an i32, blanks around it dropped: its word in two's complement.
#[tactic(auto, using(crate::proofs::Laws::i32s))]
pub fn i32_at(text: &[u8], p: usize, q: usize) -> Numeral
    requires { (p ≤ q) × (q ≤ length text.now) }
    ensures { result ≡ word_of_i32 (i32_at text.now p q) }
{
    let a = scan::trim_start(text, p, q);
    let b = scan::trim_end(text, a, q);
    let i = scan::past(text, scan::Either(b'+', b'-'), a, b);
    let v = whole_number(text, 10, i, b);
    if scan::past(text, scan::Is(b'-'), a, b) == a {
        return up_to(v, 2147483647).map_or(Numeral::No, Numeral::Word);
    }
    match up_to(v, 2147483648) {
        Some(w) => Numeral::Word(w.wrapping_neg()),
        None => Numeral::No,
    }
}

fn up_to(v: u64, limit: u32) -> Option<u32>
    ensures { result ≡ up_to v limit }
{
    u32::try_from(v).ok().filter(|w| *w <= limit)
}

// A hexadecimal number that fills the text between two places, as Rust's `u32::from_str_radix` reads it.
#[tactic(auto, unfolding(crate::specs::Numeral::hex_at))]
pub fn hex_at(text: &[u8], a: usize, b: usize) -> Option<u32>
    requires { (a ≤ b) × (b ≤ length text.now) }
    ensures { result ≡ hex_at text.now a b }
{
    let i = scan::past(text, scan::Is(b'+'), a, b);
    up_to(whole_number(text, 16, i, b), 4294967295)
}

// Decimal digits from a place on: where they end, and the number that the first nine write behind `start`.
fn run_at(text: &[u8], from: usize, to: usize, start: u64) -> (usize, u64)
    requires { (from ≤ to) × (to ≤ length text.now) × (start < 1000000000) }
    ensures { Place from to (span_to is_digit text.now from to) result.0 × (result.1 < (start + 1) * 1000000000) × (result.0 - from ≤ 9 → result.1 ≡ value_of 10 text.now (result.0 - from) from start) }
{
    let stop = to.min(from + 9);
    let mut a = start;
    for i in from..stop {
        let d = scan::digit_of(text[i]);
        if d >= 10 {
            return (i, a);
        }
        a = a * 10 + u64::from(d);
    }
    (scan::span(text, scan::Digit(10), stop, to), a)
}

// The digits of a numeral that starts at a, and the number that they write.
#[tactic(auto, unfolding(crate::specs::Numeral::split_at))]
fn decimal_at(text: &[u8], a: usize, b: usize) -> (Decimal, u64)
    requires { (a ≤ b) × (b ≤ length text.now) }
    ensures { let at = result.0 in Split text.now a b at × (at.whole - at.from ≤ 9 → at.end - at.fraction ≤ 9 → result.1 ≡ value_of 10 text.now (at.end - at.fraction) at.fraction (value_of 10 text.now (at.whole - at.from) at.from 0)) }
{
    let from = scan::past(text, scan::Either(b'+', b'-'), a, b);
    let (whole, w) = run_at(text, from, b, 0);
    let fraction = scan::past(text, scan::Is(b'.'), whole, b);
    let (end, digits) = run_at(text, fraction, b, w);
    (
        Decimal {
            from,
            whole,
            fraction,
            end,
        },
        digits,
    )
}

// Whether an exponent fills the text from i on.
#[tactic(auto, unfolding(crate::specs::Numeral::exponent_at))]
fn exponent_at(text: &[u8], i: usize, b: usize) -> bool
    requires { (i ≤ b) × (b ≤ length text.now) }
    ensures { result ≡ exponent_at text.now i b }
{
    let x = scan::past(text, scan::Either(b'E', b'e'), i, b);
    let d = scan::past(text, scan::Either(b'+', b'-'), x, b);
    i < x && d < b && scan::span(text, scan::Digit(10), d, b) == b
}

// The word of a numeral that starts at a, with so many digits behind its point.
fn decimal_word(text: &[u8], a: usize, b: usize, digits: u64, tens: usize) -> u32
    requires { (a ≤ b) × (b ≤ length text.now) × (digits < most) × (tens ≤ 9) }
    ensures { result ≡ to_bits binary32 (nearest text.now a b (digits, 10 ^ tens)) }
{
    let negative = a < scan::past(text, scan::Is(b'-'), a, b);
    decimal::decimal_word(negative, digits, tens as u32)
}

// 02, N4: a point with w digits before it and f behind it, shifted by n places, to the left if there is a minus: the digits on
// both sides, and the zeros put in before it.
fn shift_of(w: usize, f: usize, minus: bool, n: usize) -> (usize, usize, usize)
    requires { (w < 2 ^ 63) × (f < 2 ^ 63) × (n < 2 ^ 63) }
    ensures { (result.0 ≡ before_of w (signed minus n)) × (result.1 ≡ behind_of f (signed minus n)) × (result.2 ≡ zeros_of f (signed minus n)) }
{
    if minus {
        (w.saturating_sub(n), f + n, 0)
    } else {
        (w + n, f.saturating_sub(n), n.saturating_sub(f))
    }
}

// The number that the digits of a numeral write.
fn digits_at(text: &[u8], a: usize, b: usize) -> u64
    requires { (a ≤ b) × (b ≤ length text.now) × (digits_of text.now (split_at text.now a b) < most) }
    ensures { result ≡ digits_of text.now (split_at text.now a b) }
{
    let from = scan::past(text, scan::Either(b'+', b'-'), a, b);
    let whole = scan::span(text, scan::Digit(10), from, b);
    let fraction = scan::past(text, scan::Is(b'.'), whole, b);
    let end = scan::span(text, scan::Digit(10), fraction, b);
    value(text, 10, fraction, end, value(text, 10, from, whole, 0))
}

// The same, where `digits` has it for at most nine on each side. For the compiler (MEASURED, Shapes for the compiler): more are
// found anew, so that no place is kept for them.
fn all_digits(text: &[u8], a: usize, b: usize, w: usize, f: usize, digits: u64) -> u64
    requires { (a ≤ b) × (b ≤ length text.now) × (digits_of text.now (split_at text.now a b) < most) × (w ≤ 9 → f ≤ 9 → digits ≡ digits_of text.now (split_at text.now a b)) }
    ensures { result ≡ digits_of text.now (split_at text.now a b) }
{
    if w <= 9 && f <= 9 {
        return digits;
    }
    digits_at(text, a, b)
}

// The word of a numeral that starts at a, with zeros behind its digits and so many of all these behind its point.
fn shifted_word(text: &[u8], a: usize, b: usize, digits: u64, zeros: usize, tens: usize) -> u32
    requires { (a ≤ b) × (b ≤ length text.now) × (digits * 10 ^ zeros < most) × (zeros ≤ 9) × (tens ≤ 9) }
    ensures { result ≡ to_bits binary32 (nearest text.now a b (digits * 10 ^ zeros, 10 ^ tens)) }
{
    let negative = a < scan::past(text, scan::Is(b'-'), a, b);
    decimal::shifted_word(negative, digits, zeros as u32, tens as u32)
}

// What a numeral that starts at a says with the exponent behind its digits, w before the point and f behind it.
fn shifted(text: &[u8], a: usize, b: usize, end: usize, w: usize, f: usize, digits: u64) -> Numeral
    requires { (a ≤ b) × (b ≤ length text.now) × Counted text.now a b end w f digits }
    ensures { Says text.now a b (split_at text.now a b) result }
{
    let x = scan::past(text, scan::Either(b'E', b'e'), end, b);
    let e = scan::past(text, scan::Either(b'+', b'-'), x, b);
    if b - e > 2 {
        return Numeral::TooLong(a);
    }
    let n = value(text, 10, e, b, 0) as usize;
    let minus = x < scan::past(text, scan::Is(b'-'), x, b);
    let (before, behind, zeros) = shift_of(w, f, minus, n);
    if before > 9 || behind > 9 {
        return Numeral::TooLong(a);
    }
    let all = all_digits(text, a, b, w, f, digits);
    Numeral::Word(shifted_word(text, a, b, all, zeros, behind))
}

// The numeral that fills the text between two places.
#[tactic(auto, using(crate::proofs::Laws::f32s))]
fn f32_of(text: &[u8], a: usize, b: usize) -> Numeral
    requires { (a ≤ b) × (b ≤ length text.now) }
    ensures { result ≡ word_of_f32 (f32_of text.now a b) }
{
    let (d, digits) = decimal_at(text, a, b);
    let end = d.end;
    let w = d.whole - d.from;
    let f = end - d.fraction;
    if w + f == 0 {
        return Numeral::No;
    }
    if end < b {
        if exponent_at(text, end, b) {
            return shifted(text, a, b, end, w, f, digits);
        }
        return Numeral::No;
    }
    if w > 9 || f > 9 {
        return Numeral::TooLong(a);
    }
    Numeral::Word(decimal_word(text, a, b, digits, f))
}

// A numeral of 01, blanks around it dropped: the bits of its f32.
pub fn f32_at(text: &[u8], p: usize, q: usize) -> Numeral
    requires { (p ≤ q) × (q ≤ length text.now) }
    ensures { result ≡ word_of_f32 (f32_at text.now p q) }
{
    let a = scan::trim_start(text, p, q);
    f32_of(text, a, scan::trim_end(text, a, q))
}
