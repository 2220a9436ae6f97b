// A first look at a text, before it is read.
#![tactic(auto)]

ghost use Rattle.std.specs.Prelude.{◌≡◌, true, ℕ, ◌+◌, ◌-◌, ◌≤◌, ◌<◌, length};
ghost use Rattle.scan.specs.Scan.{span_to, back_to};
ghost use Rattle.numeral.specs.Numeral.{is_digit};
ghost use Rattle.survey.specs.Survey.{slashes_to, is_exponent, is_stop, ends_field, Ten, Exponent, Unplain, Straight};

use scan::Class;

// 01, Numerals: more digits on a side of its point, and a numeral is too long.
const MOST_DIGITS: usize = 9;

// Whether the byte b is an e and a, before it, a digit or a point.
#[tactic(auto, unfolding(crate::specs::Survey::is_exponent))]
fn is_exponent(a: u8, b: u8) -> bool
    ensures { result ≡ is_exponent a b }
{
    scan::Either(b'E', b'e').has(b) && (a == b'.' || scan::Digit(10).has(a))
}

// Whether a byte stands behind a field.
#[tactic(auto, unfolding(crate::specs::Survey::is_stop))]
fn is_stop(b: u8) -> bool
    ensures { result ≡ is_stop b }
{
    scan::is_blank(b) || b == b')' || scan::Either(b',', b'\\').has(b)
}

// Whether the exponent whose e is at k goes on to the end of a field; in a colour as &H8E2F00& it does not.
#[tactic(auto, unfolding(crate::specs::Survey::ends_field))]
fn ends_field(text: &[u8], k: usize, to: usize) -> bool
    requires { (k < to) × (to ≤ length text.now) }
    ensures { result ≡ ends_field text.now k to }
{
    let d = scan::past(text, scan::Either(b'+', b'-'), k + 1, to);
    let end = scan::span(text, scan::Digit(10), d, to);
    end == to || is_stop(text[end])
}

// The number of backslashes between two places.
fn slashes(text: &[u8], from: usize, to: usize) -> usize
    requires { (from ≤ to) × (to ≤ length text.now) }
    ensures { result ≡ slashes_to text.now from to }
{
    text[from..to].iter().filter(|b| **b == b'\\').count()
}

// Whether no e behind a digit or a point begins an exponent that goes on to the end of a field.
fn harmless(text: &[u8], from: usize, to: usize) -> bool
    requires { (from ≤ to) × (to ≤ length text.now) }
    ensures { result ≡ true → (j : ℕ) → from ≤ j → j + 1 < to → Exponent text.now j → ends_field text.now (j + 1) to ≡ true → ⊥ }
{
    for k in from + 1..to {
        if is_exponent(text[k - 1], text[k]) && ends_field(text, k, to) {
            return false;
        }
    }
    true
}

// How many digits stand in a row around k.
fn run_around(text: &[u8], from: usize, k: usize, to: usize) -> usize
    requires { (from ≤ k) × (k ≤ to) × (to ≤ length text.now) }
    ensures { result ≡ span_to is_digit text.now k to - back_to is_digit text.now from k }
{
    let a = scan::span_back(text, scan::Digit(10), from, k);
    scan::span(text, scan::Digit(10), k, to) - a
}

// Whether no ten digits stand in a row: of any ten places in a row one is looked at.
fn no_ten(text: &[u8], from: usize, to: usize) -> bool
    requires { (from ≤ to) × (to ≤ length text.now) }
    ensures { result ≡ true → (j : ℕ) → from ≤ j → j + 10 ≤ to → Ten text.now j → ⊥ }
{
    for k in (from + 9..to).step_by(10) {
        if scan::Digit(10).has(text[k]) && run_around(text, from, k, to) > MOST_DIGITS {
            return false;
        }
    }
    true
}

// Whether the backslashes between two places are no more than so many; a text that short need not be counted.
fn few_slashes(text: &[u8], from: usize, to: usize, most: usize) -> bool
    requires { (from ≤ to) × (to ≤ length text.now) }
    ensures { result ≡ true → slashes_to text.now from to ≤ most }
{
    to - from <= most || slashes(text, from, to) <= most
}

// Whether no numeral in a text can be too long and no number far: neither ground 3 nor 4 can stand against it.
pub fn plain(text: &[u8], from: usize, to: usize) -> bool
    requires { (from ≤ to) × (to ≤ length text.now) }
    ensures { result ≡ true → Unplain text.now to from to → ⊥ }
{
    no_ten(text, from, to) && harmless(text, from, to)
}

// Whether a block can be read straight into a table with so many places: ground 9 can't stand either.
pub fn straight(text: &[u8], from: usize, to: usize, places: usize) -> bool
    requires { (from ≤ to) × (to ≤ length text.now) }
    ensures { result ≡ true → Straight text.now from to places }
{
    few_slashes(text, from, to, places) && plain(text, from, to)
}
