// Alphas and colours as a tag writes them, in hexadecimal.
#![tactic(auto)]

ghost use Rattle.std.specs.Prelude.{◌≡◌, ◌+◌, ◌-◌, ◌≤◌, length};
ghost use Rattle.colour.specs.Colour.{trimmed as trimmed_to, ampersands as ampersands_to, zero_xat, digits, alpha_at, colour_at};
ghost use Rattle.colour.specs.Inner.{Inside};
ghost use Rattle.scan.specs.Scan.{skip_to, Place};

// What stands in the text from one place to another.
#[derive(Clone, Copy, Drop)]
pub struct Stretch {
    pub from: usize,
    pub to: usize,
}

// A colour.
#[derive(Clone, Copy, Drop)]
pub struct Rgb {
    pub red: u32,
    pub green: u32,
    pub blue: u32,
}

// The part less the blanks at both ends.
#[tactic(auto, unfolding(crate::specs::Colour::trimmed))]
fn trimmed(text: &[u8], p: usize, q: usize) -> Stretch
    requires { (p ≤ q) × (q ≤ length text.now) }
    ensures { Inside p q (trimmed_to text.now p q) result }
{
    let from = scan::trim_start(text, p, q);
    let to = scan::trim_end(text, from, q);
    Stretch { from, to }
}

// The part less the ampersands at both ends.
#[tactic(auto, unfolding(crate::specs::Colour::ampersands))]
fn ampersands(text: &[u8], p: usize, q: usize) -> Stretch
    requires { (p ≤ q) × (q ≤ length text.now) }
    ensures { Inside p q (ampersands_to text.now p q) result }
{
    let from = scan::span(text, scan::Is(b'&'), p, q);
    let to = scan::span_back(text, scan::Is(b'&'), from, q);
    Stretch { from, to }
}

// The width of a `0x` that starts at i, 0 where none does.
#[tactic(auto, unfolding(crate::specs::Colour::zero_xat))]
fn zero_x_at(text: &[u8], i: usize, to: usize) -> usize
    requires { (i ≤ to) × (to ≤ length text.now) }
    ensures { (result ≡ zero_xat text.now i to) × (i + result ≤ to) }
{
    if to - i >= 2 && text[i] == b'0' && text[i + 1] == b'x' {
        return 2;
    }
    0
}

// Behind every `0x` from `from` on.
#[tactic(auto, using(crate::proofs::Laws::skips))]
fn past_zero_x(text: &[u8], from: usize, to: usize) -> usize
    requires { (from ≤ to) × (to ≤ length text.now) }
    ensures { Place from to (skip_to zero_xat text.now from to) result }
{
    let mut i = from;
    loop {
        let w = zero_x_at(text, i, to);
        if w == 0 {
            return i;
        }
        i += w;
    }
}

// The part behind what may stand before the digits.
#[tactic(auto, unfolding(crate::specs::Colour::digits))]
fn digits_of(text: &[u8], p: usize, q: usize) -> Stretch
    requires { (p ≤ q) × (q ≤ length text.now) }
    ensures { Inside p q (digits text.now p q) result }
{
    let t = trimmed(text, p, q);
    let u = ampersands(text, t.from, t.to);
    let to = u.to;
    let h = scan::span(text, scan::Either(b'H', b'h'), u.from, to);
    let from = past_zero_x(text, h, to);
    Stretch { from, to }
}

// The byte of an alpha, as `parse_alpha_byte` reads it.
#[tactic(auto, unfolding(crate::specs::Colour::alpha_at))]
pub fn alpha_at(text: &[u8], p: usize, q: usize) -> Option<u32>
    requires { (p ≤ q) × (q ≤ length text.now) }
    ensures { result ≡ alpha_at text.now p q }
{
    let d = digits_of(text, p, q);
    let u = ampersands(text, d.from, d.to);
    let t = trimmed(text, u.from, u.to);
    numeral::hex_at(text, t.from, t.to).map(|v| v.min(255))
}

// A colour, as `parse_color_rgb` reads it.
#[tactic(auto, unfolding(crate::specs::Colour::colour_at))]
pub fn colour_at(text: &[u8], p: usize, q: usize) -> Option<Rgb>
    requires { (p ≤ q) × (q ≤ length text.now) }
    ensures { result ≡ colour_at text.now p q }
{
    let d = digits_of(text, p, q);
    let from = d.from;
    let to = scan::span_back(text, scan::Is(b'&'), from, d.to);
    let t = trimmed(text, from, to);
    numeral::hex_at(text, t.from, t.to).map(|v| Rgb {
        red: v % 256,
        green: v / 256 % 256,
        blue: v / 65536 % 256,
    })
}
