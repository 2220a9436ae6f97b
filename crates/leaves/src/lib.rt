// The leaf functions with words for what they take and give, as tests call them; `leaves_c` exports each to C. A text of more than 12,288 bytes is not read.
#![tactic(auto)]

ghost use Rattle.std.specs.Prelude.{◌≡◌, true, false, ◌≤◌, pos, length};
ghost use Rattle.std.specs.Float.{binary32};
ghost use Rattle.std.specs.Float.Ieee.{of_int, to_signed, to_unsigned};
ghost use Rattle.scan.specs.Scan.{pick};
ghost use Rattle.float.specs.Float.{max_zero, clamp, lerp, to_radians, in_reach_lem, round_away, round_byte, of_word};
ghost use Rattle.leaves.specs.Leaves.{leaf, packed as packed_of, packed_word as packed_word_of, packed_colour, numeral_leaf, i32_leaf, hex_leaf, alpha_leaf, colour_leaf, trim_leaf, closing_leaf, packed_list, packed_place, list_leaf, laid, list_words, of, to, rooted as is_rooted, root_leaf, power_leaf, whole_leaf};

// Each leaf of a text asks for its length itself: a function that took the rest as a closure would want clauses at each closure.

// A number: 0 none, 1 << 32 and its word, 2 << 32 and the place of one that is too long.
fn packed(n: numeral::Numeral) -> u64
    ensures { result ≡ packed_of n }
{
    match n {
        numeral::Numeral::No => 0,
        numeral::Numeral::TooLong(p) => 8589934592 + (p % 4294967296) as u64,
        numeral::Numeral::Word(w) => 4294967296 + u64::from(w),
    }
}

// A number in hexadecimal: 0 none, 1 << 32 and its word.
fn packed_word(n: Option<u32>) -> u64
    ensures { result ≡ packed_word_of n }
{
    n.map_or(0, |w| 4294967296 + u64::from(w))
}

pub fn hannuvel_leaf_numeral(text: &[u8]) -> u64
    ensures { result ≡ leaf numeral_leaf text.now }
{
    let n = text.len();
    if n > 12288 {
        return 0;
    }
    packed(numeral::f32_at(text, 0, n))
}

pub fn hannuvel_leaf_i32(text: &[u8]) -> u64
    ensures { result ≡ leaf i32_leaf text.now }
{
    let n = text.len();
    if n > 12288 {
        return 0;
    }
    packed(numeral::i32_at(text, 0, n))
}

pub fn hannuvel_leaf_hexadecimal(text: &[u8]) -> u64
    ensures { result ≡ leaf hex_leaf text.now }
{
    let n = text.len();
    if n > 12288 {
        return 0;
    }
    packed_word(numeral::hex_at(text, 0, n))
}

pub fn hannuvel_leaf_alpha(text: &[u8]) -> u64
    ensures { result ≡ leaf alpha_leaf text.now }
{
    let n = text.len();
    if n > 12288 {
        return 0;
    }
    packed_word(colour::alpha_at(text, 0, n))
}

// A colour: 0 none, 1 << 32 and r, g, b in the bytes below.
fn packed_colour(c: Option<colour::Rgb>) -> u64
    ensures { result ≡ packed_colour c }
{
    match c {
        None => 0,
        Some(c) => {
            4294967296 + u64::from(c.red) * 65536 + u64::from(c.green) * 256 + u64::from(c.blue)
        }
    }
}

pub fn hannuvel_leaf_colour(text: &[u8]) -> u64
    ensures { result ≡ leaf colour_leaf text.now }
{
    let n = text.len();
    if n > 12288 {
        return 0;
    }
    packed_colour(colour::colour_at(text, 0, n))
}

// Where the text starts, << 32, and ends, less the blanks at both ends.
pub fn hannuvel_leaf_trim(text: &[u8]) -> u64
    ensures { result ≡ leaf trim_leaf text.now }
{
    let n = text.len();
    if n > 12288 {
        return 0;
    }
    let a = scan::trim_start(text, 0, n);
    let b = scan::trim_end(text, a, n);
    a as u64 * 4294967296 + b as u64
}

// The place of the parenthesis that closes one open before the text.
pub fn hannuvel_leaf_parenthesis(text: &[u8]) -> u64
    ensures { result ≡ leaf closing_leaf text.now }
{
    let n = text.len();
    if n > 12288 {
        return 0;
    }
    scan::closing(text, 0, n) as u64
}

// 1 << 32 where every part is a number, and how many parts there are.
fn packed_list(all: bool, count: usize) -> u64
    ensures { result ≡ packed_list all count }
{
    let n = (count % 4294967296) as u64;
    if all { 4294967296 + n } else { n }
}

// 0, or 1 and the place of the first part that is too long.
fn packed_place(place: Option<usize>) -> u32
    ensures { result ≡ packed_place place }
{
    match place {
        None => 0,
        Some(p) => (p % 4294967295) as u32 + 1,
    }
}

// Lays the words and the place into the first eight of out.
fn lay(words: [u32; 7], place: u32, out: &mut [u32])
    requires { 8 ≤ length out.old }
    ensures { out.new ≡ laid out.old words place }
{
    for i in 0..7 {
        out[i] = words[i];
    }
    out[7] = place;
}

fn list(text: &[u8], whole: bool, out: &mut [u32]) -> u64
    ensures value { result ≡ leaf (list_leaf whole) text.now }
    ensures out_after { out.new ≡ list_words whole text.now out.old }
{
    let n = text.len();
    if n > 12288 {
        return 0;
    }
    let l = lists::numbers_at(text, whole, 0, n);
    if out.len() >= 8 {
        lay(l.words, packed_place(l.too_long), out);
    }
    packed_list(l.all, l.count)
}

// The parts of a list of floats: 1 << 32 where all are numbers, and their count; out is lent eight words or more for the first seven and the place of the first that is too long.
pub fn hannuvel_leaf_floats(text: &[u8], out: &mut [u32]) -> u64
    ensures value { result ≡ leaf (list_leaf false) text.now }
    ensures out_after { out.new ≡ list_words false text.now out.old }
{
    list(text, false, out)
}

// The same of a list of whole numbers.
pub fn hannuvel_leaf_ints(text: &[u8], out: &mut [u32]) -> u64
    ensures value { result ≡ leaf (list_leaf true) text.now }
    ensures out_after { out.new ≡ list_words true text.now out.old }
{
    list(text, true, out)
}

// Whether x is finite and not below zero.
fn rooted(x: f32) -> bool
    ensures { result ≡ is_rooted x }
{
    x >= 0.0 && x < f32::INFINITY
}

pub fn hannuvel_leaf_root(a: u32) -> u32
    ensures { result ≡ root_leaf (of a) }
{
    let x = float::f32_of_word(a);
    if rooted(x) {
        return float::word_of_f32(root::sqrt_f32(x));
    }
    0x7FC00000
}

#[tactic(auto, using(crate::proofs::Laws::finite_is))]
pub fn hannuvel_leaf_power(x: u32, a: u32) -> u32
    ensures { result ≡ power_leaf (of x) (of a) }
{
    let base = float::f32_of_word(x);
    let exponent = float::f32_of_word(a);
    if rooted(base) && exponent.is_finite() {
        return float::word_of_f32(power::power_of(base, exponent));
    }
    0x7FC00000
}

pub fn hannuvel_leaf_lerp(a: u32, b: u32, k: u32) -> u32
    ensures { result ≡ to (lerp (of a) (of b) (of k)) }
{
    float::word_of_f32(float::lerp_f32(
        float::f32_of_word(a),
        float::f32_of_word(b),
        float::f32_of_word(k),
    ))
}

pub fn hannuvel_leaf_clamp(x: u32, lo: u32, hi: u32) -> u32
    ensures { result ≡ to (clamp (of x) (of lo) (of hi)) }
{
    float::word_of_f32(float::clamp(
        float::f32_of_word(x),
        float::f32_of_word(lo),
        float::f32_of_word(hi),
    ))
}

pub fn hannuvel_leaf_max_zero(x: u32) -> u32
    ensures { result ≡ to (max_zero (of x)) }
{
    float::word_of_f32(float::max_zero(float::f32_of_word(x)))
}

pub fn hannuvel_leaf_radians(x: u32) -> u32
    ensures { result ≡ to (to_radians (of x)) }
{
    float::word_of_f32(float::to_radians(float::f32_of_word(x)))
}

pub fn hannuvel_leaf_round(x: u32) -> u32
    ensures { result ≡ whole_leaf round_away (of x) }
{
    if float::in_reach(x) {
        return float::to_word(float::round_away(float::f32_of_word(x)));
    }
    0x80000000
}

pub fn hannuvel_leaf_cut(x: u32) -> u32
    ensures { result ≡ whole_leaf (to_signed 31) (of x) }
{
    if float::in_reach(x) {
        return float::to_word(float::cut(float::f32_of_word(x)));
    }
    0x80000000
}

pub fn hannuvel_leaf_cut_byte(x: u32) -> u32
    ensures { result ≡ to_unsigned 8 (of x) }
{
    u32::from(float::cut_byte(float::f32_of_word(x)))
}

pub fn hannuvel_leaf_round_byte(x: u32) -> u32
    ensures { result ≡ round_byte (of x) }
{
    u32::from(float::round_byte(float::f32_of_word(x)))
}

pub fn hannuvel_leaf_nearest_i32(w: u32) -> u32
    ensures { result ≡ to (of_int binary32 (of_word w)) }
{
    float::word_of_f32(float::nearest_i32(float::of_word(w)))
}

pub fn hannuvel_leaf_nearest_u32(w: u32) -> u32
    ensures { result ≡ to (of_int binary32 (pos w)) }
{
    float::word_of_f32(float::nearest_u32(w))
}

pub fn hannuvel_leaf_in_reach(w: u32) -> u32
    ensures { result ≡ pick (in_reach_lem (of w)) 1 0 }
{
    u32::from(float::in_reach(w))
}
