// Helpers on f32: casts to and from whole numbers and words, bounds, interpolation, radians.
#![tactic(auto)]

ghost use Rattle.std.specs.Prelude.{◌≡◌, pos};
ghost use Rattle.std.specs.Float.Ieee as Ieee;
ghost use Rattle.std.specs.Float.{binary32};
ghost use Rattle.float.specs.Inner.{whole_part, half_up, whole_by};
ghost use Rattle.float.specs.Float.{max_zero, clamp as clamp_of, lerp, to_radians, in_reach_lem, round_away, round_byte, to_word, of_word};

// max(0.0): plus zero, where std's `max` may give the zero of either sign.
pub fn max_zero(x: f32) -> f32
    ensures { result ≡ max_zero x }
{
    if x > 0.0 { x } else { 0.0 }
}

// std's `clamp` asks that lo is at most hi, and this one takes any two.
#[tactic(auto, unfolding(crate::specs::Float::clamp))]
pub fn clamp(x: f32, lo: f32, hi: f32) -> f32
    ensures { result ≡ clamp_of x lo hi }
{
    if x < lo {
        lo
    } else if x > hi {
        hi
    } else {
        x
    }
}

#[tactic(auto, unfolding(crate::specs::Float::lerp))]
pub fn lerp_f32(a: f32, b: f32, k: f32) -> f32
    ensures { result ≡ lerp a b k }
{
    a + (b - a) * k
}

// ---- std's casts in the words of specs/Float, which the contracts above speak of

pub fn to_radians(x: f32) -> f32
    ensures { result ≡ to_radians x }
{
    x.to_radians()
}

// The float that a word stands for, a NaN for every NaN's pattern.
pub fn f32_of_word(w: u32) -> f32
    ensures { result ≡ Ieee.of_bits binary32 w }
{
    std::num::f32_from_bits_with_nan(w)
}

// A float's bits, 7FC00000 for a NaN.
pub fn word_of_f32(x: f32) -> u32
    ensures { result ≡ Ieee.to_bits binary32 x }
{
    std::num::f32_to_bits_with_nan(x)
}

// Whether a word is that of a finite float of magnitude at most 1,000,000,000.
pub fn in_reach(w: u32) -> bool
    ensures { result ≡ in_reach_lem (Ieee.of_bits binary32 w) }
{
    let x = f32_of_word(w);
    x >= -1000000000.0 && x <= 1000000000.0
}

// An i32 in two's complement.
pub fn to_word(z: i32) -> u32
    ensures { result ≡ to_word z }
{
    z.cast_unsigned()
}

// The i32 of a word in two's complement.
#[tactic(auto, using(crate::proofs::Words::signed_is))]
pub fn of_word(n: u32) -> i32
    ensures { result ≡ of_word n }
{
    n.cast_signed()
}

// The f32 nearest to n, ties to even.
pub fn nearest_i32(n: i32) -> f32
    ensures { result ≡ Ieee.of_int binary32 n }
{
    std::num::nearest_i32_to_f32(n)
}

// The same of a u32.
pub fn nearest_u32(n: u32) -> f32
    ensures { result ≡ Ieee.of_int binary32 (pos n) }
{
    std::num::nearest_u32_to_f32(n)
}

// x cut down to a whole number, at most 2 ^ 31; 0 where x is below 1 or a NaN.
// For the compiler (MEASURED, Shapes for the compiler): std's cast within its range, where a saturating one goes by way of 64 bits.
#[tactic(auto, using(crate::proofs::Cutting::whole_between, crate::proofs::Cutting::whole_above, crate::proofs::Cutting::whole_below, crate::proofs::Cutting::whole_high, crate::proofs::Cutting::whole_low, crate::proofs::Cutting::by_fits))]
fn whole(x: f32) -> u32
    ensures { result ≡ whole_by whole_part x }
{
    if x >= 2147483648.0 {
        2147483648
    } else if x >= 1.0 {
        std::num::truncating_f32_to_u64(x) as u32
    } else {
        0
    }
}

// x to the nearest whole number, a half going up, at most 2 ^ 31; 0 where x is below a half or a NaN.
// For the compiler: the same of x and a half, a sum that is exact in f64.
#[tactic(auto, using(crate::proofs::Cutting::half_added, crate::proofs::Cutting::sum_above, crate::proofs::Cutting::sum_below, crate::proofs::Cutting::nearest_high, crate::proofs::Cutting::nearest_low, crate::proofs::Cutting::by_fits))]
fn nearest(x: f32) -> u32
    ensures { result ≡ whole_by half_up x }
{
    if x >= 2147483648.0 {
        2147483648
    } else if x >= 0.5 {
        std::num::truncating_f64_to_u64(x as f64 + 0.5) as u32
    } else {
        0
    }
}

// x cut toward zero, as Rust's `as i32`.
#[tactic(auto, using(crate::proofs::Cutting::cut_up, crate::proofs::Cutting::cut_from_below))]
pub fn cut(x: f32) -> i32
    ensures { result ≡ Ieee.to_signed 31 x }
{
    if x < 0.0 {
        0i32.saturating_sub_unsigned(whole(-x))
    } else {
        0i32.saturating_add_unsigned(whole(x))
    }
}

// x to the nearest whole number, a half going away from zero: Rust's `round() as i32`.
#[tactic(auto, using(crate::proofs::Cutting::away_up, crate::proofs::Cutting::away_down))]
pub fn round_away(x: f32) -> i32
    ensures { result ≡ round_away x }
{
    if x < 0.0 {
        0i32.saturating_sub_unsigned(nearest(-x))
    } else {
        0i32.saturating_add_unsigned(nearest(x))
    }
}

// x cut to a byte, as Rust's `as u8`.
#[tactic(auto, using(crate::proofs::Cutting::byte_cut))]
pub fn cut_byte(x: f32) -> u8
    ensures { result ≡ Ieee.to_unsigned 8 x }
{
    whole(x).min(255) as u8
}

// x to the nearest byte, a half going up: Rust's `clamp(0.0, 255.0).round() as u8`.
#[tactic(auto, using(crate::proofs::Cutting::byte_nearest))]
pub fn round_byte(x: f32) -> u8
    ensures { result ≡ round_byte x }
{
    nearest(x).min(255) as u8
}
