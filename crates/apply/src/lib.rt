// What the tags but \t do, where it is more than to set a field.
#![tactic(auto)]

ghost use Rattle.std.specs.Prelude.{◌≡◌};
ghost use Rattle.float.specs.Float.{to_radians, max_zero};
ghost use Rattle.tag.specs.Decode.{f};
ghost use Rattle.state.specs.Apply.{hundredth as hundredth_of, all_alphas, aligned as aligned_by, wrapped as wrapped_by};
ghost use Rattle.apply.specs.Inner.{fade_mul, moved_at};

pub mod times;
pub mod values;

use state::{Alphas, Line, Pair};
use times::{alpha_to_mul, fade_alpha};
use values::{byte, pair};

// ---- what every state has

// By how much \fade multiplies.
// For the compiler (MEASURED, Shapes for the compiler): each word of a record is handed over by itself.
pub fn fade_by(w1: u32, w2: u32, w3: u32, w4: u32, w5: u32, w6: u32, w7: u32, t: i32) -> f32
    ensures { result ≡ fade_mul w1 w2 w3 w4 w5 w6 w7 t }
{
    alpha_to_mul(fade_alpha(
        byte(w1),
        byte(w2),
        byte(w3),
        float::of_word(w4),
        float::of_word(w5),
        float::of_word(w6),
        float::of_word(w7),
        t,
    ))
}

// percent / 100.0
pub fn hundredth(w: u32) -> f32
    ensures { result ≡ hundredth_of (f w) }
{
    float::f32_of_word(w) / 100.0
}

pub fn radians(w: u32) -> f32
    ensures { result ≡ to_radians (f w) }
{
    float::to_radians(float::f32_of_word(w))
}

pub fn above_zero(w: u32) -> f32
    ensures { result ≡ max_zero (f w) }
{
    float::max_zero(float::f32_of_word(w))
}

// ---- places

// The place that \move has come to.
// For the compiler (MEASURED, Shapes for the compiler): each word of a record is handed over by itself.
pub fn moved(w1: u32, w2: u32, w3: u32, w4: u32, k: f32) -> Pair
    ensures { result ≡ moved_at w1 w2 w3 w4 k }
{
    ramp::mix_pair(pair(w1, w2), pair(w3, w4), k)
}

// ---- alphas

pub fn all_alphas(a: u32) -> Alphas
    ensures { result ≡ all_alphas a }
{
    let all = Some(byte(a));
    Alphas {
        primary_alpha: all,
        secondary_alpha: all,
        outline_alpha: all,
        shadow_alpha: all,
    }
}

// ---- line

// An alignment outside 1 to 9 changes nothing.
#[tactic(auto, unfolding(state::specs::Apply::aligned))]
pub fn aligned(s: Line, n: u32) -> Line
    ensures { result ≡ aligned_by s n }
{
    if n < 1 || n > 9 {
        return s;
    }
    Line {
        alignment: Some(n as u8),
        ..s
    }
}

// Nor does a wrap style above 3.
#[tactic(auto, unfolding(state::specs::Apply::wrapped))]
pub fn wrapped(s: Line, n: u32) -> Line
    ensures { result ≡ wrapped_by s n }
{
    if n > 3 {
        return s;
    }
    Line {
        wrap_style: Some(n as u8),
        ..s
    }
}
