// How far an instant is on its way between two, and what lies between two values there.
#![tactic(auto)]

ghost use Rattle.std.specs.Prelude.{◌≡◌, true, pos, ◌-ℤ◌};
ghost use Rattle.std.specs.Int.Signed.{le_z};
ghost use Rattle.state.specs.Mix.{quotient as quotient_of, advance as advance_of, mix_pair, lerp_bytes, cut_between};
ghost use Rattle.ramp.specs.Inner.{advance_by};

use state::Pair;

// ---- times

// A quotient of milliseconds: both are rounded before they are divided. Below 2^24, some four and a half hours, each is a float as it stands.
#[tactic(auto, unfolding(state::specs::Mix::quotient))]
pub fn quotient(a: u32, b: u32) -> f32
    ensures { result ≡ quotient_of (pos a) (pos b) }
{
    // For the compiler (MEASURED, Shapes for the compiler): a short way where both are floats as they stand.
    if a < 16777216 && b < 16777216 {
        return a as f32 / b as f32;
    }
    float::nearest_u32(a) / float::nearest_u32(b)
}

// How much of the way from start to end lies behind t, which is between them.
pub fn passed(start: i32, end: i32, t: i32) -> f32
    requires { (le_z start t ≡ true) × (le_z t end ≡ true) }
    ensures { result ≡ quotient_of (t -ℤ start) (end -ℤ start) }
{
    quotient(t.abs_diff(start), end.abs_diff(start))
}

// How far t is on its way from start to end.
#[tactic(auto, unfolding(state::specs::Mix::advance))]
pub fn advance(start: i32, end: i32, t: i32) -> f32
    ensures { result ≡ advance_of start end t }
{
    if end <= start {
        return if t >= end { 1.0 } else { 0.0 };
    }
    if t <= start {
        return 0.0;
    }
    if t >= end {
        return 1.0;
    }
    passed(start, end, t)
}

// The same with the times of \move and \t, which are from 0 to dur where the flag says that there are none.
// For the compiler (MEASURED, Shapes for the compiler): each word of a record is handed over by itself.
pub fn advance_by(flag: u32, a: u32, b: u32, t: i32, dur: i32) -> f32
    ensures { result ≡ advance_by flag a b t dur }
{
    if flag == 0 {
        advance(0, dur, t)
    } else {
        advance(float::of_word(a), float::of_word(b), t)
    }
}

// ---- values

pub fn mix_pair(a: Pair, b: Pair, k: f32) -> Pair
    ensures { result ≡ mix_pair a b k }
{
    Pair {
        x: float::lerp_f32(a.x, b.x, k),
        y: float::lerp_f32(a.y, b.y, k),
    }
}

#[tactic(auto, unfolding(state::specs::Mix::lerp_bytes))]
pub fn between_bytes(a: u8, b: u8, k: f32) -> f32
    ensures { result ≡ lerp_bytes a b k }
{
    float::lerp_f32(f32::from(a), f32::from(b), k)
}

// Colours, and the alpha of \fade: cut.
#[tactic(auto, unfolding(state::specs::Mix::cut_between))]
pub fn cut_between(a: u8, b: u8, k: f32) -> u8
    ensures { result ≡ cut_between a b k }
{
    float::cut_byte(between_bytes(a, b, k))
}
