// x to the power a, for 0 <= x <= 1: the whole part of a by repeated multiplication, and eight binary digits of its fraction by repeated square roots.
#![tactic(auto)]

ghost use Rattle.std.specs.Prelude.{◌≡◌, ◌/◌, ◌%◌, ◌^◌, ◌<◌, ◌≤◌, T};
ghost use Rattle.std.specs.Float.Ieee as Ieee;
ghost use Rattle.float.specs.Float.{zero, one};
ghost use Rattle.root.specs.Inner.{part};
ghost use Rattle.power.specs.Power.{times, if_one, roots, steps, power256, power_up, power};

use root::Significand;

// 256 times a, cut down to a whole number, at most 64 * 256.
#[tactic(auto, using(crate::proofs::Steps::below_64, crate::proofs::Steps::from_64))]
fn in_256ths(a: f32) -> u32
    requires { T (Ieee.lt zero a) }
    ensures { result ≡ steps a }
{
    if a < 64.0 {
        std::num::saturating_f32_to_u32(a * 256.0)
    } else {
        16384
    }
}

// x multiplied n times over.
#[tactic(auto, using(crate::proofs::Law::a_one, crate::proofs::Law::times_step, crate::proofs::Law::times_end))]
fn whole(x: f32, n: u32) -> f32
    ensures { result ≡ times n x one }
{
    let mut p = 1.0;
    for _ in 0..n {
        p *= x;
    }
    p
}

// p, multiplied by y if v has a 1 at the digit d.
#[tactic(auto, using(crate::proofs::Law::if_some, crate::proofs::Law::if_zero))]
fn times_digit(p: f32, y: f32, v: u32, d: u32) -> f32
    requires { d < 8 }
    ensures { result ≡ if_one (v / 2 ^ d % 2) y p }
{
    if (v >> d) % 2 == 1 { p * y } else { p }
}

// p with v's d lowest binary digits, starting from the f32 whose digits are m, two roots a turn.
#[tactic(auto, using(crate::proofs::Law::shifted_pos, crate::proofs::Law::some_digits, crate::proofs::Law::near_step, crate::proofs::Law::roots_end))]
fn near_one(m: Significand, v: u32, d: u32, whole: f32) -> f32
    requires { d ≤ 8 }
    ensures { result ≡ roots d v (part m.digits) whole }
{
    let mut p = whole;
    let mut r = m;
    let mut i = d;
    while v % (1 << i) > 0 {
        let first = r.first_root();
        i -= 1;
        r = first.root;
        p = times_digit(p, r.to_f32(), v, i);
        if v % (1 << i) > 0 {
            i -= 1;
            r = r.root(first.next);
            p = times_digit(p, r.to_f32(), v, i);
        }
    }
    p
}

// p with the eight binary digits of v's fraction. No root is taken once the digits left are all 0: none for a whole power, one for a half.
#[tactic(auto, using(crate::proofs::Law::shifted_pos, crate::proofs::Law::some_digits, crate::proofs::Law::roots_step, crate::proofs::Law::roots_end))]
fn fraction(x: f32, v: u32, whole: f32) -> f32
    ensures { result ≡ roots 8 v x whole }
{
    let mut p = whole;
    let mut r = x;
    let mut d: u32 = 8;
    while v % (1 << d) > 0 {
        if let Some(m) = Significand::of_f32(r) {
            return near_one(m, v, d, p);
        }
        d -= 1;
        r = root::sqrt_f32(r);
        p = times_digit(p, r, v, d);
    }
    p
}

// x to the power v / 256.
#[tactic(auto, unfolding(crate::specs::Power::power256))]
fn power_256(x: f32, v: u32) -> f32
    ensures { result ≡ power256 x v }
{
    fraction(x, v, whole(x, v / 256))
}

// x to a power above 0.
#[tactic(auto, using(crate::proofs::Law::of_one), unfolding(crate::specs::Power::power_up))]
fn power_up(x: f32, a: f32) -> f32
    requires { T (Ieee.lt zero a) }
    ensures { result ≡ power_up x a }
{
    if x == 0.0 {
        0.0
    } else if x == 1.0 {
        1.0
    } else {
        power_256(x, in_256ths(a))
    }
}

// x to the power a.
#[tactic(auto, unfolding(crate::specs::Power::power))]
pub fn power_of(x: f32, a: f32) -> f32
    ensures { result ≡ power x a }
{
    if a > 0.0 {
        power_up(x, a)
    } else if a < 0.0 {
        1.0 / power_up(x, -a)
    } else {
        1.0
    }
}
