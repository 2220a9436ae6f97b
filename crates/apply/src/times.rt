// \fad and \fade.
ghost use Rattle.std.specs.Prelude.{◌≡◌, ◌-◌};
ghost use Rattle.state.specs.Apply.{fade_in, fade_out, fad_alpha, fade_alpha, alpha_to_mul};

use ramp::{cut_between, passed, quotient};

#[tactic(auto, unfolding(state::specs::Apply::fade_in))]
fn fade_in(t1: u32, t: u32) -> f32
    ensures { result ≡ fade_in t1 t }
{
    if t < t1 { quotient(t, t1) } else { 1.0 }
}

#[tactic(auto, unfolding(state::specs::Apply::fade_out))]
fn fade_out(t2: u32, t: u32, d: u32) -> f32
    ensures { result ≡ fade_out t2 t d }
{
    if t2 == 0 {
        return 1.0;
    }
    if t >= d {
        return 0.0;
    }
    if t > d.saturating_sub(t2) {
        return float::clamp(quotient(d - t, t2), 0.0, 1.0);
    }
    1.0
}

pub fn fad_alpha(t1: u32, t2: u32, t: i32, dur: i32) -> f32
    ensures { result ≡ fad_alpha t1 t2 t dur }
{
    let t = t.max(0) as u32;
    let dur = dur.max(0) as u32;
    float::clamp(fade_in(t1, t) * fade_out(t2, t, dur), 0.0, 1.0)
}

#[tactic(auto, unfolding(state::specs::Apply::fade_alpha))]
pub fn fade_alpha(a1: u8, a2: u8, a3: u8, t1: i32, t2: i32, t3: i32, t4: i32, t: i32) -> u8
    ensures { result ≡ fade_alpha a1 a2 a3 t1 t2 t3 t4 t }
{
    if t < t1 {
        return a1;
    }
    if t < t2 {
        return cut_between(a1, a2, passed(t1, t2, t));
    }
    if t < t3 {
        return a2;
    }
    if t < t4 {
        return cut_between(a2, a3, passed(t3, t4, t));
    }
    a3
}

pub fn alpha_to_mul(a: u8) -> f32
    ensures { result ≡ alpha_to_mul a }
{
    1.0 - f32::from(a) / 255.0
}
