// How far a \t has come, and how a state goes over into another inside it.
#![tactic(auto)]

ghost use Rattle.std.specs.Prelude.{◌≡◌, Option, Float};
ghost use Rattle.float.specs.Float.{lerp};
ghost use Rattle.tag.specs.Decode.{f, times_of};
ghost use Rattle.state.specs.Mix.{near_zero, accel_of, between, bent as bent_of, held as held_of, factor as factor_of, round_between, mix_alphas, mix_always, mix_baseline, mix_clips, mix_colors, mix_font, mix_i32, mix_line, mix_option, mix_pair, mix_places, mix_rect, mix_rgb, mix_sizes, mix_strength};

use state::{
    Alphas, Always, ClipRect, Clips, Colors, Font, Line, Pair, Places, RenderState, Rgb, Sizes,
};

// ---- the factor

fn near_zero(a: f32) -> bool
    ensures { result ≡ near_zero a }
{
    a.abs() < f32::EPSILON
}

#[tactic(auto, using(crate::proofs::Law::finite_is))]
fn accel_of(a: f32) -> f32
    ensures { result ≡ accel_of a }
{
    if a.is_finite() { a } else { 1.0 }
}

#[tactic(auto, unfolding(state::specs::Mix::bent))]
fn bent(raw: f32, a: f32) -> f32
    ensures { result ≡ bent_of raw a }
{
    if near_zero(a) {
        raw
    } else {
        power::power_of(raw, a)
    }
}

#[tactic(auto, using(crate::proofs::Law::finite_is), unfolding(state::specs::Mix::held))]
fn held(raw: f32, k: f32) -> f32
    ensures { result ≡ held_of raw k }
{
    if k.is_finite() {
        float::clamp(k, 0.0, 1.0)
    } else {
        raw
    }
}

// How far a \t with these words for its times has come at t in a line of dur, with the bits of its acceleration.
// For the compiler (MEASURED, Shapes for the compiler): each word of a record is handed over by itself.
#[tactic(auto, unfolding(state::specs::Mix::factor))]
pub fn factor(flag: u32, start: u32, end: u32, accel: u32, t: i32, dur: i32) -> f32
    ensures { result ≡ factor_of (times_of flag start end) (f accel) t dur }
{
    let raw = ramp::advance_by(flag, start, end, t, dur);
    let a = accel_of(float::f32_of_word(accel));
    held(raw, bent(raw, a))
}

// ---- values between two

trait Between: Copy + Drop {
    ghost mixed: { Self → Self → Float → Self };

    // The value that stands k of the way from self to other.
    fn between(self, other: Self, k: f32) -> Self
        ensures { result ≡ mixed self other k };
}

impl Between for f32 {
    ghost mixed = { lerp };

    fn between(self, other: f32, k: f32) -> f32 {
        float::lerp_f32(self, other, k)
    }
}

impl Between for Pair {
    ghost mixed = { mix_pair };

    fn between(self, other: Pair, k: f32) -> Pair {
        ramp::mix_pair(self, other, k)
    }
}

impl Between for ClipRect {
    ghost mixed = { mix_rect };

    fn between(self, other: ClipRect, k: f32) -> ClipRect {
        ClipRect {
            x1: self.x1.between(other.x1, k),
            y1: self.y1.between(other.y1, k),
            x2: self.x2.between(other.x2, k),
            y2: self.y2.between(other.y2, k),
        }
    }
}

impl Between for Rgb {
    ghost mixed = { mix_rgb };

    fn between(self, other: Rgb, k: f32) -> Rgb {
        Rgb {
            red: ramp::cut_between(self.red, other.red, k),
            green: ramp::cut_between(self.green, other.green, k),
            blue: ramp::cut_between(self.blue, other.blue, k),
        }
    }
}

// Alphas and \be: rounded.
impl Between for u8 {
    ghost mixed = { round_between };

    #[tactic(auto, unfolding(state::specs::Mix::round_between))]
    fn between(self, other: u8, k: f32) -> u8 {
        float::round_byte(ramp::between_bytes(self, other, k))
    }
}

impl Between for i32 {
    ghost mixed = { mix_i32 };

    fn between(self, other: i32, k: f32) -> i32 {
        let from = float::nearest_i32(self);
        let to = float::nearest_i32(other);
        float::round_away(from.between(to, k))
    }
}

// ---- options between two

fn mix_option<T: Between>(a: Option<T>, b: Option<T>, k: f32) -> Option<T>
    ensures { result ≡ mix_option T.mixed a b k }
{
    match b {
        None => a,
        Some(y) => Some(a.unwrap_or(y).between(y, k)),
    }
}

// \pbo comes from 0 where there was none.
fn mix_baseline(a: Option<i32>, b: Option<i32>, k: f32) -> Option<i32>
    ensures { result ≡ mix_baseline a b k }
{
    match b {
        None => a,
        Some(y) => Some(a.unwrap_or(0).between(y, k)),
    }
}

fn mix_strength(a: u8, b: u8, k: f32) -> u8
    ensures { result ≡ mix_strength a b k }
{
    if a == b { a } else { a.between(b, k) }
}

// ---- group by group

#[tactic(auto, unfolding(state::specs::Mix::mix_always))]
pub fn mix_always(a: Always, b: Always, k: f32) -> Always
    ensures { result ≡ mix_always a b k }
{
    Always {
        alpha_mul: a.alpha_mul.between(b.alpha_mul, k),
        rotate_radians: a.rotate_radians.between(b.rotate_radians, k),
        rotate_x_radians: a.rotate_x_radians.between(b.rotate_x_radians, k),
        rotate_y_radians: a.rotate_y_radians.between(b.rotate_y_radians, k),
        scale: a.scale.between(b.scale, k),
        blur_sigma: float::max_zero(a.blur_sigma.between(b.blur_sigma, k)),
        be_strength: mix_strength(a.be_strength, b.be_strength, k),
        shear: a.shear.between(b.shear, k),
    }
}

#[tactic(auto, unfolding(state::specs::Mix::mix_places))]
pub fn mix_places(a: Places, b: Places, k: f32) -> Places
    ensures { result ≡ mix_places a b k }
{
    Places {
        translate: mix_option(a.translate, b.translate, k),
        border: mix_option(a.border, b.border, k),
        shadow: mix_option(a.shadow, b.shadow, k),
    }
}

#[tactic(auto, unfolding(state::specs::Mix::mix_clips))]
pub fn mix_clips(a: Clips, b: Clips, k: f32) -> Clips
    ensures { result ≡ mix_clips a b k }
{
    Clips {
        clip_rect: mix_option(a.clip_rect, b.clip_rect, k),
        iclip_rect: mix_option(a.iclip_rect, b.iclip_rect, k),
    }
}

#[tactic(auto, unfolding(state::specs::Mix::mix_sizes))]
pub fn mix_sizes(a: Sizes, b: Sizes, k: f32) -> Sizes
    ensures { result ≡ mix_sizes a b k }
{
    Sizes {
        font_size: mix_option(a.font_size, b.font_size, k),
        letter_spacing: mix_option(a.letter_spacing, b.letter_spacing, k),
        drawing_baseline_offset: mix_baseline(
            a.drawing_baseline_offset,
            b.drawing_baseline_offset,
            k,
        ),
    }
}

#[tactic(auto, unfolding(state::specs::Mix::mix_colors))]
pub fn mix_colors(a: Colors, b: Colors, k: f32) -> Colors
    ensures { result ≡ mix_colors a b k }
{
    Colors {
        primary_color: mix_option(a.primary_color, b.primary_color, k),
        secondary_color: mix_option(a.secondary_color, b.secondary_color, k),
        outline_color: mix_option(a.outline_color, b.outline_color, k),
        shadow_color: mix_option(a.shadow_color, b.shadow_color, k),
    }
}

#[tactic(auto, unfolding(state::specs::Mix::mix_alphas))]
pub fn mix_alphas(a: Alphas, b: Alphas, k: f32) -> Alphas
    ensures { result ≡ mix_alphas a b k }
{
    Alphas {
        primary_alpha: mix_option(a.primary_alpha, b.primary_alpha, k),
        secondary_alpha: mix_option(a.secondary_alpha, b.secondary_alpha, k),
        outline_alpha: mix_option(a.outline_alpha, b.outline_alpha, k),
        shadow_alpha: mix_option(a.shadow_alpha, b.shadow_alpha, k),
    }
}

#[tactic(auto, unfolding(state::specs::Mix::mix_line))]
pub fn mix_line(a: Line, b: Line, k: f32) -> Line
    ensures { result ≡ mix_line a b k }
{
    if k > 0.0 {
        // Of two pivots that are equal the first: a zero may have another sign.
        let pivot = if a.pivot == b.pivot { a.pivot } else { b.pivot };
        Line { pivot, ..b }
    } else {
        a
    }
}

#[tactic(auto, unfolding(state::specs::Mix::mix_font))]
pub fn mix_font(a: Font, b: Font, k: f32) -> Font
    ensures { result ≡ mix_font a b k }
{
    if k > 0.0 { b } else { a }
}

// The state that stands k of the way from a to b, each group of fields by itself.
#[tactic(auto, unfolding(state::specs::Mix::between))]
pub fn mix_state(a: RenderState, b: RenderState, k: f32) -> RenderState
    ensures { result ≡ between k a b }
{
    RenderState {
        always: mix_always(a.always, b.always, k),
        places: mix_places(a.places, b.places, k),
        clips: mix_clips(a.clips, b.clips, k),
        sizes: mix_sizes(a.sizes, b.sizes, k),
        colors: mix_colors(a.colors, b.colors, k),
        alphas: mix_alphas(a.alphas, b.alphas, k),
        line: mix_line(a.line, b.line, k),
        font: mix_font(a.font, b.font, k),
    }
}
