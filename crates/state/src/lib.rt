// The render state at an instant: the Rust's RenderState less `transform`. Its fields stand in groups, each with its own name.
#![tactic(auto)]

ghost use Rattle.std.specs.Prelude.{◌≡◌};
ghost use Rattle.state.specs.State.{identity as no_override, splat};

#[derive(Clone, Copy, Default, Drop, PartialEq)]
pub struct Pair {
    pub x: f32,
    pub y: f32,
}

impl Pair {
    // The same on both axes.
    pub fn splat(v: f32) -> Pair
        ensures { result ≡ splat v }
    {
        Pair { x: v, y: v }
    }
}

#[derive(Clone, Copy, Drop)]
pub struct ClipRect {
    pub x1: f32,
    pub y1: f32,
    pub x2: f32,
    pub y2: f32,
}

#[derive(Clone, Copy, Drop)]
pub struct Rgb {
    pub red: u8,
    pub green: u8,
    pub blue: u8,
}

#[derive(Clone, Copy, Drop)]
pub struct Part {
    pub offset: u32,
    pub size: u32,
}

#[derive(Clone, Copy, Drop)]
pub struct Name {
    pub letters: Part,
    pub parameter: Part,
}

// What every state has.
#[derive(Clone, Copy, Default, Drop)]
pub struct Always {
    pub alpha_mul: f32,
    pub rotate_radians: f32,
    pub rotate_x_radians: f32,
    pub rotate_y_radians: f32,
    pub scale: Pair,
    pub blur_sigma: f32,
    pub be_strength: u8,
    pub shear: Pair,
}

#[derive(Clone, Copy, Default, Drop)]
pub struct Places {
    pub translate: Option<Pair>,
    pub border: Option<Pair>,
    pub shadow: Option<Pair>,
}

#[derive(Clone, Copy, Default, Drop)]
pub struct Clips {
    pub clip_rect: Option<ClipRect>,
    pub iclip_rect: Option<ClipRect>,
}

#[derive(Clone, Copy, Default, Drop)]
pub struct Sizes {
    pub font_size: Option<f32>,
    pub letter_spacing: Option<f32>,
    pub drawing_baseline_offset: Option<i32>,
}

#[derive(Clone, Copy, Default, Drop)]
pub struct Colors {
    pub primary_color: Option<Rgb>,
    pub secondary_color: Option<Rgb>,
    pub outline_color: Option<Rgb>,
    pub shadow_color: Option<Rgb>,
}

#[derive(Clone, Copy, Default, Drop)]
pub struct Alphas {
    pub primary_alpha: Option<u8>,
    pub secondary_alpha: Option<u8>,
    pub outline_alpha: Option<u8>,
    pub shadow_alpha: Option<u8>,
}

#[derive(Clone, Copy, Default, Drop)]
pub struct Line {
    pub pivot: Option<Pair>,
    pub clip_drawing: Option<Part>,
    pub iclip_drawing: Option<Part>,
    pub wrap_style: Option<u8>,
    pub alignment: Option<u8>,
    // None: no \\r; Some(None): a plain one; Some(Some(name)): to the style of that name.
    pub reset_to_style: Option<Option<Part>>,
    pub drawing_scale: Option<u8>,
}

#[derive(Clone, Copy, Default, Drop)]
pub struct Font {
    pub font_name: Option<Name>,
    pub font_encoding: Option<u8>,
    pub bold_weight: Option<u16>,
    pub italic: Option<bool>,
    pub underline: Option<bool>,
    pub strikeout: Option<bool>,
}

#[derive(Clone, Copy, Drop)]
pub struct RenderState {
    pub always: Always,
    pub places: Places,
    pub clips: Clips,
    pub sizes: Sizes,
    pub colors: Colors,
    pub alphas: Alphas,
    pub line: Line,
    pub font: Font,
}

// No override.
pub fn identity() -> RenderState
    ensures { result ≡ no_override }
{
    RenderState {
        always: Always {
            alpha_mul: 1.0,
            scale: Pair::splat(1.0),
            ..Always::default()
        },
        places: Places::default(),
        clips: Clips::default(),
        sizes: Sizes::default(),
        colors: Colors::default(),
        alphas: Alphas::default(),
        line: Line::default(),
        font: Font::default(),
    }
}
