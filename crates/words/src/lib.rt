// A render state as the 92 words of the C interface.
#![tactic(auto)]

ghost use Rattle.std.specs.Prelude.{◌≡◌, ◌+◌, List, Option, ℕ};
ghost use Rattle.words.specs.Words as Words;
ghost use Rattle.words.specs.Words.{option, words_from0, words_from18, words_from44, words_from70};
ghost use Rattle.words.specs.Inner.{Clear, Free, Put};

use state::{ClipRect, Name, Pair, Part, RenderState, Rgb};

// ---- values as words, as many for each of a type

trait Words<const N: usize>: Copy + Drop {
    ghost list: { Self → List ℕ };

    fn words(self) -> [u32; N]
        ensures { result ≡ list self };
}

impl Words<1> for u8 {
    ghost list = { Words.number };

    fn words(self) -> [u32; 1] {
        [u32::from(self)]
    }
}

impl Words<1> for u16 {
    ghost list = { Words.number };

    fn words(self) -> [u32; 1] {
        [u32::from(self)]
    }
}

impl Words<1> for i32 {
    ghost list = { Words.int };

    fn words(self) -> [u32; 1] {
        [float::to_word(self)]
    }
}

impl Words<1> for bool {
    ghost list = { Words.flag };

    fn words(self) -> [u32; 1] {
        [u32::from(self)]
    }
}

impl Words<1> for f32 {
    ghost list = { Words.f32 };

    fn words(self) -> [u32; 1] {
        [float::word_of_f32(self)]
    }
}

impl Words<2> for Pair {
    ghost list = { Words.pair };

    fn words(self) -> [u32; 2] {
        [float::word_of_f32(self.x), float::word_of_f32(self.y)]
    }
}

impl Words<4> for ClipRect {
    ghost list = { Words.rect };

    fn words(self) -> [u32; 4] {
        [
            float::word_of_f32(self.x1),
            float::word_of_f32(self.y1),
            float::word_of_f32(self.x2),
            float::word_of_f32(self.y2),
        ]
    }
}

impl Words<3> for Rgb {
    ghost list = { Words.rgb };

    fn words(self) -> [u32; 3] {
        [
            u32::from(self.red),
            u32::from(self.green),
            u32::from(self.blue),
        ]
    }
}

impl Words<2> for Part {
    ghost list = { Words.part };

    fn words(self) -> [u32; 2] {
        [self.offset, self.size]
    }
}

impl Words<4> for Name {
    ghost list = { Words.name };

    fn words(self) -> [u32; 4] {
        let letters = self.letters;
        let parameter = self.parameter;
        [
            letters.offset,
            letters.size,
            parameter.offset,
            parameter.size,
        ]
    }
}

// What \r says.
impl Words<3> for Option<Option<Part>> {
    ghost list = { Words.reset };

    #[tactic(auto, unfolding(crate::specs::Words::reset))]
    fn words(self) -> [u32; 3] {
        match self {
            None => [0, 0, 0],
            Some(None) => [1, 0, 0],
            Some(Some(p)) => [2, p.offset, p.size],
        }
    }
}

// ---- a field, from an index on: all words from there on are 0, so that an absent option is there already

// For the compiler (MEASURED, Shapes for the compiler): the words are cleared first, and an absent option writes nothing.
fn put<T: Words<N>, const N: usize>(out: &mut [u32], at: usize, x: T)
    requires { Free out.old at N }
    ensures { Put out.old at N (T.list x) out.new }
{
    out[at..at + N].copy_from_slice(&x.words());
}

fn put_option<T: Words<N>, const N: usize>(out: &mut [u32], at: usize, o: Option<T>)
    requires { Free out.old at (N + 1) }
    ensures { Put out.old at (N + 1) (option N T.list o) out.new }
{
    if let Some(x) = o {
        out[at] = 1;
        put(out, at + 1, x);
    }
}

// ---- the state

// All words 0.
// For the compiler (MEASURED, Shapes for the compiler): the array, and no slice.
pub fn clear(out: &mut [u32; 92])
    ensures { Clear out.new 0 }
{
    *out = [0; 92];
}

// Four parts, one behind another: each has few fields at hand.

// alpha_mul to clip_drawing
// For the compiler (MEASURED, Shapes for the compiler): the array, and no slice.
pub fn put_from_0(out: &mut [u32; 92], st: RenderState)
    requires { Clear out.old 0 }
    ensures { Put out.old 0 18 (words_from0 st) out.new }
{
    put(out, 0, st.always.alpha_mul);
    put(out, 1, st.always.rotate_radians);
    put(out, 2, st.always.rotate_x_radians);
    put(out, 3, st.always.rotate_y_radians);
    put(out, 4, st.always.scale);
    put_option(out, 6, st.places.translate);
    put(out, 9, st.always.blur_sigma);
    put_option(out, 10, st.clips.clip_rect);
    put_option(out, 15, st.line.clip_drawing);
}

// primary_color to iclip_drawing
// For the compiler (MEASURED, Shapes for the compiler): the array, and no slice.
pub fn put_from_18(out: &mut [u32; 92], st: RenderState)
    requires { Clear out.old 18 }
    ensures { Put out.old 18 26 (words_from18 st) out.new }
{
    put_option(out, 18, st.colors.primary_color);
    put_option(out, 22, st.sizes.font_size);
    put_option(out, 24, st.line.pivot);
    put_option(out, 27, st.places.border);
    put_option(out, 30, st.places.shadow);
    put(out, 33, st.always.be_strength);
    put(out, 34, st.always.shear);
    put_option(out, 36, st.clips.iclip_rect);
    put_option(out, 41, st.line.iclip_drawing);
}

// secondary_color to alignment
// For the compiler (MEASURED, Shapes for the compiler): the array, and no slice.
pub fn put_from_44(out: &mut [u32; 92], st: RenderState)
    requires { Clear out.old 44 }
    ensures { Put out.old 44 26 (words_from44 st) out.new }
{
    put_option(out, 44, st.colors.secondary_color);
    put_option(out, 48, st.colors.outline_color);
    put_option(out, 52, st.colors.shadow_color);
    put_option(out, 56, st.alphas.primary_alpha);
    put_option(out, 58, st.alphas.secondary_alpha);
    put_option(out, 60, st.alphas.outline_alpha);
    put_option(out, 62, st.alphas.shadow_alpha);
    put_option(out, 64, st.sizes.letter_spacing);
    put_option(out, 66, st.line.wrap_style);
    put_option(out, 68, st.line.alignment);
}

// font_name to drawing_scale
// For the compiler (MEASURED, Shapes for the compiler): the array, and no slice.
pub fn put_from_70(out: &mut [u32; 92], st: RenderState)
    requires { Clear out.old 70 }
    ensures { Put out.old 70 22 (words_from70 st) out.new }
{
    put_option(out, 70, st.font.font_name);
    put_option(out, 75, st.font.font_encoding);
    put_option(out, 77, st.font.bold_weight);
    put(out, 79, st.line.reset_to_style);
    put_option(out, 82, st.font.italic);
    put_option(out, 84, st.font.underline);
    put_option(out, 86, st.font.strikeout);
    put_option(out, 88, st.sizes.drawing_baseline_offset);
    put_option(out, 90, st.line.drawing_scale);
}
