// The evaluators of tags and of \t, which call each other: `apply_tag` and `apply_t` of the Rust.
#![tactic(auto)]

ghost use Rattle.std.specs.Prelude.{◌≡◌, None, false, ◌+◌, ◌-◌, ◌<◌};
ghost use Rattle.table.specs.Inner.{Inside};
ghost use Rattle.evaluators.specs.Inner.{Applied};

use apply::times::fad_alpha;
use apply::values::{byte, name, numpad, pair, rect, reset_of, rgb, short, with_x, with_y};
use apply::{above_zero, aligned, all_alphas, fade_by, hundredth, moved, radians, wrapped};
use float::{f32_of_word, of_word};
use state::{Pair, Part, RenderState};
use table::{
    colour_fits, drawing_fits, fade_fits, float_fits, font_fits, move_fits, number_fits,
    numbers_fit, pair_fits, rect_fits, reset_fits, shift_fits, t_stands, weight_fits,
};

// What the n records inside the T at the index `at` make of the state a.
// For the compiler (MEASURED, Shapes for the compiler): the times are lent.
#[cycle(tags)]
fn apply_t(
    table: &[u32],
    at: usize,
    n: usize,
    deep: usize,
    a: RenderState,
    t: &i32,
    dur: &i32,
    fault: &mut Option<usize>,
    out: &mut [u32; 92],
) -> RenderState
    requires { (0 < deep) × Inside table.now (at + 1) n × (fault.old ≡ None) }
    ensures { Applied t.now dur.now table.now (at + 1) n (deep - 1) a false out.old result fault.new out.new }
{
    apply_tags(table, at + 1, n, deep - 1, a, t, dur, false, fault, out)
}

// The tags of the `count` records from `first` on, one after the other, with `deep` more levels of T allowed. A record is checked in the arm of
// its kind and then applied, one field of the state in place; the first at fault ends it, and `fault`, which held nothing, then holds its
// index: a Result with the state in it would lie on the stack of each level of T. Behind the last record the words of the state are written,
// if they are asked for.
// For the compiler (MEASURED, Shapes for the compiler): the times are lent.
#[cycle(tags)]
pub fn apply_tags(
    table: &[u32],
    first: usize,
    count: usize,
    deep: usize,
    st: RenderState,
    t: &i32,
    dur: &i32,
    write: bool,
    fault: &mut Option<usize>,
    out: &mut [u32; 92],
) -> RenderState
    requires { Inside table.now first count × (fault.old ≡ None) }
    ensures { Applied t.now dur.now table.now first count deep st write out.old result fault.new out.new }
{
    let mut post = st;
    let mut at = first;
    let end = first + count;
    // No `for`: behind a T the place goes on past what is inside it.
    while at < end {
        let r = table::record_at(table, at);
        // For the compiler (MEASURED, Shapes for the compiler): an arm asks the test of its kind by name.
        match r.kind {
            1 if numbers_fit(r, 2147483647, 2147483647) => {
                post.always.alpha_mul *= fad_alpha(r.w1, r.w2, *t, *dur);
            }
            2 if fade_fits(r) => {
                post.always.alpha_mul *= fade_by(r.w1, r.w2, r.w3, r.w4, r.w5, r.w6, r.w7, *t);
            }
            3 if pair_fits(r) => post.places.translate = Some(pair(r.w1, r.w2)),
            4 if move_fits(r) => {
                let k = ramp::advance_by(r.w5, r.w6, r.w7, *t, *dur);
                post.places.translate = Some(moved(r.w1, r.w2, r.w3, r.w4, k));
            }
            5 if float_fits(r) => post.always.rotate_radians = radians(r.w1),
            6 if float_fits(r) => post.always.blur_sigma = above_zero(r.w1),
            7 if float_fits(r) => post.always.scale.x = hundredth(r.w1),
            8 if float_fits(r) => post.always.scale.y = hundredth(r.w1),
            9 if colour_fits(r) => post.colors.primary_color = Some(rgb(r.w1, r.w2, r.w3)),
            10 if float_fits(r) => post.sizes.font_size = Some(f32_of_word(r.w1)),
            11 if rect_fits(r) => post.clips.clip_rect = Some(rect(r.w1, r.w2, r.w3, r.w4)),
            12 if drawing_fits(r) => post.line.clip_drawing = Some(Part {
                offset: r.w1,
                size: r.w2,
            }),
            13 if float_fits(r) => post.always.rotate_x_radians = radians(r.w1),
            14 if float_fits(r) => post.always.rotate_y_radians = radians(r.w1),
            15 if pair_fits(r) => post.line.pivot = Some(pair(r.w1, r.w2)),
            16 if float_fits(r) => post.places.border = Some(Pair::splat(above_zero(r.w1))),
            17 if float_fits(r) => {
                post.places.border = Some(with_x(post.places.border, above_zero(r.w1)));
            }
            18 if float_fits(r) => {
                post.places.border = Some(with_y(post.places.border, above_zero(r.w1)));
            }
            19 if float_fits(r) => post.places.shadow = Some(Pair::splat(above_zero(r.w1))),
            20 if float_fits(r) => {
                post.places.shadow = Some(with_x(post.places.shadow, f32_of_word(r.w1)));
            }
            21 if float_fits(r) => {
                post.places.shadow = Some(with_y(post.places.shadow, f32_of_word(r.w1)));
            }
            22 if number_fits(r, 0, 255) => post.always.be_strength = byte(r.w1),
            23 if float_fits(r) => post.always.shear.x = f32_of_word(r.w1),
            24 if float_fits(r) => post.always.shear.y = f32_of_word(r.w1),
            25 if rect_fits(r) => post.clips.iclip_rect = Some(rect(r.w1, r.w2, r.w3, r.w4)),
            26 if drawing_fits(r) => post.line.iclip_drawing = Some(Part {
                offset: r.w1,
                size: r.w2,
            }),
            27 if colour_fits(r) => post.colors.secondary_color = Some(rgb(r.w1, r.w2, r.w3)),
            28 if colour_fits(r) => post.colors.outline_color = Some(rgb(r.w1, r.w2, r.w3)),
            29 if colour_fits(r) => post.colors.shadow_color = Some(rgb(r.w1, r.w2, r.w3)),
            30 if number_fits(r, 0, 255) => post.alphas = all_alphas(r.w1),
            31 if number_fits(r, 0, 255) => post.alphas.primary_alpha = Some(byte(r.w1)),
            32 if number_fits(r, 0, 255) => post.alphas.secondary_alpha = Some(byte(r.w1)),
            33 if number_fits(r, 0, 255) => post.alphas.outline_alpha = Some(byte(r.w1)),
            34 if number_fits(r, 0, 255) => post.alphas.shadow_alpha = Some(byte(r.w1)),
            35 if float_fits(r) => post.sizes.letter_spacing = Some(f32_of_word(r.w1)),
            36 if number_fits(r, 0, 3) => post.line = wrapped(post.line, r.w1),
            37 if number_fits(r, 1, 9) => post.line = aligned(post.line, r.w1),
            38 if number_fits(r, 0, 255) => post.line = aligned(post.line, numpad(r.w1)),
            39 if font_fits(r) => post.font.font_name = Some(name(r.w1, r.w2, r.w3, r.w4)),
            40 if number_fits(r, 0, 255) => post.font.font_encoding = Some(byte(r.w1)),
            41 if reset_fits(r) => {
                post = state::identity();
                post.line.reset_to_style = Some(reset_of(r.w1, r.w2, r.w3));
            }
            42 if weight_fits(r) => post.font.bold_weight = Some(short(r.w1)),
            43 if number_fits(r, 0, 1) => post.font.italic = Some(r.w1 != 0),
            44 if number_fits(r, 0, 1) => post.font.underline = Some(r.w1 != 0),
            45 if number_fits(r, 0, 1) => post.font.strikeout = Some(r.w1 != 0),
            46 if numbers_fit(r, 2, 1000000000) => {}
            47 if shift_fits(r) => post.sizes.drawing_baseline_offset = Some(of_word(r.w1)),
            48 if number_fits(r, 0, 255) => post.line.drawing_scale = Some(byte(r.w1)),
            49 if t_stands(r, end - at - 1, deep) => {
                let n = r.w5 as usize;
                let k = mix::factor(r.w1, r.w2, r.w3, r.w4, *t, *dur);
                // For the compiler (MEASURED, Shapes for the compiler): `mix::mix_state` is called in two places, so that it stays a call.
                if n == 0 {
                    post = mix::mix_state(post, post, k);
                } else {
                    let b = apply_t(table, at, n, deep, post, t, dur, fault, out);
                    if fault.is_some() {
                        return post;
                    }
                    post = mix::mix_state(post, b, k);
                    at += n;
                }
            }
            _ => break,
        }
        at += 1;
    }
    if at < end {
        *fault = Some(at);
        return post;
    }
    if write {
        // For the compiler (MEASURED, Shapes for the compiler): the words are written in the function of the loop, where the state lies.
        words::clear(out);
        words::put_from_0(out, post);
        words::put_from_18(out, post);
        words::put_from_44(out, post);
        words::put_from_70(out, post);
    }
    post
}
