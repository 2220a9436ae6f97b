// The values that the words of a record stand for.
// For the compiler (MEASURED, Shapes for the compiler): each word of a record is handed over by itself.
ghost use Rattle.std.specs.Prelude.{◌≡◌, Option, min};
ghost use Rattle.std.specs.Float.Ieee.{le};
ghost use Rattle.scan.specs.Scan.{pick};
ghost use Rattle.tag.specs.Decode.{f};
ghost use Rattle.state.specs.Apply.{byte as byte_of, pair as pair_of, with_x, with_y, rect_of, numpad as numpad_of};
ghost use Rattle.apply.specs.Inner.{name_by, rgb_by, reset_by};

use state::{ClipRect, Name, Pair, Part, Rgb};

pub fn byte(w: u32) -> u8
    ensures { result ≡ byte_of w }
{
    w.min(255) as u8
}

pub fn short(w: u32) -> u16
    ensures { result ≡ min w 65535 }
{
    w.min(65535) as u16
}

pub fn pair(a: u32, b: u32) -> Pair
    ensures { result ≡ pair_of (f a) (f b) }
{
    Pair {
        x: float::f32_of_word(a),
        y: float::f32_of_word(b),
    }
}

pub fn name(w1: u32, w2: u32, w3: u32, w4: u32) -> Name
    ensures { result ≡ name_by w1 w2 w3 w4 }
{
    Name {
        letters: Part {
            offset: w1,
            size: w2,
        },
        parameter: Part {
            offset: w3,
            size: w4,
        },
    }
}

pub fn rgb(w1: u32, w2: u32, w3: u32) -> Rgb
    ensures { result ≡ rgb_by w1 w2 w3 }
{
    Rgb {
        red: byte(w1),
        green: byte(w2),
        blue: byte(w3),
    }
}

// Not f32's min and max, which put no order between a zero and its negative.
fn in_order(a: f32, b: f32) -> (f32, f32)
    ensures { result ≡ (pick (le a b) a b, pick (le a b) b a) }
{
    if a <= b { (a, b) } else { (b, a) }
}

// A rectangle, its corners put in order.
#[tactic(auto, unfolding(state::specs::Apply::rect_of))]
pub fn rect(w1: u32, w2: u32, w3: u32, w4: u32) -> ClipRect
    ensures { result ≡ rect_of (f w1) (f w2) (f w3) (f w4) }
{
    let a = pair(w1, w2);
    let b = pair(w3, w4);
    let (x1, x2) = in_order(a.x, b.x);
    let (y1, y2) = in_order(a.y, b.y);
    ClipRect { x1, y1, x2, y2 }
}

// One axis alone: the other stays, 0 where there is none.
pub fn with_x(p: Option<Pair>, x: f32) -> Pair
    ensures { result ≡ with_x p x }
{
    Pair {
        x,
        ..p.unwrap_or(Pair::splat(0.0))
    }
}

pub fn with_y(p: Option<Pair>, y: f32) -> Pair
    ensures { result ≡ with_y p y }
{
    Pair {
        y,
        ..p.unwrap_or(Pair::splat(0.0))
    }
}

// The place on the keypad of an alignment in the old numbering, 0 where it has none.
#[tactic(auto, unfolding(state::specs::Apply::numpad))]
pub fn numpad(n: u32) -> u32
    ensures { result ≡ numpad_of n }
{
    match n {
        1..=3 => n,
        5..=7 => n + 2,
        9..=11 => n - 5,
        _ => 0,
    }
}

// What \r says: no name, or a part of the text.
pub fn reset_of(flag: u32, offset: u32, size: u32) -> Option<Part>
    ensures { result ≡ reset_by flag offset size }
{
    (flag != 0).then_some(Part { offset, size })
}
