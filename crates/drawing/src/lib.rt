// Drawings: the path that a drawing's text describes.
#![tactic(auto)]

ghost use Rattle.std.specs.Prelude.{◌≡◌, ◌≤◌, Ok};
ghost use Rattle.refusal.specs.Refusal.{text_ground};
ghost use Rattle.pen.specs.Drawing.{scale_of};
ghost use Rattle.drawing.specs.Answer.{Answered};

use machine::draw;
use refusal::Refusal;

// 01, ground 7: the largest scale exponent.
const MOST_EXPONENT: u32 = 32;

// What coordinates are multiplied by: one divided by 2 ^ (exponent - 1), at exponent 0 as at 1.
fn scale_of(exponent: u32) -> f32
    requires { exponent ≤ 32 }
    ensures { result ≡ scale_of exponent }
{
    1.0 / float::nearest_u32(1 << exponent.saturating_sub(1))
}

// Draws where grounds 1, 2 and 7 don't stand: in one run where a first look rules out grounds 3 and 9; else first into no path.
fn draw_good(text: &[u8], exponent: u32, path: &mut [u32]) -> Result<usize, Refusal>
    requires { (text_ground text.now ≡ Ok tt) × (exponent ≤ 32) }
    ensures { Answered text.now exponent path.old result path.new }
{
    let scale = scale_of(exponent);
    let places = (path.len() / 8).min(1024);
    if tokens::straight(text, places) {
        return draw(text, scale, path);
    }
    let needed = draw(text, scale, &mut [])?;
    if needed > places {
        Err(Refusal::NoRoom(needed))
    } else {
        draw(text, scale, path)
    }
}

// 01, src/drawing.rs: the path of a drawing.
pub fn parse_drawing(text: &[u8], exponent: u32, path: &mut [u32]) -> Result<usize, Refusal>
    ensures { Answered text.now exponent path.old result path.new }
{
    refusal::check_text(text)?;
    if exponent > MOST_EXPONENT {
        tokens::check_tokens(text)?;
        return Err(Refusal::ScaleTooLarge);
    }
    draw_good(text, exponent, path)
}
