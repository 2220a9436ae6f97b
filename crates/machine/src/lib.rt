// The machine that takes a drawing's tokens one after the other: what a token that is no letter does, and the loop over all of them.
#![tactic(auto)]

ghost use Rattle.std.specs.Prelude.{◌≡◌, ◌∷◌, ◌≤◌, ◌<◌, length};
ghost use Rattle.tokens.specs.Tokens.{from as tokens_from};
ghost use Rattle.pen.specs.declared.Mode.TheVariants.{Lines, Spline};
ghost use Rattle.pen.specs.Drawing.{bare_turn, turn_of, curve, pointed};
ghost use Rattle.letters.specs.Inner.{Turns};
ghost use Rattle.machine.specs.Inner.{Passes, Traces};

use letters::{command_of, letter_turn};
use path::PathCommand;
use pen::{Command, Ctrl, Mode, Pen, Stroke};
use points::{point_from, read_three_points};
use refusal::Refusal;
use tokens::{Token, next_token};

// A cubic from the token t on, which ends at k; without its points only that token is passed over. The place from which the drawing goes on.
fn curve_turn(text: &[u8], t: Token, k: usize, scale: f32, stroke: &mut Stroke<'_>) -> usize
    requires { (k ≤ length text.now) × (stroke.old.count < 65000) }
    ensures { Turns text.now stroke.old (curve scale stroke.old.pen (t ∷ tokens_from text.now k) (tokens_from text.now k)) k stroke.new result }
{
    let Some((p, q, r, next)) = read_three_points(text, t, k, scale) else {
        return k;
    };
    stroke.draw(PathCommand::CubicTo(p, q, r));
    stroke.pen = Pen {
        cur: r,
        opened: true,
        mode: Mode::Cubics,
    };
    next
}

// A line to the point from the token t on, which ends at k; without a point only that token is passed over.
fn line_turn(text: &[u8], t: Token, k: usize, scale: f32, stroke: &mut Stroke<'_>) -> usize
    requires { (k ≤ length text.now) × (stroke.old.count < 65000) × (stroke.old.pen.mode ≡ Lines) }
    ensures { Turns text.now stroke.old (pointed scale stroke.old.pen (t ∷ tokens_from text.now k) (tokens_from text.now k)) k stroke.new result }
{
    let Some((p, next)) = point_from(text, t, k, scale) else {
        return k;
    };
    stroke.draw(PathCommand::LineTo(p));
    stroke.pen = Pen {
        cur: p,
        opened: true,
        mode: Mode::Lines,
    };
    next
}

// A spline's control point from the token t on, which ends at k; without a point the spline takes no further ones.
fn spline_turn(
    text: &[u8],
    t: Token,
    k: usize,
    scale: f32,
    ctrl: Ctrl,
    stroke: &mut Stroke<'_>,
) -> usize
    requires { (k ≤ length text.now) × (stroke.old.count < 65000) × (stroke.old.pen.mode ≡ Spline ctrl) }
    ensures { Turns text.now stroke.old (pointed scale stroke.old.pen (t ∷ tokens_from text.now k) (tokens_from text.now k)) k stroke.new result }
{
    let Some((p, next)) = point_from(text, t, k, scale) else {
        stroke.pen.mode = Mode::Idle;
        return k;
    };
    stroke.spline_point(ctrl, p);
    next
}

// A token that is no letter, which ends at k.
fn bare_turn(text: &[u8], t: Token, k: usize, scale: f32, stroke: &mut Stroke<'_>) -> usize
    requires { (k ≤ length text.now) × (stroke.old.count < 65000) }
    ensures { Turns text.now stroke.old (bare_turn scale stroke.old.pen (t ∷ tokens_from text.now k) (tokens_from text.now k)) k stroke.new result }
{
    match stroke.pen.mode {
        Mode::Idle => k,
        Mode::Lines => line_turn(text, t, k, scale, stroke),
        Mode::Cubics => curve_turn(text, t, k, scale, stroke),
        Mode::Spline(ctrl) => spline_turn(text, t, k, scale, ctrl, stroke),
    }
}

// One token, which ends at k.
fn turn(text: &[u8], t: Token, k: usize, scale: f32, stroke: &mut Stroke<'_>) -> usize
    requires { (k ≤ length text.now) × (stroke.old.count < 65000) }
    ensures { Turns text.now stroke.old (turn_of t scale stroke.old.pen (t ∷ tokens_from text.now k) (tokens_from text.now k)) k stroke.new result }
{
    match t {
        Token::Letter(b) => letter_turn(text, b, k, scale, stroke),
        _ => bare_turn(text, t, k, scale, stroke),
    }
}

// Ground 3 in what one turn passes over: the token t, which ends at k, and what it takes with it.
fn turn_ground(text: &[u8], t: Token, k: usize) -> Result<(), Refusal>
    requires { k ≤ length text.now }
    ensures { Passes t (tokens_from text.now k) result }
{
    match t {
        Token::Letter(b) => match command_of(b) {
            Command::Unknown => tokens::tail_ground(text, k),
            _ => Ok(()),
        },
        Token::Refused(p) => Err(Refusal::NumeralTooLong(p)),
        Token::Number(_) | Token::Other => Ok(()),
    }
}

// The whole drawing, into the path: how many commands it has.
pub fn draw(text: &[u8], scale: f32, path: &mut [u32]) -> Result<usize, Refusal>
    requires { length text.now ≤ 12288 }
    ensures { Traces text.now scale path.old result path.new }
{
    let mut stroke = Stroke::new(path);
    let mut at = 0;
    while let Some((t, k)) = next_token(text, at) {
        turn_ground(text, t, k)?;
        at = turn(text, t, k, scale, &mut stroke);
    }
    Ok(stroke.count)
}
