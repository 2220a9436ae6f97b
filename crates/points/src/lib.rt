// Points, read from the tokens of a drawing.
#![tactic(auto)]

ghost use Rattle.std.specs.Prelude.{◌≤◌, length};
ghost use Rattle.points.specs.Inner.{PointFrom, ReadsPoint, ThreeFrom};

use path::Point;
use tokens::{Token, next_token};

// The point whose first token is t, which ends at k, multiplied by the scale, with the place behind it, as Rust's `read_point` has it.
#[tactic(auto, unfolding(pen::specs::Drawing::scaled))]
pub fn point_from(text: &[u8], t: Token, k: usize, scale: f32) -> Option<(Point, usize)>
    requires { k ≤ length text.now }
    ensures { PointFrom text.now scale t k result }
{
    let Token::Number(x) = t else {
        return None;
    };
    let (Token::Number(y), j) = next_token(text, k)? else {
        return None;
    };
    let point = Point {
        x: x * scale,
        y: y * scale,
    };
    Some((point, j))
}

// The point from i on.
pub fn read_point(text: &[u8], i: usize, scale: f32) -> Option<(Point, usize)>
    requires { i ≤ length text.now }
    ensures { ReadsPoint text.now scale i result }
{
    let (t, k) = next_token(text, i)?;
    point_from(text, t, k, scale)
}

// The three points whose first token is t, which ends at k, with the place behind them, as Rust's `read_three_points` has it.
pub fn read_three_points(
    text: &[u8],
    t: Token,
    k: usize,
    scale: f32,
) -> Option<(Point, Point, Point, usize)>
    requires { k ≤ length text.now }
    ensures { ThreeFrom text.now scale t k result }
{
    let (p, i1) = point_from(text, t, k, scale)?;
    let (q, i2) = read_point(text, i1, scale)?;
    let (r, i3) = read_point(text, i2, scale)?;
    Some((p, q, r, i3))
}
