// What a letter of a drawing does.
#![tactic(auto)]

ghost use Rattle.std.specs.Prelude.{◌≡◌, ◌≤◌, ◌<◌, length};
ghost use Rattle.tokens.specs.Tokens.{from as tokens_from};
ghost use Rattle.pen.specs.Drawing.{command_of, continues as continues_at, letter_turn, command as command_turn, moves_to};
ghost use Rattle.letters.specs.Inner.{Turns};

use path::PathCommand;
use pen::{Command, Ctrl, Mode, Pen, Stroke};
use points::read_point;

// What a letter of either case asks for.
#[tactic(auto, unfolding(pen::specs::Drawing::command_of))]
pub fn command_of(b: u8) -> Command
    ensures { result ≡ command_of b }
{
    match scan::lower(b) {
        b'm' => Command::Move,
        b'n' => Command::MoveOpen,
        b'l' | b'p' => Command::Line,
        b'b' => Command::Cubic,
        b's' => Command::Basis,
        b'c' => Command::Close,
        _ => Command::Unknown,
    }
}

// Whether a letter continues the spline: `p`, in lower case only.
fn continues(mode: Mode, b: u8) -> bool
    ensures { result ≡ continues_at mode b }
{
    matches!(mode, Mode::Spline(_)) && b == b'p'
}

// A move to the point behind k; nothing where there is none. The place from which the drawing goes on.
fn moves_to(text: &[u8], closes: bool, k: usize, scale: f32, stroke: &mut Stroke<'_>) -> usize
    requires { (k ≤ length text.now) × (stroke.old.count < 65000) }
    ensures { Turns text.now stroke.old (moves_to closes scale stroke.old.pen (tokens_from text.now k)) k stroke.new result }
{
    let Some((p, next)) = read_point(text, k, scale) else {
        return k;
    };
    if closes && stroke.pen.opened {
        stroke.draw(PathCommand::Close);
    }
    stroke.draw(PathCommand::MoveTo(p));
    stroke.pen = Pen {
        cur: p,
        opened: false,
        mode: Mode::Lines,
    };
    next
}

// What a command does; its tokens begin at k.
fn command_turn(text: &[u8], c: Command, k: usize, scale: f32, stroke: &mut Stroke<'_>) -> usize
    requires { (k ≤ length text.now) × (stroke.old.count < 65000) }
    ensures { Turns text.now stroke.old (command_turn c scale stroke.old.pen (tokens_from text.now k)) k stroke.new result }
{
    match c {
        Command::Move => return moves_to(text, true, k, scale, stroke),
        Command::MoveOpen => return moves_to(text, false, k, scale, stroke),
        Command::Line => stroke.pen.mode = Mode::Lines,
        Command::Cubic => stroke.pen.mode = Mode::Cubics,
        Command::Basis => stroke.pen.mode = Mode::Spline(Ctrl::One(stroke.pen.cur)),
        Command::Close => {
            stroke.draw(PathCommand::Close);
            stroke.pen.opened = false;
            stroke.pen.mode = Mode::Idle;
        }
        Command::Unknown => return tokens::skip_tail(text, k),
    }
    k
}

// A letter that ends at k.
pub fn letter_turn(text: &[u8], b: u8, k: usize, scale: f32, stroke: &mut Stroke<'_>) -> usize
    requires { (k ≤ length text.now) × (stroke.old.count < 65000) }
    ensures { Turns text.now stroke.old (letter_turn b scale stroke.old.pen (tokens_from text.now k)) k stroke.new result }
{
    if continues(stroke.pen.mode, b) {
        return k;
    }
    stroke.pen = stroke.pen.settled();
    command_turn(text, command_of(b), k, scale, stroke)
}
