// The pen, what a letter can ask of it, and splines that draw as their control points come.
#![tactic(auto)]

ghost use Rattle.std.specs.Prelude.{◌≡◌, [], ◌∷◌, ◌<◌};
ghost use Rattle.pen.specs.Drawing.{bez as bez_of, gives, span_gives, spline_point, settled as settled_pen};
ghost use Rattle.pen.specs.Inner.{Begins, Strokes};

use path::{PathCommand, Point};

// A spline's control points: one, two or three that have drawn nothing yet, or the last two behind a span.
#[derive(Clone, Copy, Drop)]
pub enum Ctrl {
    One(Point),
    Two(Point, Point),
    Three(Point, Point, Point),
    Span(Point, Point),
}

// What a number without a letter continues: nothing, lines, cubics or a spline.
#[derive(Clone, Copy, Drop)]
pub enum Mode {
    Idle,
    Lines,
    Cubics,
    Spline(Ctrl),
}

// The current point, whether the subpath is open, and what goes on.
#[derive(Clone, Copy, Drop)]
pub struct Pen {
    pub cur: Point,
    pub opened: bool,
    pub mode: Mode,
}

impl Pen {
    // A spline takes no further points.
    pub fn settled(self) -> Pen
        ensures { result ≡ settled_pen self }
    {
        if let Mode::Spline(_) = self.mode {
            Pen {
                mode: Mode::Idle,
                ..self
            }
        } else {
            self
        }
    }
}

// What a letter asks for.
#[derive(Clone, Copy, Drop)]
pub enum Command {
    Move,
    MoveOpen,
    Line,
    Cubic,
    Basis,
    Close,
    Unknown,
}

// A weighted sum of three points, divided by 6, in the order of Rust's `bez`.
fn bez(a: Point, wa: f32, b: Point, wb: f32, c: Point, wc: f32) -> Point
    ensures { result ≡ bez_of a wa b wb c wc }
{
    Point {
        x: (a.x * wa + b.x * wb + c.x * wc) / 6.0,
        y: (a.y * wa + b.y * wb + c.y * wc) / 6.0,
    }
}

// A pen and the path that it draws: the words that are lent for it, and how many commands there are so far, with those for which there was no room.
#[derive(Drop)]
pub struct Stroke<'a> {
    pub pen: Pen,
    pub words: &'a mut [u32],
    pub count: usize,
}

impl<'a> Stroke<'a> {
    // A pen at the origin, which has drawn nothing.
    pub fn new(words: &'a mut [u32]) -> Stroke<'a>
        ensures { Begins words.entry result }
    {
        Stroke {
            pen: Pen {
                cur: Point { x: 0.0, y: 0.0 },
                opened: false,
                mode: Mode::Idle,
            },
            words,
            count: 0,
        }
    }

    // Draws a command. There are far fewer than 65,536: a text has at most 12,288 bytes, and each gives at most two.
    pub fn draw(&mut self, command: PathCommand)
        requires { self.old.count < 65536 }
        ensures { Strokes self.old (gives self.old.pen (command ∷ [])) self.new }
    {
        path::write(self.words, self.count, command);
        self.count += 1;
    }

    // A spline's next span, between b and c.
    fn span(&mut self, b: Point, c: Point, p: Point)
        requires { self.old.count < 65536 }
        ensures { Strokes self.old (span_gives b c p) self.new }
    {
        let q = bez(b, 4.0, c, 2.0, c, 0.0);
        let r = bez(b, 2.0, c, 4.0, c, 0.0);
        let end = bez(b, 1.0, c, 4.0, p, 1.0);
        self.draw(PathCommand::CubicTo(q, r, end));
        self.pen = Pen {
            cur: end,
            opened: true,
            mode: Mode::Spline(Ctrl::Span(c, p)),
        };
    }

    // A spline's next control point.
    pub fn spline_point(&mut self, ctrl: Ctrl, p: Point)
        requires { self.old.count < 65000 }
        ensures { Strokes self.old (spline_point self.old.pen.cur self.old.pen.opened ctrl p) self.new }
    {
        match ctrl {
            Ctrl::One(a) => self.pen.mode = Mode::Spline(Ctrl::Two(a, p)),
            Ctrl::Two(a, b) => self.pen.mode = Mode::Spline(Ctrl::Three(a, b, p)),
            Ctrl::Three(a, b, c) => {
                self.draw(PathCommand::LineTo(bez(a, 1.0, b, 4.0, c, 1.0)));
                self.span(b, c, p);
            }
            Ctrl::Span(b, c) => self.span(b, c, p),
        }
    }
}
