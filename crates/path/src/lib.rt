// Points, the commands of a path, and writing them into a lent table.
#![tactic(auto)]

ghost use Rattle.std.specs.Prelude.{◌≡◌, ◌+◌, [], ◌∷◌};
ghost use Rattle.rows.specs.Rows.{bits};
ghost use Rattle.path.specs.Path.{command_words};
ghost use Rattle.path.specs.Inner.{Emits};

#[derive(Clone, Copy, Drop)]
pub struct Point {
    pub x: f32,
    pub y: f32,
}

impl Point {
    fn words(self) -> (u32, u32)
        ensures { (result.0 ≡ bits self.x) × (result.1 ≡ bits self.y) }
    {
        (float::word_of_f32(self.x), float::word_of_f32(self.y))
    }
}

#[derive(Clone, Copy, Drop)]
pub enum PathCommand {
    MoveTo(Point),
    LineTo(Point),
    // Its two control points, and its end.
    CubicTo(Point, Point, Point),
    Close,
}

impl PathCommand {
    // 01, "`Path`: a lent table of eight words a command": its kind, then seven words.
    fn words(self) -> [u32; 8]
        ensures { result ≡ command_words self }
    {
        match self {
            PathCommand::MoveTo(p) => {
                let (x, y) = p.words();
                [1, x, y, 0, 0, 0, 0, 0]
            }
            PathCommand::LineTo(p) => {
                let (x, y) = p.words();
                [2, x, y, 0, 0, 0, 0, 0]
            }
            PathCommand::CubicTo(p, q, r) => {
                let (a, b) = p.words();
                let (c, d) = q.words();
                let (e, f) = r.words();
                [3, a, b, c, d, e, f, 0]
            }
            PathCommand::Close => [4, 0, 0, 0, 0, 0, 0, 0],
        }
    }
}

// Writes a command at a place, counted in commands, where there is room for it.
pub fn write(path: &mut [u32], place: usize, command: PathCommand)
    ensures { Emits path.old place (command ∷ []) (place + 1) path.new }
{
    let start = path.len().min(place.saturating_mul(8));
    rows::put(&mut path[start..], command.words());
}
