// Where a walk over the spans of a table stands.
ghost use Rattle.std.specs.Prelude.{◌≡◌, length};
ghost use Rattle.karaoke.specs.Inner.{beats_from};

use crate::Ms;

// From a record on, where the first span begins as the one before it ended; so many spans are left.
#[derive(Drop)]
pub struct Walk<'a> {
    pub table: &'a [u32],
    pub at: usize,
    pub left: usize,
    pub start_ms: Ms,
    ghost counted: { left ≡ length (beats_from table.now at) },
}
