// The exports of `hannuvel`, the C interface, declared in include/hannuvel.h: each gives what the library's function of its name gives, under the same clauses. A call answers one number: bits 48 to 63 the refusal's ground, 0 for none; bits 32 to 47 an extra; bits 0 to 31 the value, or the refusal's place or count.
#![tactic(auto)]

ghost use Rattle.read.specs.Reading.{whole_text, less_braces};
ghost use Rattle.hannuvel.specs.Packed.{ReadingCall, DrawingCall, ClipCall};
ghost use Rattle.hannuvel.specs.Instant.{EvaluatingCall, MarkingCall};
ghost use Rattle.hannuvel.specs.InForce.{StyleCall};
ghost use Rattle.hannuvel.specs.Karaoke.{SpansCall, ProgressCall};

// Reads a block into a table; braces are ordinary bytes. The value is the number of records written.
#[unsafe(no_mangle)]
pub extern "C" fn hannuvel_parse_overrides(text: &[u8], table: &mut [u32]) -> u64
    ensures { ReadingCall text.now (whole_text text.now) table.old result table.new }
{
    hannuvel::hannuvel_parse_overrides(text, table)
}

// The same for the text trimmed, less one { and one }; offsets count from the text given.
#[unsafe(no_mangle)]
pub extern "C" fn hannuvel_parse_raw_block(text: &[u8], table: &mut [u32]) -> u64
    ensures { ReadingCall text.now (less_braces text.now) table.old result table.new }
{
    hannuvel::hannuvel_parse_raw_block(text, table)
}

// The path of a drawing at a scale exponent. The value is the number of commands written.
#[unsafe(no_mangle)]
pub extern "C" fn hannuvel_parse_drawing(text: &[u8], exponent: u32, path: &mut [u32]) -> u64
    ensures { DrawingCall text.now exponent path.old result path.new }
{
    hannuvel::hannuvel_parse_drawing(text, exponent, path)
}

// A clip argument. The value is the scale, the extra the offset at which the rest of the argument begins.
#[unsafe(no_mangle)]
pub extern "C" fn hannuvel_split_clip_arg(text: &[u8]) -> u64
    ensures { ClipCall text.now result }
{
    hannuvel::hannuvel_split_clip_arg(text)
}

// The state at t of the tags that a table stands for, in a line of that duration, as its 92 words.
#[unsafe(no_mangle)]
pub extern "C" fn hannuvel_evaluate_at(
    table: &[u32],
    t: i32,
    duration: i32,
    state: &mut [u32; 92],
) -> u64
    ensures { EvaluatingCall table.now t duration state.old result state.new }
{
    hannuvel::hannuvel_evaluate_at(table, t, duration, state)
}

// The earliest mark after t of the tags that a table stands for, in a line of that duration. The value is the mark in two's complement, the extra 1 where there is none.
#[unsafe(no_mangle)]
pub extern "C" fn hannuvel_next_mark(table: &[u32], t: i32, duration: i32) -> u64
    ensures { MarkingCall table.now t duration result }
{
    hannuvel::hannuvel_next_mark(table, t, duration)
}

// The karaoke spans of the tags that a table stands for, three words a span: kind, start, end. The value is the number of spans written.
#[unsafe(no_mangle)]
pub extern "C" fn hannuvel_karaoke_spans(table: &[u32], spans: &mut [u32]) -> u64
    ensures { SpansCall table.now spans.old result spans.new }
{
    hannuvel::hannuvel_karaoke_spans(table, spans)
}

// How far the instant t is in a span from start to end. The value is the f32's bits.
#[unsafe(no_mangle)]
pub extern "C" fn hannuvel_progress(start: u32, end: u32, t: i32) -> u64
    ensures { ProgressCall start end t result }
{
    hannuvel::hannuvel_progress(start, end, t)
}

// The style in force at t: the name that \r gave, a part of the block, or the line's own. The value is the part's offset and length, the extra 1 for a part of the block.
#[unsafe(no_mangle)]
pub extern "C" fn hannuvel_style_in_force<'a>(
    table: &[u32],
    t: i32,
    duration: i32,
    block: &'a [u8],
    own: &'a [u8],
) -> u64
    ensures { StyleCall table.now t duration block.now own.now result }
{
    hannuvel::hannuvel_style_in_force(table, t, duration, block, own)
}
