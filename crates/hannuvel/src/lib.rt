// The calls of the C interface, which include/hannuvel.h declares and `hannuvel_c` exports. A call answers one number: bits 48 to 63 the refusal's ground, 0 for none; bits 32 to 47 an extra; bits 0 to 31 the value, or the refusal's place or count.
#![tactic(auto)]

ghost use Rattle.std.specs.Prelude.{◌≡◌, ℕ};
ghost use Rattle.read.specs.Reading.{whole_text, less_braces};
ghost use Rattle.hannuvel.specs.Packed.{ReadingCall, DrawingCall, ClipCall};
ghost use Rattle.hannuvel.specs.Instant.{EvaluatingCall, MarkingCall};
ghost use Rattle.hannuvel.specs.InForce.{style_at as style_in, StyleCall};
ghost use Rattle.hannuvel.specs.Karaoke.{SpansCall, span_given, ProgressCall};
ghost use Rattle.hannuvel.specs.Inner.{refusal_word as refusal_number, answer_word, no_word, count_word, clip_word, mark_word, progress_word, style_word};

use clips::Clip;
use refusal::Refusal;
use style::Place;

// What a call says of a value in its number: the extra and the value, where no ground stands.
trait Value {
    ghost word: { Self → ℕ };

    fn word(self) -> u64
        ensures { result ≡ word self };
}

impl Value for () {
    ghost word = { no_word };

    fn word(self) -> u64 {
        0
    }
}

// How many records, commands or spans were written.
impl Value for usize {
    ghost word = { count_word };

    fn word(self) -> u64 {
        (self % 4294967296) as u64
    }
}

impl Value for Clip {
    ghost word = { clip_word };

    fn word(self) -> u64 {
        (self.from % 65536) as u64 * 4294967296 + u64::from(self.scale)
    }
}

// The next mark.
impl Value for Option<i32> {
    ghost word = { mark_word };

    fn word(self) -> u64 {
        match self {
            None => 4294967296,
            Some(mark) => u64::from(float::to_word(mark)),
        }
    }
}

// The progress of a span.
impl Value for f32 {
    ghost word = { progress_word };

    fn word(self) -> u64 {
        u64::from(float::word_of_f32(self))
    }
}

impl Value for Place {
    ghost word = { style_word };

    fn word(self) -> u64 {
        let size = self.to.saturating_sub(self.from);
        let value = ((self.from % 65536) * 65536 + size % 65536) as u64;
        u64::from(self.of_block) * 4294967296 + value
    }
}

fn refusal_word(r: Refusal) -> u64
    ensures { result ≡ refusal_number r }
{
    let ground = u64::from(r.number());
    let place = (r.place() % 4294967296) as u64;
    ground * 281474976710656 + place
}

// The number of an answer.
fn packed<T: Value>(answer: Result<T, Refusal>) -> u64
    ensures { result ≡ answer_word T.word answer }
{
    match answer {
        Ok(value) => value.word(),
        Err(r) => refusal_word(r),
    }
}

// Reads a block into a table; braces are ordinary bytes. The value is the number of records written.
pub fn hannuvel_parse_overrides(text: &[u8], table: &mut [u32]) -> u64
    ensures { ReadingCall text.now (whole_text text.now) table.old result table.new }
{
    packed(read::parse_overrides(text, table))
}

// The same for the text trimmed, less one { and one }; offsets count from the text given.
pub fn hannuvel_parse_raw_block(text: &[u8], table: &mut [u32]) -> u64
    ensures { ReadingCall text.now (less_braces text.now) table.old result table.new }
{
    packed(read::parse_raw_block(text, table))
}

// The path of a drawing at a scale exponent. The value is the number of commands written.
pub fn hannuvel_parse_drawing(text: &[u8], exponent: u32, path: &mut [u32]) -> u64
    ensures { DrawingCall text.now exponent path.old result path.new }
{
    packed(drawing::parse_drawing(text, exponent, path))
}

// A clip argument. The value is the scale, the extra the offset at which the rest of the argument begins.
pub fn hannuvel_split_clip_arg(text: &[u8]) -> u64
    ensures { ClipCall text.now result }
{
    packed(clips::clip_at(text))
}

// The state at t of the tags that a table stands for, in a line of that duration, as its 92 words.
pub fn hannuvel_evaluate_at(table: &[u32], t: i32, duration: i32, state: &mut [u32; 92]) -> u64
    ensures { EvaluatingCall table.now t duration state.old result state.new }
{
    packed(evaluate::write_at(table, t, duration, state))
}

// The earliest mark after t of the tags that a table stands for, in a line of that duration. The value is the mark in two's complement, the extra 1 where there is none.
pub fn hannuvel_next_mark(table: &[u32], t: i32, duration: i32) -> u64
    ensures { MarkingCall table.now t duration result }
{
    packed(marks::next_mark(table, t, duration))
}

// The karaoke spans of the tags that a table stands for, three words a span: kind, start, end. The value is the number of spans written.
pub fn hannuvel_karaoke_spans(table: &[u32], spans: &mut [u32]) -> u64
    ensures { SpansCall table.now spans.old result spans.new }
{
    packed(karaoke::write_spans(table, spans))
}

fn span_from(start: u32, end: u32) -> karaoke::KaraokeSpan
    ensures { result ≡ span_given start end }
{
    karaoke::KaraokeSpan {
        kind: tag::KaraokeKind::Fill,
        start_ms: karaoke::Ms(start),
        end_ms: karaoke::Ms(end),
    }
}

// How far the instant t is in a span from start to end. The value is the f32's bits.
pub fn hannuvel_progress(start: u32, end: u32, t: i32) -> u64
    ensures { ProgressCall start end t result }
{
    packed(karaoke::progress(span_from(start, end), t))
}

// The style in force by places, grounds by number.
fn style_at<'a>(
    table: &[u32],
    t: i32,
    duration: i32,
    block: &'a [u8],
    own: &'a [u8],
) -> Result<Place, Refusal>
    ensures { result ≡ style_in table.now t duration block.now own.now }
{
    style::check_texts(block, own).and(table::check_call(table, t, duration))?;
    style::named_reset(reset::reset_left(table, t, duration), block, own)
}

// The style in force at t: the name that \r gave, a part of the block, or the line's own. The value is the part's offset and length, the extra 1 for a part of the block.
pub fn hannuvel_style_in_force<'a>(
    table: &[u32],
    t: i32,
    duration: i32,
    block: &'a [u8],
    own: &'a [u8],
) -> u64
    ensures { StyleCall table.now t duration block.now own.now result }
{
    packed(style_at(table, t, duration, block, own))
}
