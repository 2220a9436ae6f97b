// Karaoke: the spans that the karaoke tags of a table make, and how far an instant is in one.
#![tactic(auto)]

ghost use Rattle.std.specs.Prelude.{◌≡◌, [], ◌∷◌, ◌++◌, ◌+◌, ◌≤◌, ◌<◌, length, take, drop};
ghost use Rattle.std.specs.Iterator.{YieldsFirst, item_count};
ghost use Rattle.float.specs.Float.{InUnit};
ghost use Rattle.tag.specs.Decode.{beat_of};
ghost use Rattle.tag.specs.Range.{in_range};
ghost use Rattle.table.specs.Inner.{Inside};
ghost use Rattle.karaoke.specs.Karaoke.{in_ms, plus};
ghost use Rattle.karaoke.specs.Answer.{answer as answer_of, laid_spans, Answered, AnsweredWords};
ghost use Rattle.karaoke.specs.Progress.{progress_in, progressed, whole, progress_of, ProgressStands};
ghost use Rattle.karaoke.specs.Left.{spans_left};
ghost use Rattle.karaoke.specs.Inner.{beats_from, Found, all_spans, Plain, Run, counted};

mod walk;

use refusal::Refusal;
use tag::{Cs, KaraokeKind, Record};
use walk::Walk;

// Milliseconds, in which spans count: never taken for centiseconds.
#[derive(Clone, Copy, Drop)]
pub struct Ms(pub u32);

// At most the greatest.
impl From<Cs> for Ms {
    ghost from_gives = { λ c m. m ≡ in_ms c };

    fn from(c: Cs) -> Ms {
        Ms(c.0.saturating_mul(10))
    }
}

impl Ms {
    // The sum, at most the greatest.
    fn saturating_add(self, other: Ms) -> Ms
        ensures { result ≡ plus self other }
    {
        Ms(self.0.saturating_add(other.0))
    }
}

// One syllable's time in a line.
#[derive(Clone, Copy, Drop)]
pub struct KaraokeSpan {
    pub kind: KaraokeKind,
    pub start_ms: Ms,
    pub end_ms: Ms,
}

// ---- the walk over the spans of a table

impl<'a> Walk<'a> {
    // All spans of a table that has so many.
    fn of(table: &'a [u32], left: usize) -> Walk<'a>
        requires { left ≡ length (beats_from table.now 0) }
        ensures { spans_left result ≡ all_spans table.now }
    {
        Walk {
            table,
            at: 0,
            left,
            start_ms: Ms(0),
        }
    }
}

impl<'a> Iterator for Walk<'a> {
    type Item = KaraokeSpan;

    ghost next_gives = { YieldsFirst spans_left };

    ghost remaining = { item_count spans_left };

    fn next(&mut self) -> Option<KaraokeSpan> {
        if self.left == 0 {
            return None;
        }
        let at = next_beat(self.table, self.at);
        let r = table::record_at(self.table, at);
        let start_ms = self.start_ms;
        let end_ms = start_ms.saturating_add(Ms::from(Cs(r.w2)));
        *self = Walk {
            table: self.table,
            at: at + 1,
            left: self.left - 1,
            start_ms: end_ms,
        };
        Some(KaraokeSpan {
            kind: kind_of(r.w1),
            start_ms,
            end_ms,
        })
    }
}

fn kind_of(w: u32) -> KaraokeKind
    ensures { result ≡ beat_of w }
{
    match w {
        0 => KaraokeKind::Fill,
        1 => KaraokeKind::Sweep,
        _ => KaraokeKind::Outline,
    }
}

// The first karaoke record from `from` on that is in no T. A T is passed over with all that is inside it.
fn next_beat(table: &[u32], from: usize) -> usize
    requires { 0 < length (beats_from table.now from) }
    ensures { Found table.now from result }
{
    let mut at = from;
    loop {
        let r = table::record_at(table, at);
        match r.kind {
            46 => return at,
            49 => at += 1 + r.w5 as usize,
            _ => at += 1,
        }
    }
}

// ---- ground 5, and how many spans there are

// Whether a record that is neither a karaoke record nor a T is in range.
// For the compiler (MEASURED, Shapes for the compiler): the arms of `table::in_range` again, as one that two loops ask is put into neither.
fn fits(r: Record) -> bool
    requires { Plain r.kind }
    ensures { result ≡ in_range r }
{
    match r.kind {
        5 | 6 | 7 | 8 | 10 | 13 | 14 | 16 | 17 | 18 | 19 | 20 | 21 | 23 | 24 | 35 => {
            table::float_fits(r)
        }
        9 | 27 | 28 | 29 => table::colour_fits(r),
        22 | 30 | 31 | 32 | 33 | 34 | 38 | 40 | 48 => table::number_fits(r, 0, 255),
        3 | 15 => table::pair_fits(r),
        4 => table::move_fits(r),
        1 => table::numbers_fit(r, 2147483647, 2147483647),
        2 => table::fade_fits(r),
        11 | 25 => table::rect_fits(r),
        12 | 26 => table::drawing_fits(r),
        36 => table::number_fits(r, 0, 3),
        37 => table::number_fits(r, 1, 9),
        39 => table::font_fits(r),
        41 => table::reset_fits(r),
        42 => table::weight_fits(r),
        43 | 44 | 45 => table::number_fits(r, 0, 1),
        47 => table::shift_fits(r),
        _ => false,
    }
}

// Behind the karaoke records in range that follow one another from `from` on, up to `end`.
// For the compiler (MEASURED, Shapes for the compiler): a loop of its own for karaoke records that follow one another.
fn past_beats(table: &[u32], from: usize, end: usize) -> usize
    requires { (from ≤ end) × Inside table.now 0 end }
    ensures { Run table.now end from result }
{
    for at in from..end {
        let r = table::record_at(table, at);
        if r.kind != 46 || !table::numbers_fit(r, 2, 1000000000) {
            return at;
        }
    }
    end
}

// Ground 5, or how many spans there are: each record is checked and counted in one pass, a T with all that is inside it.
fn count_spans(table: &[u32]) -> Result<usize, Refusal>
    ensures { result ≡ counted table.now }
{
    let end = (table.len() / 8).min(1024);
    let mut n = 0;
    let mut at = 0;
    while at < end {
        let r = table::record_at(table, at);
        match r.kind {
            46 => {
                let next = past_beats(table, at, end);
                if next == at {
                    return Err(Refusal::TableMalformed(at));
                }
                n += next - at;
                at = next;
            }
            49 => {
                table::t_fault(table, at, end - at, r)?;
                at += 1 + r.w5 as usize;
            }
            _ => {
                if !fits(r) {
                    return Err(Refusal::TableMalformed(at));
                }
                at += 1;
            }
        }
    }
    table::excess(table)?;
    Ok(n)
}

// ---- the calls

// Grounds 5 and 9, or how many spans there are, where so many places are lent.
fn check_spans(table: &[u32], places: usize) -> Result<usize, Refusal>
    ensures { result ≡ answer_of table.now places }
{
    let n = count_spans(table)?;
    if n <= places.min(1024) {
        Ok(n)
    } else {
        Err(Refusal::NoRoom(n))
    }
}

// Writes a span's three words from the word `k` on.
fn put_span(words: &mut [u32], k: usize, s: KaraokeSpan)
    requires { k + 3 ≤ length words.old }
    ensures { words.new ≡ take k words.old ++ laid_spans (drop k words.old) (s ∷ []) }
{
    words[k] = u32::from(s.kind);
    words[k + 1] = s.start_ms.0;
    words[k + 2] = s.end_ms.0;
}

// 01, Karaoke, for the C interface: the spans of the tags that the table stands for, three words each, into the lent words.
pub fn write_spans(table: &[u32], words: &mut [u32]) -> Result<usize, Refusal>
    ensures { AnsweredWords table.now words.old result words.new }
{
    let n = check_spans(table, words.len() / 3)?;
    for (i, span) in Walk::of(table, n).enumerate() {
        put_span(words, 3 * i, span);
    }
    Ok(n)
}

// 01, Karaoke: the spans of the tags that the table stands for, into the lent list.
pub fn karaoke_spans(table: &[u32], list: &mut [KaraokeSpan]) -> Result<usize, Refusal>
    ensures { Answered table.now list.old result list.new }
{
    let n = check_spans(table, list.len())?;
    for (i, span) in Walk::of(table, n).enumerate() {
        list[i] = span;
    }
    Ok(n)
}

// ---- progress

// How much of a span from start to end lies behind t. The numbers are compared as whole numbers, and both differences are rounded before
// they are divided.
fn progress_in(start: Ms, end: Ms, t: i32) -> f32
    ensures { result ≡ progress_in (whole start) (whole end) t }
{
    let now = t.max(0) as u32;
    if now <= start.0 {
        0.0
    } else if end.0 <= now {
        1.0
    } else {
        ramp::quotient(now - start.0, end.0 - start.0)
    }
}

// 01, Karaoke: how far an instant is in a span.
pub fn progress(span: KaraokeSpan, t: i32) -> Result<f32, Refusal>
    ensures value { result ≡ progressed span t }
    ensures progress_stands { ProgressStands span t result }
    ensures in_unit { InUnit (progress_of result) }
{
    table::check_times(t, t)?;
    Ok(progress_in(span.start_ms, span.end_ms, t))
}
