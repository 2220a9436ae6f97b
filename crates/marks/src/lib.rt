// The marks of a block: the milliseconds at which the picture may move.
#![tactic(auto)]

ghost use Rattle.std.specs.Prelude.{◌≡◌, pos, ◌<ℤ◌};
ghost use Rattle.tag.specs.Tag.{Fad};
ghost use Rattle.tag.specs.Decode.{times_of, z, decode_one, tags_of};
ghost use Rattle.marks.specs.Marks.{ramp, way, stage, own_marks, after_in, least as least_of, first_after, next_mark};
ghost use Rattle.marks.specs.Inner.{most, stretch};
ghost use Rattle.marks.specs.Answer.{marked, MarkStands, Exact};
ghost use Rattle.table.specs.Ground.{Fine};

use refusal::Refusal;
use tag::Record;

// The earlier of the two.
fn least(m: Option<i32>, n: Option<i32>) -> Option<i32>
    ensures { result ≡ least_of m n }
{
    match (m, n) {
        (Some(a), Some(b)) => Some(a.min(b)),
        _ => m.or(n),
    }
}

// ---- the next mark after t

// On a ramp from a to b.
fn after_ramp(t: i32, a: i32, b: i32) -> Option<i32>
    ensures { result ≡ after_in t (ramp a b) }
{
    let last = t.max(a);
    if last < b { Some(last + 1) } else { None }
}

// On a ramp from a to b, or at one mark where b does not come after a.
fn after_stretch(t: i32, a: i32, b: i32, one: i32) -> Option<i32>
    ensures { result ≡ after_in t (stretch a b one) }
{
    if a < b {
        after_ramp(t, a, b)
    } else {
        (t < one).then_some(one)
    }
}

// Of \move and \t.
fn after_way(t: i32, dur: i32, flag: u32, start: u32, end: u32) -> Option<i32>
    ensures { result ≡ after_in t (way (times_of flag start end) dur) }
{
    if flag == 0 {
        after_stretch(t, 0, dur, dur)
    } else {
        let b = float::of_word(end);
        after_stretch(t, float::of_word(start), b, b)
    }
}

// Of \fade.
fn after_fade(t: i32, t1: u32, t2: u32, t3: u32, t4: u32) -> Option<i32>
    ensures { result ≡ least_of (after_in t (stage (z t1) (z t2))) (after_in t (stage (z t3) (z t4))) }
{
    let a = float::of_word(t1);
    let b = float::of_word(t3);
    let first = after_stretch(t, a, float::of_word(t2), a);
    least(first, after_stretch(t, b, float::of_word(t4), b))
}

// Of \fad.
fn after_fad(t: i32, dur: i32, t1: u32, t2: u32) -> Option<i32>
    requires { t <ℤ pos most }
    ensures { result ≡ first_after t (own_marks dur (Fad t1 t2)) }
{
    let d = dur.max(0);
    let lasts = d as u32;
    let rise = after_ramp(t, 0, t1.min(2147483647) as i32);
    let fall = after_ramp(t, lasts.saturating_sub(t2) as i32, d);
    let next = least(rise, fall);
    if lasts < t2 {
        // the marks 0 and 1
        least(next, after_ramp(t, -1, 1))
    } else {
        next
    }
}

// Of a record's own.
fn after_own(r: Record, t: i32, dur: i32) -> Option<i32>
    requires { t <ℤ pos most }
    ensures { result ≡ first_after t (own_marks dur (decode_one r)) }
{
    match r.kind {
        1 => after_fad(t, dur, r.w1, r.w2),
        2 => after_fade(t, r.w4, r.w5, r.w6, r.w7),
        4 => after_way(t, dur, r.w5, r.w6, r.w7),
        49 => after_way(t, dur, r.w1, r.w2, r.w3),
        _ => None,
    }
}

// The next mark after t of the tags that a table stands for, at every depth, in a line of dur milliseconds.
fn next_after(table: &[u32], t: i32, dur: i32) -> Option<i32>
    requires { t <ℤ pos most }
    ensures { result ≡ next_mark t dur (tags_of table.now) }
{
    let mut next = None;
    for at in 0..table.len() / 8 {
        next = least(next, after_own(table::record_at(table, at), t, dur));
    }
    next
}

// 01, Marks: the earliest mark after t of the tags that the table stands for, in a line of dur milliseconds.
pub fn next_mark(table: &[u32], t: i32, dur: i32) -> Result<Option<i32>, Refusal>
    ensures value { result ≡ marked table.now t dur }
    ensures mark_stands { MarkStands table.now t dur result }
    ensures exact { Fine table.now t dur → Exact table.now t dur result }
{
    table::check_call(table, t, dur)?;
    Ok(next_after(table, t, dur))
}
