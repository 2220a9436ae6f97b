// Whether a given table is well formed, and grounds 5 and 6.
#![tactic(auto)]

ghost use Rattle.std.specs.Prelude.{◌≡◌, ◌+◌, ◌-◌, ◌*◌, ◌<◌, eqb};
ghost use Rattle.scan.specs.Scan.{both, within as within_of};
ghost use Rattle.tag.specs.Range.{unused, float, range, time, weight, free, time_word, part_fits, times_fit, word_fits, in_range};
ghost use Rattle.refusal.specs.Answer.{first_ground};
ghost use Rattle.tag.specs.WellFormed.{fault as fault_of, excess as excess_of, table_ground};
ghost use Rattle.table.specs.Inner.{record_in, part, Inside, words_fit, one_fits, two_fit, flag_times, font_parts, style_part, stands as stands_of, t_stands, fault_of_t};
ghost use Rattle.table.specs.Ground.{in_time, time_ground, call_ground};

use refusal::Refusal;
use tag::Record;

// The record with the index `at`.
pub fn record_at(table: &[u32], at: usize) -> Record
    requires { Inside table.now at 1 }
    ensures { result ≡ record_in table.now at }
{
    let i = at * 8;
    Record {
        kind: table[i],
        w1: table[i + 1],
        w2: table[i + 2],
        w3: table[i + 3],
        w4: table[i + 4],
        w5: table[i + 5],
        w6: table[i + 6],
        w7: table[i + 7],
    }
}

// ---- one word

fn is_byte(w: u32) -> bool
    ensures { result ≡ word_fits (range 0 255) w }
{
    w <= 255
}

fn is_time(w: u32) -> bool
    ensures { result ≡ time_word w }
{
    w <= 1000000000 || w >= 3294967296
}

// Whether a word is that of a float in range: without the sign, at most the bits of 1,000,000,000.
fn is_float(w: u32) -> bool
    ensures { result ≡ word_fits float w }
{
    w % 2147483648 <= 1315859240
}

// Whether a flag says that there are times and they are in range, or that there are none and they are 0.
fn times_fit(flag: u32, t1: u32, t2: u32) -> bool
    ensures { result ≡ flag_times flag t1 t2 }
{
    match flag {
        0 => t1 == 0 && t2 == 0,
        1 => is_time(t1) && is_time(t2),
        _ => false,
    }
}

// Whether a part of a text ends within 12,288 bytes; an empty one lies at 0.
fn part_fits(offset: u32, size: u32) -> bool
    ensures { result ≡ part_fits offset size }
{
    if size == 0 {
        offset == 0
    } else {
        offset as u64 + size as u64 <= 12288
    }
}

// ---- the words of a record, by what its kind asks of them: in a line each, where a trait of ranges would take more

fn unused_from_5(r: Record) -> bool
    ensures { result ≡ both (eqb r.w5 0) (both (eqb r.w6 0) (eqb r.w7 0)) }
{
    (r.w5 == 0) & (r.w6 == 0) & (r.w7 == 0)
}

fn unused_from_3(r: Record) -> bool
    ensures { result ≡ both (eqb r.w3 0) (both (eqb r.w4 0) (both (eqb r.w5 0) (both (eqb r.w6 0) (eqb r.w7 0)))) }
{
    (r.w3 == 0) & (r.w4 == 0) & unused_from_5(r)
}

pub fn float_fits(r: Record) -> bool
    ensures { result ≡ one_fits float r }
{
    is_float(r.w1) & (r.w2 == 0) & unused_from_3(r)
}

pub fn number_fits(r: Record, low: u32, high: u32) -> bool
    ensures { result ≡ one_fits (range low high) r }
{
    (low..=high).contains(&r.w1) & (r.w2 == 0) & unused_from_3(r)
}

pub fn pair_fits(r: Record) -> bool
    ensures { result ≡ two_fit float float r }
{
    is_float(r.w1) & is_float(r.w2) & unused_from_3(r)
}

pub fn numbers_fit(r: Record, high1: u32, high2: u32) -> bool
    ensures { result ≡ two_fit (range 0 high1) (range 0 high2) r }
{
    (r.w1 <= high1) & (r.w2 <= high2) & unused_from_3(r)
}

pub fn colour_fits(r: Record) -> bool
    ensures { result ≡ words_fit (range 0 255) (range 0 255) (range 0 255) unused unused unused unused r }
{
    is_byte(r.w1) & is_byte(r.w2) & is_byte(r.w3) & (r.w4 == 0) & unused_from_5(r)
}

pub fn rect_fits(r: Record) -> bool
    ensures { result ≡ words_fit float float float float unused unused unused r }
{
    // For the compiler (MEASURED, Shapes for the compiler): a corner at a time, where four at once would be put into a vector and taken out again.
    if !(is_float(r.w1) & is_float(r.w2)) {
        return false;
    }
    is_float(r.w3) & is_float(r.w4) & unused_from_5(r)
}

pub fn fade_fits(r: Record) -> bool
    ensures { result ≡ words_fit (range 0 255) (range 0 255) (range 0 255) time time time time r }
{
    is_byte(r.w1)
        && is_byte(r.w2)
        && is_byte(r.w3)
        && is_time(r.w4)
        && is_time(r.w5)
        && is_time(r.w6)
        && is_time(r.w7)
}

pub fn move_fits(r: Record) -> bool
    ensures { result ≡ both (words_fit float float float float (range 0 1) time time r) (times_fit r.w5 r.w6 r.w7) }
{
    // For the compiler: a place at a time, as in `rect_fits`.
    if !(is_float(r.w1) & is_float(r.w2)) {
        return false;
    }
    is_float(r.w3) & is_float(r.w4) && times_fit(r.w5, r.w6, r.w7)
}

pub fn drawing_fits(r: Record) -> bool
    ensures { result ≡ both (two_fit free free r) (part_fits r.w1 r.w2) }
{
    unused_from_3(r) && part_fits(r.w1, r.w2)
}

pub fn font_fits(r: Record) -> bool
    ensures { result ≡ both (words_fit free free free free unused unused unused r) (font_parts r) }
{
    unused_from_5(r) && part_fits(r.w1, r.w2) && part_fits(r.w3, r.w4) && (r.w2 > 0 || r.w4 > 0)
}

pub fn weight_fits(r: Record) -> bool
    ensures { result ≡ one_fits weight r }
{
    (r.w1 == 0 || (100..=900).contains(&r.w1)) & (r.w2 == 0) & unused_from_3(r)
}

pub fn shift_fits(r: Record) -> bool
    ensures { result ≡ one_fits time r }
{
    is_time(r.w1) & (r.w2 == 0) & unused_from_3(r)
}

// No name, or one that is not empty.
fn style_part(flag: u32, offset: u32, size: u32) -> bool
    ensures { result ≡ style_part flag offset size }
{
    if flag == 0 {
        offset == 0 && size == 0
    } else {
        size > 0 && part_fits(offset, size)
    }
}

pub fn reset_fits(r: Record) -> bool
    ensures { result ≡ both (words_fit (range 0 1) free free unused unused unused unused r) (style_part r.w1 r.w2 r.w3) }
{
    r.w1 <= 1 && r.w4 == 0 && unused_from_5(r) && style_part(r.w1, r.w2, r.w3)
}

fn t_fits(r: Record) -> bool
    ensures { result ≡ both (words_fit (range 0 1) time time float free unused unused r) (times_fit r.w1 r.w2 r.w3) }
{
    is_float(r.w4) && r.w6 == 0 && r.w7 == 0 && times_fit(r.w1, r.w2, r.w3)
}

// Whether a T is not at fault itself, with `left` records behind it and `deep` more levels of T allowed.
#[tactic(auto, unfolding(tag::specs::Range::in_range, tag::specs::Range::rows))]
pub fn t_stands(r: Record, left: usize, deep: usize) -> bool
    ensures { result ≡ t_stands left deep r }
{
    t_fits(r) && 0 < deep && r.w5 as usize <= left
}

// Whether every word of a record is in the range of its kind.
fn in_range(r: Record) -> bool
    ensures { result ≡ in_range r }
{
    match r.kind {
        5 | 6 | 7 | 8 | 10 | 13 | 14 | 16 | 17 | 18 | 19 | 20 | 21 | 23 | 24 | 35 => float_fits(r),
        9 | 27 | 28 | 29 => colour_fits(r),
        22 | 30 | 31 | 32 | 33 | 34 | 38 | 40 | 48 => number_fits(r, 0, 255),
        49 => t_fits(r),
        3 | 15 => pair_fits(r),
        4 => move_fits(r),
        1 => numbers_fit(r, 2147483647, 2147483647),
        2 => fade_fits(r),
        11 | 25 => rect_fits(r),
        12 | 26 => drawing_fits(r),
        36 => number_fits(r, 0, 3),
        37 => number_fits(r, 1, 9),
        39 => font_fits(r),
        41 => reset_fits(r),
        42 => weight_fits(r),
        43 | 44 | 45 => number_fits(r, 0, 1),
        46 => numbers_fit(r, 2, 1000000000),
        47 => shift_fits(r),
        _ => false,
    }
}

// ---- the table

// Whether a record is not at fault itself, with `left` records behind it and `deep` more levels of T allowed.
fn stands(r: Record, left: usize, deep: usize) -> bool
    ensures { result ≡ stands_of left deep r }
{
    in_range(r) && (r.kind != 49 || 0 < deep && r.w5 as usize <= left)
}

// The first at fault of `count` records from `from` on, with `deep` more levels of T allowed: those inside a T, then those behind it.
fn fault(table: &[u32], from: usize, count: usize, deep: usize) -> Result<(), Refusal>
    requires { Inside table.now from count }
    ensures { result ≡ fault_of deep from (part table.now from count) }
{
    let mut at = from;
    let mut left = count;
    // No `for`: behind a T the place goes on past what is inside it.
    while 0 < left {
        let r = record_at(table, at);
        if !stands(r, left - 1, deep) {
            return Err(Refusal::TableMalformed(at));
        }
        at += 1;
        left -= 1;
        if r.kind == 49 {
            let n = r.w5 as usize;
            fault(table, at, n, deep - 1)?;
            at += n;
            left -= n;
        }
    }
    Ok(())
}

// A T at the index `at` that is in no other, with `left` records from there on: itself at fault, or the first at fault inside it.
#[tactic(auto, unfolding(crate::specs::Inner::fault_of_t, tag::specs::Range::in_range, tag::specs::Range::rows))]
pub fn t_fault(table: &[u32], at: usize, left: usize, r: Record) -> Result<(), Refusal>
    requires { (0 < left) × Inside table.now at left }
    ensures { result ≡ fault_of_t table.now at (left - 1) r }
{
    let n = r.w5 as usize;
    if t_fits(r) && n < left {
        fault(table, at + 1, n, 15)
    } else {
        Err(Refusal::TableMalformed(at))
    }
}

// The excess over 1,024 records, or a broken one behind the whole ones.
pub fn excess(table: &[u32]) -> Result<(), Refusal>
    ensures { result ≡ excess_of table.now }
{
    let places = table.len() / 8;
    if places > 1024 {
        Err(Refusal::TableMalformed(1024))
    } else if table.len() % 8 == 0 {
        Ok(())
    } else {
        Err(Refusal::TableMalformed(places))
    }
}

// ---- the grounds

// Ground 5.
pub fn check_table(table: &[u32]) -> Result<(), Refusal>
    ensures { result ≡ table_ground table.now }
{
    fault(table, 0, (table.len() / 8).min(1024), 16)?;
    excess(table)
}

fn in_time(z: i32) -> bool
    ensures { result ≡ in_time z }
{
    (-1000000000..=1000000000).contains(&z)
}

// Ground 6.
#[tactic(auto, unfolding(crate::specs::Ground::time_ground))]
pub fn check_times(t: i32, dur: i32) -> Result<(), Refusal>
    ensures { result ≡ time_ground t dur }
{
    if in_time(t) && in_time(dur) {
        Ok(())
    } else {
        Err(Refusal::TimeOutOfRange)
    }
}

// What is left of grounds 5 and 6 where no record is at fault.
pub fn after_records(table: &[u32], t: i32, dur: i32) -> Result<(), Refusal>
    ensures { result ≡ first_ground (excess_of table.now) (time_ground t dur) }
{
    excess(table).and(check_times(t, dur))
}

// Grounds 5 and 6.
#[tactic(auto, unfolding(crate::specs::Ground::call_ground_to))]
pub fn check_call(table: &[u32], t: i32, dur: i32) -> Result<(), Refusal>
    ensures { result ≡ call_ground table.now t dur }
{
    check_table(table).and(check_times(t, dur))
}
