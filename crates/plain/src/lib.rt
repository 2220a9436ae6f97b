// One tag of a block, \t apart: its name, its parameter, its record.
#![tactic(auto)]

ghost use Rattle.std.specs.Prelude.{◌≡◌, ◌+◌, ◌-◌, ◌^◌, ◌≤◌, ◌<◌, length};
ghost use Rattle.plain.specs.Names.{key_of, lowered, key_at, lookup, names};
ghost use Rattle.plain.specs.Plain.{is_fn, is_named_reset, part, plain_at};
ghost use Rattle.plain.specs.Inner.{code_of, KeepsWord, kept_record, cut_word, long_or, pair_tag, move_tag, not_below_zero_word, byte_word, far_word, fad_tag, fade_tag, ranged_tag, weight_tag, flag_tag, clip_tag, reset_tag, fn_tag, part_words, shaped_tag, kept_of};

use lists::Numbers;
use numeral::Numeral;
use tag::{KaraokeKind, Record};

// What a tag's parameter is, with the kind of the record that it makes: a number, as the C interface has it (docs/SCOPE.md).
#[derive(Clone, Copy, Drop)]
pub enum Shape {
    Float(u32),
    Pair(u32),
    Ranged(u32, u32, u32),
    Flag(u32),
    Alpha(u32),
    Colour(u32),
    Clip(u32, u32),
    Beat(KaraokeKind),
    Fad,
    Fade,
    Move,
    Edge,
    Baseline,
    Weight,
    Reset,
    Unknown,
}

// What a tag gives: nothing, a numeral that is too long with its place, a record, or that of a \fade whose times lie too far off.
#[derive(Clone, Copy, Drop)]
pub enum Kept {
    No,
    Long(usize),
    Tag(Record),
    Far(Record),
}

impl From<Option<Record>> for Kept {
    ghost from_gives = { λ r k. k ≡ kept_record r };

    fn from(r: Option<Record>) -> Kept {
        match r {
            Some(r) => Kept::Tag(r),
            None => Kept::No,
        }
    }
}

// The shape of the tag with a name, which is given by its bytes as digits to the base 256.
#[tactic(auto, using(crate::proofs::Keys::missed), unfolding(crate::specs::Names::names, crate::specs::Names::lookup, crate::specs::Inner::code_of, tag::specs::Table::records))]
fn shape_of(key: u64) -> Shape
    ensures { result ≡ code_of (lookup key names) }
{
    match key {
        0x666164 => Shape::Fad, // fad
        0x66616465 => Shape::Fade, // fade
        0x6D6F7665 => Shape::Move, // move
        0x66727A => Shape::Float(5), // frz
        0x6672 => Shape::Float(5), // fr
        0x667278 => Shape::Float(13), // frx
        0x667279 => Shape::Float(14), // fry
        0x706F73 => Shape::Pair(3), // pos
        0x6F7267 => Shape::Pair(15), // org
        0x626C7572 => Shape::Float(6), // blur
        0x6265 => Shape::Edge, // be
        0x626F7264 => Shape::Float(16), // bord
        0x78626F7264 => Shape::Float(17), // xbord
        0x79626F7264 => Shape::Float(18), // ybord
        0x73686164 => Shape::Float(19), // shad
        0x7873686164 => Shape::Float(20), // xshad
        0x7973686164 => Shape::Float(21), // yshad
        0x70626F => Shape::Baseline, // pbo
        0x70 => Shape::Ranged(48, 0, 255), // p
        0x666178 => Shape::Float(23), // fax
        0x666179 => Shape::Float(24), // fay
        0x66736378 => Shape::Float(7), // fscx
        0x66736379 => Shape::Float(8), // fscy
        0x6673 => Shape::Float(10), // fs
        0x667370 => Shape::Float(35), // fsp
        0x71 => Shape::Ranged(36, 0, 3), // q
        0x616E => Shape::Ranged(37, 1, 9), // an
        0x61 => Shape::Ranged(38, 0, 255), // a
        0x6B => Shape::Beat(KaraokeKind::Fill), // k
        0x4B => Shape::Beat(KaraokeKind::Sweep), // K
        0x6B66 => Shape::Beat(KaraokeKind::Sweep), // kf
        0x6B6F => Shape::Beat(KaraokeKind::Outline), // ko
        0x63 => Shape::Colour(9), // c
        0x3163 => Shape::Colour(9), // 1c
        0x3263 => Shape::Colour(27), // 2c
        0x3363 => Shape::Colour(28), // 3c
        0x3463 => Shape::Colour(29), // 4c
        0x616C706861 => Shape::Alpha(30), // alpha
        0x3161 => Shape::Alpha(31), // 1a
        0x3261 => Shape::Alpha(32), // 2a
        0x3361 => Shape::Alpha(33), // 3a
        0x3461 => Shape::Alpha(34), // 4a
        0x636C6970 => Shape::Clip(11, 12), // clip
        0x69636C6970 => Shape::Clip(25, 26), // iclip
        0x6665 => Shape::Ranged(40, 0, 255), // fe
        0x62 => Shape::Weight, // b
        0x69 => Shape::Flag(43), // i
        0x75 => Shape::Flag(44), // u
        0x73 => Shape::Flag(45), // s
        0x72 => Shape::Reset, // r
        _ => Shape::Unknown,
    }
}

// The bytes between two places in lower case, as digits to the base 256.
fn key_of(text: &[u8], from: usize, to: usize) -> u64
    requires { (from ≤ to) × (to ≤ from + 5) × (to ≤ length text.now) }
    ensures { result ≡ key_of (lowered text.now (to - from) from) }
{
    let mut key = 0;
    for i in from..to {
        key = key * 256 + u64::from(scan::lower(text[i]));
    }
    key
}

// The name between two places.
#[tactic(auto, unfolding(crate::specs::Names::key_at))]
pub fn key_at(text: &[u8], i: usize, m: usize) -> u64
    requires { (i ≤ m) × (m ≤ length text.now) }
    ensures { result ≡ key_at text.now i m }
{
    if m - i > 5 {
        return 0;
    }
    if m - i == 1 && text[i] == b'K' {
        return 0x4B;
    }
    key_of(text, i, m)
}

// The tag of one number, whose word makes its record.
fn keep_word<F: FnOnce(u32) -> Record>(n: Numeral, make: F) -> Kept
    requires { F.IsAlwaysCallable make }
    ensures { KeepsWord (F.post make) n result }
{
    match n {
        Numeral::Word(w) => Kept::Tag(make(w)),
        Numeral::TooLong(p) => Kept::Long(p),
        Numeral::No => Kept::No,
    }
}

// A time: cut toward zero.
pub fn time_of(w: u32) -> u32
    ensures { result ≡ cut_word w }
{
    float::to_word(float::cut(float::f32_of_word(w)))
}

// A numeral that is too long comes before what its list makes.
fn long_or(l: Option<usize>, k: Kept) -> Kept
    ensures { result ≡ long_or l k }
{
    l.map_or(k, Kept::Long)
}

#[tactic(auto, unfolding(crate::specs::Inner::pair_tag))]
fn pair_of(kind: u32, n: Numbers) -> Option<Record>
    ensures { kept_record result ≡ pair_tag kind n.all n.count n.words }
{
    if n.all && n.count == 2 {
        return Some(Record::of(kind, [n.words[0], n.words[1]]));
    }
    None
}

#[tactic(auto, unfolding(crate::specs::Inner::move_tag))]
fn move_of(n: Numbers) -> Option<Record>
    ensures { kept_record result ≡ move_tag n.all n.count n.words }
{
    let [x1, y1, x2, y2, t1, t2, _] = n.words;
    match (n.all, n.count) {
        (true, 4) => Some(Record::of(4, [x1, y1, x2, y2])),
        (true, 6) => Some(Record::of(4, [x1, y1, x2, y2, 1, time_of(t1), time_of(t2)])),
        _ => None,
    }
}

fn not_below_zero(w: u32) -> u32
    ensures { result ≡ not_below_zero_word w }
{
    w.cast_signed().max(0).cast_unsigned()
}

fn byte_of(w: u32) -> u32
    ensures { result ≡ byte_word w }
{
    not_below_zero(w).min(255)
}

fn is_far(w: u32) -> bool
    ensures { result ≡ far_word w }
{
    w.cast_signed().unsigned_abs() > 1_000_000_000
}

#[tactic(auto, unfolding(crate::specs::Inner::fad_tag))]
fn fad_of(n: Numbers) -> Option<Record>
    ensures { kept_record result ≡ fad_tag n.all n.count n.words }
{
    if n.all && n.count >= 2 {
        return Some(Record::of(1, [not_below_zero(n.words[0]), not_below_zero(n.words[1])]));
    }
    None
}

#[tactic(auto, unfolding(crate::specs::Inner::fade_tag))]
fn fade_of(n: Numbers) -> Kept
    ensures { result ≡ fade_tag n.all n.count n.words }
{
    if !n.all || n.count < 7 {
        return Kept::No;
    }
    let [a1, a2, a3, t1, t2, t3, t4] = n.words;
    let r = Record::of(2, [byte_of(a1), byte_of(a2), byte_of(a3), t1, t2, t3, t4]);
    if is_far(t1) || is_far(t2) || is_far(t3) || is_far(t4) {
        return Kept::Far(r);
    }
    Kept::Tag(r)
}

#[tactic(auto, unfolding(crate::specs::Inner::ranged_tag))]
fn ranged_of(kind: u32, low: u32, high: u32, n: Numeral) -> Option<Record>
    ensures { kept_record result ≡ ranged_tag kind low high n }
{
    match n.word() {
        Some(w) if low <= w && w <= high => Some(Record::of(kind, [w])),
        _ => None,
    }
}

#[tactic(auto, unfolding(crate::specs::Inner::weight_tag))]
fn weight_of(n: Numeral) -> Option<Record>
    ensures { kept_record result ≡ weight_tag n }
{
    match n.word()? {
        0 => Some(Record::of(42, [0])),
        1 => Some(Record::of(42, [700])),
        _ => ranged_of(42, 100, 900, n),
    }
}

#[tactic(auto, unfolding(crate::specs::Inner::flag_tag))]
fn flag_of(text: &[u8], kind: u32, p: usize, q: usize) -> Option<Record>
    requires { (p ≤ q) × (q ≤ length text.now) }
    ensures { kept_record result ≡ flag_tag kind text.now p q }
{
    let a = scan::trim_start(text, p, q);
    let b = scan::trim_end(text, a, q);
    if b - a != 1 {
        return None;
    }
    match text[a] {
        b'0' => Some(Record::of(kind, [0])),
        b'1' => Some(Record::of(kind, [1])),
        _ => None,
    }
}

// The part between two places as two words; an empty one is 0 and 0.
#[tactic(auto, unfolding(crate::specs::Plain::part))]
fn part_of(p: usize, q: usize) -> (u32, u32)
    requires { q < 2 ^ 32 }
    ensures { result ≡ part_words (part p q) }
{
    if p < q {
        return (p as u32, (q - p) as u32);
    }
    (0, 0)
}

#[tactic(auto, unfolding(crate::specs::Inner::clip_tag))]
fn clip_of(kind: u32, drawn: u32, n: Numbers, p: usize, q: usize) -> Kept
    requires { q < 2 ^ 32 }
    ensures { result ≡ clip_tag kind drawn n p q }
{
    let (offset, size) = part_of(p, q);
    let drawing = Kept::Tag(Record::of(drawn, [offset, size]));
    if n.count != 4 {
        return drawing;
    }
    if n.all {
        let [x1, y1, x2, y2, _, _, _] = n.words;
        return long_or(n.too_long, Kept::Tag(Record::of(kind, [x1, y1, x2, y2])));
    }
    long_or(n.too_long, drawing)
}

#[tactic(auto, unfolding(crate::specs::Inner::reset_tag))]
fn reset_of(text: &[u8], p: usize, q: usize) -> Record
    requires { (p ≤ q) × (q ≤ length text.now) × (q < 2 ^ 32) }
    ensures { Kept.Tag result ≡ reset_tag text.now p q }
{
    let a = scan::trim_start(text, p, q);
    let b = scan::trim_end(text, a, q);
    if a < b {
        let (offset, size) = part_of(a, b);
        return Record::of(41, [1, offset, size]);
    }
    Record::of(41, [0])
}

// A parameter by its shape.
#[tactic(auto, unfolding(crate::specs::Inner::shaped_tag))]
fn shaped(text: &[u8], shape: Shape, p: usize, q: usize) -> Kept
    requires { (p ≤ q) × (q ≤ length text.now) × (q < 2 ^ 32) }
    ensures { result ≡ shaped_tag shape text.now p q }
{
    match shape {
        Shape::Float(kind) => keep_word(numeral::f32_at(text, p, q), |w| Record::of(kind, [w])),
        Shape::Pair(kind) => {
            let n = lists::numbers_at(text, false, p, q);
            long_or(n.too_long, Kept::from(pair_of(kind, n)))
        }
        Shape::Ranged(kind, low, high) => {
            Kept::from(ranged_of(kind, low, high, numeral::i32_at(text, p, q)))
        }
        Shape::Flag(kind) => Kept::from(flag_of(text, kind, p, q)),
        Shape::Alpha(kind) => {
            Kept::from(colour::alpha_at(text, p, q).map(|a| Record::of(kind, [a])))
        }
        Shape::Colour(kind) => Kept::from(colour::colour_at(text, p, q).map(|c| Record::of(
            kind,
            [c.red, c.green, c.blue],
        ))),
        Shape::Clip(kind, drawn) => clip_of(
            kind,
            drawn,
            lists::numbers_at(text, false, p, q),
            p,
            q,
        ),
        Shape::Beat(kind) => keep_word(numeral::f32_at(text, p, q), |w| {
            let beats = float::round_away(float::max_zero(float::f32_of_word(w)));
            Record::of(46, [u32::from(kind), float::to_word(beats)])
        }),
        Shape::Fad => Kept::from(fad_of(lists::numbers_at(text, true, p, q))),
        Shape::Fade => fade_of(lists::numbers_at(text, true, p, q)),
        Shape::Move => {
            let n = lists::numbers_at(text, false, p, q);
            long_or(n.too_long, Kept::from(move_of(n)))
        }
        Shape::Edge => keep_word(numeral::f32_at(text, p, q), |w| {
            Record::of(22, [u32::from(float::round_byte(float::f32_of_word(w)))])
        }),
        Shape::Baseline => keep_word(numeral::f32_at(text, p, q), |w| {
            Record::of(
                47,
                [float::to_word(float::round_away(float::f32_of_word(w)))],
            )
        }),
        Shape::Weight => Kept::from(weight_of(numeral::i32_at(text, p, q))),
        Shape::Reset => Kept::Tag(reset_of(text, p, q)),
        Shape::Unknown => Kept::No,
    }
}

// Whether a name begins with fn and goes on.
#[tactic(auto, unfolding(crate::specs::Plain::is_fn))]
fn is_fn(text: &[u8], i: usize, m: usize) -> bool
    requires { (i ≤ m) × (m ≤ length text.now) }
    ensures { result ≡ is_fn text.now i m }
{
    m - i >= 3 && key_of(text, i, i + 2) == 0x666E
}

// Whether a name begins with r and goes on, with an empty parameter.
#[tactic(auto, unfolding(crate::specs::Plain::is_named_reset))]
fn is_named_reset(text: &[u8], i: usize, m: usize, p: usize, q: usize) -> bool
    requires { (i ≤ m) × (m ≤ length text.now) }
    ensures { result ≡ is_named_reset text.now i m p q }
{
    m - i >= 2 && key_of(text, i, i + 1) == 0x72 && q <= p
}

#[tactic(auto, unfolding(crate::specs::Inner::fn_tag))]
fn fn_tag(text: &[u8], i: usize, m: usize, p: usize, q: usize) -> Kept
    requires { (i + 2 ≤ m) × (m ≤ p) × (p ≤ q) × (q ≤ length text.now) × (q < 2 ^ 32) }
    ensures { result ≡ fn_tag text.now i m p q }
{
    let (offset, size) = part_of(i + 2, m);
    let (more, more_size) = part_of(p, scan::trim_end(text, p, q));
    Kept::Tag(Record::of(39, [offset, size, more, more_size]))
}

// The tag whose name, of that key, stands from i to m and its parameter from p to q, \t apart.
#[tactic(auto, using(crate::proofs::Bridge::bridge, crate::proofs::Keys::fn_goes_on), unfolding(crate::specs::Plain::plain_at, crate::specs::Inner::fn_tag, tag::specs::Table::records))]
pub fn plain_at(text: &[u8], key: u64, i: usize, m: usize, p: usize, q: usize) -> Kept
    requires { (key ≡ key_at text.now i m) × (i ≤ m) × (m ≤ p) × (p ≤ q) × (q ≤ length text.now) × (q < 2 ^ 32) }
    ensures { result ≡ kept_of (plain_at text.now i m p q) }
{
    if is_fn(text, i, m) {
        return fn_tag(text, i, m, p, q);
    }
    if is_named_reset(text, i, m, p, q) {
        let (offset, size) = part_of(i + 1, m);
        return Kept::Tag(Record::of(41, [1, offset, size]));
    }
    shaped(text, shape_of(key), p, q)
}
