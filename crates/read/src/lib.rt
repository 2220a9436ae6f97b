// Override blocks into tables: the two reading calls.
#![tactic(auto)]

ghost use Rattle.std.specs.Prelude.{◌≡◌, ◌+◌, ◌-◌, ◌*◌, ◌^◌, ◌≤◌, ◌<◌, length, Ok};
ghost use Rattle.lists.specs.Lists.{first_of};
ghost use Rattle.refusal.specs.Refusal.{most_bytes, text_ground};
ghost use Rattle.tag.specs.Table.{places_of};
ghost use Rattle.plain.specs.Names.{key_at};
ghost use Rattle.plain.specs.Plain.{plain_at};
ghost use Rattle.plain.specs.Inner.{kept_of};
ghost use Rattle.read.specs.Block.{param_at, name_end, head_at, peel_to, tag_at, t_at, parse};
ghost use Rattle.read.specs.Reading.{read_ground, whole_text, less_braces, Answered};
ghost use Rattle.read.specs.Moved.{AsAlone};
ghost use Rattle.read.specs.Inner.{HeadIn, headed, t_words, Peels, no_place, InWord, found_of, seen_of, kept_got, Keeps, joined_out, around_out, Told, BraceEnd};

use numeral::Numeral;
use plain::Kept;
use refusal::Refusal;
use tag::Record;

// The word of the f32 1.
const ONE: u32 = 0x3F800000;

// A tag: where its name begins and ends, its parameter from p to q, and the place behind both.
#[derive(Clone, Copy, Drop)]
pub struct Head {
    pub name: usize,
    pub end: usize,
    pub p: usize,
    pub q: usize,
    pub next: usize,
}

// The words of the first three numbers of a \t, and how many there are.
#[derive(Clone, Copy, Drop)]
pub struct Heads {
    pub count: usize,
    pub words: [u32; 3],
}

impl Heads {
    // One number more.
    #[tactic(auto, unfolding(crate::specs::Inner::headed))]
    fn push(&mut self, w: u32)
        requires { self.old.count < 2 ^ 32 }
        ensures { self.new ≡ headed self.old w }
    {
        if self.count < 3 {
            self.words[self.count] = w;
        }
        self.count += 1;
    }
}

// The numbers of a \t, where its tags begin, and a numeral that is too long.
#[derive(Clone, Copy, Drop)]
pub struct Peeled {
    pub heads: Heads,
    pub rest: usize,
    pub long: Option<usize>,
}

// A place of the text, or none, in one word: `Out` is on the stack at each level of \t, and an Option<usize> has two longer ones.
#[derive(Clone, Copy, Drop)]
pub struct Found(u32);

impl Found {
    // No place: that of no byte, as a text has at most 12,288.
    const NOWHERE: Found = Found(u32::MAX);

    fn new(place: Option<usize>) -> Found
        requires { InWord place }
        ensures { found_of result ≡ place }
    {
        Found(place.unwrap_or(u32::MAX as usize) as u32)
    }

    fn get(self) -> Option<usize>
        ensures { result ≡ found_of self }
    {
        if self.0 == u32::MAX {
            return None;
        }
        Some(self.0 as usize)
    }

    // The first of two that is a place.
    fn or(self, other: Found) -> Found
        ensures { found_of result ≡ first_of (found_of self) (found_of other) }
    {
        if self.0 == u32::MAX { other } else { self }
    }
}

// What a reader gives: how many records, the place of the first numeral that is too long, that of the first \fade whose times lie too far off.
#[derive(Clone, Copy, Drop)]
pub struct Out {
    pub n: u32,
    pub long: Found,
    pub far: Found,
}

impl Out {
    const NONE: Out = Out {
        n: 0,
        long: Found::NOWHERE,
        far: Found::NOWHERE,
    };

    // What this reader and the one behind it give.
    fn then(self, next: Out) -> Out
        requires { (self.n < 65536) × (next.n < 65536) }
        ensures { seen_of result ≡ joined_out (seen_of self) (seen_of next) }
    {
        Out {
            n: self.n + next.n,
            long: self.long.or(next.long),
            far: self.far.or(next.far),
        }
    }

    // What a \t gives around this, which is inside it: its own record, and a numeral of its own that is too long.
    fn within(self, long: Found) -> Out
        requires { self.n < 65536 }
        ensures { seen_of result ≡ around_out (found_of long) (seen_of self) }
    {
        Out {
            n: self.n + 1,
            long: long.or(self.long),
            far: self.far,
        }
    }
}

// The part of the text that is read.
#[derive(Clone, Copy, Drop)]
pub struct Span {
    pub from: usize,
    pub to: usize,
}

// The parameter that starts at i, as `read_param` has it.
#[tactic(auto, unfolding(crate::specs::Block::param_at))]
fn param_at(text: &[u8], name: usize, i: usize, e: usize) -> Head
    requires { (i ≤ e) × (e ≤ length text.now) }
    ensures { HeadIn name i e (param_at text.now name i e) result }
{
    let end = i;
    if i < e && text[i] == b'(' {
        let q = scan::closing(text, i + 1, e);
        return Head {
            name,
            end,
            p: i + 1,
            q,
            next: e.min(q + 1),
        };
    }
    let q = scan::span(text, scan::Not(b'\\'), i, e);
    Head {
        name,
        end,
        p: i,
        q,
        next: q,
    }
}

// The tag whose backslash is at i.
fn head_at(text: &[u8], i: usize, e: usize) -> Head
    requires { (i < e) × (e ≤ length text.now) }
    ensures { HeadIn (i + 1) (name_end text.now (i + 1) e) e (head_at text.now i e) result × (i < result.end) }
{
    let digit = scan::past(text, scan::Digit(10), i + 1, e);
    let end = scan::span(text, scan::Letter, digit, e);
    param_at(text, i + 1, end, e)
}

// The numbers in front of a \t's tags, as `peel_leading_numbers` has them.
// Not inlined, as `plain_tag`: what they hold is then on the stack once, and not at each level of \t.
#[inline(never)]
fn peel(text: &[u8], p: usize, q: usize) -> Peeled
    requires { (p ≤ q) × (q ≤ length text.now) × (q < 65536) }
    ensures { Peels p q (peel_to text.now p q) result }
{
    let mut heads = Heads {
        count: 0,
        words: [0; 3],
    };
    let mut i = scan::trim_start(text, p, q);
    loop {
        let k = scan::span(text, scan::Neither(b',', b'\\'), i, q);
        match numeral::f32_at(text, i, k) {
            Numeral::Word(w) => heads.push(w),
            n => {
                return Peeled {
                    heads,
                    rest: i,
                    long: n.too_long(),
                };
            }
        }
        if k >= q || text[k] == b'\\' {
            return Peeled {
                heads,
                rest: k,
                long: None,
            };
        }
        i = scan::trim_start(text, k + 1, q);
    }
}

// The record of a \t with n records inside.
#[tactic(auto, unfolding(crate::specs::Inner::t_words))]
fn t_record(h: Heads, n: u32) -> Record
    ensures { result ≡ t_words h n }
{
    let [a, b, c] = h.words;
    let accel = match h.count {
        0 | 2 => ONE,
        1 => a,
        _ => c,
    };
    if h.count < 2 {
        return Record::of(49, [0, 0, 0, accel, n]);
    }
    Record::of(49, [1, plain::time_of(a), plain::time_of(b), accel, n])
}

// What a plain tag gives, its record into the front of the table.
#[tactic(auto, unfolding(rows::specs::Rows::laid_rows))]
fn keep(i: usize, k: Kept, table: &mut [u32]) -> Out
    requires { (i < no_place) × InWord (kept_got i k).long }
    ensures { Keeps i k table.old result table.new }
{
    match k {
        Kept::No => Out::NONE,
        Kept::Long(p) => Out {
            long: Found::new(Some(p)),
            ..Out::NONE
        },
        Kept::Tag(r) => {
            tag::put(table, r);
            Out { n: 1, ..Out::NONE }
        }
        Kept::Far(r) => {
            tag::put(table, r);
            Out {
                n: 1,
                far: Found::new(Some(i)),
                ..Out::NONE
            }
        }
    }
}

// A tag other than \t, its backslash at i, into the front of the table.
#[inline(never)]
fn plain_tag(text: &[u8], key: u64, i: usize, h: Head, table: &mut [u32]) -> Out
    requires { (key ≡ key_at text.now h.name h.end) × (i < h.end) × (h.name ≤ h.end) × (h.end ≤ h.p) × (h.p ≤ h.q) × (h.q ≤ length text.now) × (length text.now ≤ most_bytes) }
    ensures { Keeps i (kept_of (plain_at text.now h.name h.end h.p h.q)) table.old result table.new }
{
    let k = plain::plain_at(text, key, h.name, h.end, h.p, h.q);
    keep(i, k, table)
}

// One tag, its backslash at i, into the front of the table.
#[cycle(blocks)]
fn parse_one(text: &[u8], i: usize, h: Head, depth: usize, table: &mut [u32]) -> Out
    requires { (i < h.end) × (h.name ≤ h.end) × (h.end ≤ h.p) × (h.p ≤ h.q) × (h.q ≤ length text.now) × (length text.now ≤ most_bytes) }
    ensures { Told table.old (tag_at (t_at depth text.now) text.now i h) (h.q - h.p + 1) result table.new }
{
    let key = plain::key_at(text, h.name, h.end);
    if key == 0x74 {
        return parse_t(text, h.p, h.q, depth, table);
    }
    plain_tag(text, key, i, h, table)
}

// A \t: its tags go into the rest of the table behind its own record.
#[cycle(blocks)]
fn parse_t(text: &[u8], p: usize, q: usize, depth: usize, table: &mut [u32]) -> Out
    requires { (p ≤ q) × (q ≤ length text.now) × (length text.now ≤ most_bytes) }
    ensures { Told table.old (t_at depth text.now p q) (q - p + 1) result table.new }
{
    if depth == 0 {
        return Out::NONE;
    }
    let l = peel(text, p, q);
    let start = table.len().min(8);
    let o = parse_overrides_depth(text, l.rest, q, depth - 1, &mut table[start..]);
    tag::put(table, t_record(l.heads, o.n));
    o.within(Found::new(l.long))
}

// The tags of a block, into the front of the table.
#[cycle(blocks)]
fn parse_overrides_depth(
    text: &[u8],
    from: usize,
    to: usize,
    depth: usize,
    table: &mut [u32],
) -> Out
    requires { (from ≤ to) × (to ≤ length text.now) × (length text.now ≤ most_bytes) }
    ensures { Told table.old (parse depth text.now from to) (to - from) result table.new }
{
    let mut i = from;
    let mut out = Out::NONE;
    while i < to {
        if text[i] != b'\\' {
            i += 1;
            continue;
        }
        let h = head_at(text, i, to);
        if h.end == i + 1 {
            i += 1;
            continue;
        }
        let start = table.len().min(8 * out.n as usize);
        out = out.then(parse_one(text, i, h, depth, &mut table[start..]));
        i = h.next;
    }
    out
}

// Grounds 3, 4 and 9 for what was seen.
#[tactic(auto, unfolding(crate::specs::Reading::read_ground))]
fn check_read(o: Out, places: usize) -> Result<usize, Refusal>
    ensures { result ≡ read_ground (found_of o.long) (found_of o.far) o.n places }
{
    if let Some(p) = o.long.get() {
        return Err(Refusal::NumeralTooLong(p));
    }
    if let Some(p) = o.far.get() {
        return Err(Refusal::FadeTooFar(p));
    }
    let n = o.n as usize;
    if n > places.min(1024) {
        return Err(Refusal::NoRoom(n));
    }
    Ok(n)
}

// Reads a part of a text with no ground 1 or 2: in one run where a first look rules out grounds 3, 4 and 9; else first into no table.
fn read_good(text: &[u8], from: usize, to: usize, table: &mut [u32]) -> Result<usize, Refusal>
    requires { (from ≤ to) × (to ≤ length text.now) × (text_ground text.now ≡ Ok tt) }
    ensures { Answered text.now (record { from = from; to = to }) table.old result table.new }
{
    if survey::straight(text, from, to, (table.len() / 8).min(1024)) {
        let o = parse_overrides_depth(text, from, to, 16, table);
        return Ok(o.n as usize);
    }
    let seen = parse_overrides_depth(text, from, to, 16, &mut table[..0]);
    let n = check_read(seen, table.len() / 8)?;
    let _ = parse_overrides_depth(text, from, to, 16, table);
    Ok(n)
}

// Reads a part of the text.
fn read_span(text: &[u8], from: usize, to: usize, table: &mut [u32]) -> Result<usize, Refusal>
    requires { (from ≤ to) × (to ≤ length text.now) }
    ensures { Answered text.now (record { from = from; to = to }) table.old result table.new }
{
    refusal::check_text(text)?;
    read_good(text, from, to, table)
}

// 01, Reading: the block is the whole text; braces are ordinary bytes.
pub fn parse_overrides(text: &[u8], table: &mut [u32]) -> Result<usize, Refusal>
    ensures { Answered text.now (whole_text text.now) table.old result table.new }
{
    read_span(text, 0, text.len(), table)
}

// Where the text without blanks around it ends once a closing brace is dropped.
fn brace_end(text: &[u8], p: usize, b: usize) -> usize
    requires { (p ≤ b) × (b ≤ length text.now) }
    ensures { BraceEnd text.now p b result }
{
    if p < b && text[b - 1] == b'}' {
        return b - 1;
    }
    b
}

// 01, Braces: trims, then drops one { and one }.
pub fn parse_raw_block(text: &[u8], table: &mut [u32]) -> Result<usize, Refusal>
    ensures answered { Answered text.now (less_braces text.now) table.old result table.new }
    ensures as_alone { AsAlone text.now (less_braces text.now) (places_of table.old) result }
{
    let a = scan::trim_start(text, 0, text.len());
    let b = scan::trim_end(text, a, text.len());
    let p = scan::past(text, scan::Is(b'{'), a, b);
    let q = brace_end(text, p, b);
    read_span(text, p, q, table)
}
