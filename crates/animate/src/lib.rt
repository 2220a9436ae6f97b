// 01, What demand 3 speaks of: two controllers read one block into tables of their own and ask for states and marks, by the C calls.
#![tactic(auto)]

ghost use Rattle.std.specs.Prelude.{◌≡◌, take};
ghost use Rattle.hannuvel.specs.Packed.{ReadingCall};
ghost use Rattle.animate.specs.Claim.{read_span, lent, Agreed};
ghost use Rattle.animate.specs.Inner.{words_in, Saw, Ran};

// The numbers that a controller is given at an instant: of evaluation and of the next mark.
#[derive(Clone, Copy, Drop)]
pub struct Seen {
    pub evaluated: u64,
    pub next: u64,
}

// What one controller is told: by the reading, and at two instants.
#[derive(Clone, Copy, Drop)]
pub struct Told {
    pub reading: u64,
    pub one: Seen,
    pub other: Seen,
}

// What two are told.
#[derive(Clone, Copy, Drop)]
pub struct Both {
    pub a: Told,
    pub b: Told,
}

// Either reading call: of a block in braces, or of one without.
fn read_block(text: &[u8], raw: bool, table: &mut [u32]) -> u64
    ensures { ReadingCall text.now (read_span raw text.now) table.old result table.new }
{
    if raw {
        hannuvel::hannuvel_parse_raw_block(text, table)
    } else {
        hannuvel::hannuvel_parse_overrides(text, table)
    }
}

// The words of the records that a reading wrote.
fn words_in(r: u64) -> usize
    ensures { result ≡ words_in r }
{
    8 * ((r % 4294967296) as usize).min(1024)
}

// What a table answers at t on its first n words.
fn look(table: &[u32], n: usize, t: i32, dur: i32, state: &mut [u32; 92]) -> Seen
    ensures { Saw (take n table.now) t dur state.old result state.new }
{
    let part = &table[..n.min(table.len())];
    let evaluated = hannuvel::hannuvel_evaluate_at(part, t, dur, state);
    let next = hannuvel::hannuvel_next_mark(part, t, dur);
    Seen { evaluated, next }
}

// One controller: it reads the block and asks at two instants, on exactly the records that the reading wrote.
fn controller(
    text: &[u8],
    raw: bool,
    table: &mut [u32],
    first: &mut [u32; 92],
    second: &mut [u32; 92],
    t: i32,
    u: i32,
    dur: i32,
) -> Told
    ensures { Ran text.now (read_span raw text.now) (lent table.old first.old second.old) t u dur result (lent table.new first.new second.new) }
{
    let reading = read_block(text, raw, table);
    if reading / 281474976710656 > 0 {
        // no call is made
        let none = Seen {
            evaluated: 0,
            next: 0,
        };
        return Told {
            reading,
            one: none,
            other: none,
        };
    }
    let n = words_in(reading);
    let one = look(&table[..], n, t, dur, first);
    let other = look(&table[..], n, u, dur, second);
    Told {
        reading,
        one,
        other,
    }
}

// Demand 3, whole: two controllers, tables a and b of any sizes and any old contents, one block, any duration, any two
// instants. The words of the states at t and at u go to a1 and a2, b1 and b2.
pub fn two_controllers(
    text: &[u8],
    raw: bool,
    a: &mut [u32],
    a1: &mut [u32; 92],
    a2: &mut [u32; 92],
    b: &mut [u32],
    b1: &mut [u32; 92],
    b2: &mut [u32; 92],
    t: i32,
    u: i32,
    dur: i32,
) -> Both
    ensures agreed { Agreed text.now (read_span raw text.now) (lent a.old a1.old a2.old) (lent b.old b1.old b2.old) t u dur result (lent a.new a1.new a2.new) (lent b.new b1.new b2.new) }
    ensures ran_a { Ran text.now (read_span raw text.now) (lent a.old a1.old a2.old) t u dur result.a (lent a.new a1.new a2.new) }
    ensures ran_b { Ran text.now (read_span raw text.now) (lent b.old b1.old b2.old) t u dur result.b (lent b.new b1.new b2.new) }
{
    let first = controller(text, raw, a, a1, a2, t, u, dur);
    let second = controller(text, raw, b, b1, b2, t, u, dur);
    Both {
        a: first,
        b: second,
    }
}
