// Comma lists of numbers.
#![tactic(auto)]

ghost use Rattle.std.specs.Prelude.{◌≡◌, ◌^◌, ◌≤◌, ◌<◌, length};
ghost use Rattle.lists.specs.Inner.{item_at, items_to, pushed, numbers_of};

// A comma list: whether every part is a number, how many parts there are, the words of the first seven, and the place of the first numeral that is too long.
#[derive(Clone, Copy, Drop)]
pub struct Numbers {
    pub all: bool,
    pub count: usize,
    pub words: [u32; 7],
    pub too_long: Option<usize>,
}

impl Numbers {
    // One part more.
    fn push(&mut self, n: numeral::Numeral)
        requires { self.old.count < 2 ^ 63 }
        ensures { self.new ≡ pushed self.old n }
    {
        self.all = self.all && n.word().is_some();
        if self.count < 7 {
            self.words[self.count] = n.word().unwrap_or(0);
        }
        self.too_long = self.too_long.or(n.too_long());
        self.count += 1;
    }
}

// The number that a part of a list holds, a whole one or an f32.
fn item(text: &[u8], whole: bool, p: usize, q: usize) -> numeral::Numeral
    requires { (p ≤ q) × (q ≤ length text.now) }
    ensures { result ≡ item_at whole text.now p q }
{
    if whole {
        numeral::i32_at(text, p, q)
    } else {
        numeral::f32_at(text, p, q)
    }
}

// The numbers between commas from p to e, as `parse_int_list` and `parse_float_list` read them. C gives `whole` as a value.
#[tactic(auto, using(crate::proofs::Laws::listing_start))]
pub fn numbers_at(text: &[u8], whole: bool, p: usize, e: usize) -> Numbers
    requires { (p ≤ e) × (e ≤ length text.now) }
    ensures { result ≡ numbers_of (items_to whole text.now p e) }
{
    let mut numbers = Numbers {
        all: true,
        count: 0,
        words: [0; 7],
        too_long: None,
    };
    let mut i = p;
    loop {
        let c = scan::span(text, scan::Not(b','), i, e);
        let n = item(text, whole, i, c);
        numbers.push(n);
        if c >= e {
            return numbers;
        }
        i = c + 1;
    }
}
