// A table record and how it is written.
#![tactic(auto)]

ghost use Rattle.std.specs.Prelude.{◌≡◌, ◌≤◌, [], ◌∷◌};
ghost use Rattle.tag.specs.Table.{record_of, words, kind_word, laid};

// 01, A table record: the kind, then seven words.
#[derive(Clone, Copy, Drop)]
pub struct Record {
    pub kind: u32,
    pub w1: u32,
    pub w2: u32,
    pub w3: u32,
    pub w4: u32,
    pub w5: u32,
    pub w6: u32,
    pub w7: u32,
}

impl Record {
    // The record of a kind with its first words given; the others are 0.
    pub fn of<const N: usize>(kind: u32, words: [u32; N]) -> Record
        requires { N ≤ 7 }
        ensures { result ≡ record_of kind words.entry }
    {
        let mut w = [0; 7];
        w[..N].copy_from_slice(&words);
        let [w1, w2, w3, w4, w5, w6, w7] = w;
        Record {
            kind,
            w1,
            w2,
            w3,
            w4,
            w5,
            w6,
            w7,
        }
    }

    // The kind, then the seven words.
    pub fn words(self) -> [u32; 8]
        ensures { result ≡ words self }
    {
        [
            self.kind, self.w1, self.w2, self.w3, self.w4, self.w5, self.w6, self.w7,
        ]
    }
}

// Which of the \k tags: \k, \kf and \K, \ko.
#[derive(Clone, Copy, Drop)]
pub enum KaraokeKind {
    Fill,
    Sweep,
    Outline,
}

// The number that stands for it in a record.
impl From<KaraokeKind> for u32 {
    ghost from_gives = { λ k n. n ≡ kind_word k };

    fn from(kind: KaraokeKind) -> u32 {
        match kind {
            KaraokeKind::Fill => 0,
            KaraokeKind::Sweep => 1,
            KaraokeKind::Outline => 2,
        }
    }
}

// Centiseconds, in which a karaoke tag counts: never taken for milliseconds.
#[derive(Clone, Copy, Drop)]
pub struct Cs(pub u32);

// Writes a record at the front of the table, where there is room for it.
#[tactic(auto, unfolding(rows::specs::Rows::laid_rows))]
pub fn put(table: &mut [u32], r: Record)
    ensures { table.new ≡ laid table.old (r ∷ []) }
{
    rows::put(table, r.words());
}
