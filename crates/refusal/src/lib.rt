// 01, Grounds for turning a call down.
#![tactic(auto)]

ghost use Rattle.std.specs.Prelude.{◌≡◌, ◌≤◌};
ghost use Rattle.refusal.specs.Refusal.{number_of, place_of, text_ground};

// The nine grounds in checking order, each with its place or count where it has one.
#[derive(Clone, Copy, Drop)]
pub enum Refusal {
    TextTooLong,
    NotAscii(usize),
    NumeralTooLong(usize),
    FadeTooFar(usize),
    TableMalformed(usize),
    TimeOutOfRange,
    ScaleTooLarge,
    NameBeyondText,
    NoRoom(usize),
}

impl Refusal {
    // The ground's number.
    pub fn number(self) -> u32
        ensures { (result ≡ number_of self) × (result ≤ 9) }
    {
        match self {
            Refusal::TextTooLong => 1,
            Refusal::NotAscii(_) => 2,
            Refusal::NumeralTooLong(_) => 3,
            Refusal::FadeTooFar(_) => 4,
            Refusal::TableMalformed(_) => 5,
            Refusal::TimeOutOfRange => 6,
            Refusal::ScaleTooLarge => 7,
            Refusal::NameBeyondText => 8,
            Refusal::NoRoom(_) => 9,
        }
    }

    // The stated place or count, else 0.
    pub fn place(self) -> usize
        ensures { result ≡ place_of self }
    {
        match self {
            Refusal::NotAscii(p)
            | Refusal::NumeralTooLong(p)
            | Refusal::FadeTooFar(p)
            | Refusal::TableMalformed(p)
            | Refusal::NoRoom(p) => p,
            Refusal::TextTooLong
            | Refusal::TimeOutOfRange
            | Refusal::ScaleTooLarge
            | Refusal::NameBeyondText => 0,
        }
    }
}

// Grounds 1 and 2, on the text given.
#[tactic(auto, unfolding(crate::specs::Refusal::text_ground))]
pub fn check_text(text: &[u8]) -> Result<(), Refusal>
    ensures { result ≡ text_ground text.now }
{
    if text.len() > 12288 {
        return Err(Refusal::TextTooLong);
    }
    let a = scan::below(text, 128, 0, text.len());
    if a < text.len() {
        return Err(Refusal::NotAscii(a));
    }
    Ok(())
}
