// Classes of bytes.
#![tactic(auto)]

ghost use Rattle.std.specs.Prelude.{◌≡◌, ℕ, Bool};
ghost use Rattle.scan.specs.Scan.{digit, letter, only, other, one_of, none_of, below};

use crate::digit_of;

// A class of bytes, by a test of its own: each makes its own loops of the scans below.
pub trait Class: Copy + Drop {
    ghost holds: { Self → ℕ → Bool };

    fn has(self, b: u8) -> bool
        ensures { result ≡ holds self b };
}

// The digits of a radix up to 16.
#[derive(Clone, Copy, Drop)]
pub struct Digit(pub u8);

// The ASCII letters.
#[derive(Clone, Copy, Drop)]
pub struct Letter;

// One byte.
#[derive(Clone, Copy, Drop)]
pub struct Is(pub u8);

// All bytes but one.
#[derive(Clone, Copy, Drop)]
pub struct Not(pub u8);

// Either of two bytes.
#[derive(Clone, Copy, Drop)]
pub struct Either(pub u8, pub u8);

// All bytes but two.
#[derive(Clone, Copy, Drop)]
pub struct Neither(pub u8, pub u8);

// The bytes below one.
#[derive(Clone, Copy, Drop)]
pub struct Below(pub u8);

impl Class for Digit {
    ghost holds = { λ class. digit class.0 };

    fn has(self, b: u8) -> bool {
        digit_of(b) < self.0
    }
}

impl Class for Letter {
    ghost holds = { λ class. letter };

    fn has(self, b: u8) -> bool {
        b.is_ascii_alphabetic()
    }
}

impl Class for Is {
    ghost holds = { λ class. only class.0 };

    fn has(self, b: u8) -> bool {
        b == self.0
    }
}

impl Class for Not {
    ghost holds = { λ class. other class.0 };

    fn has(self, b: u8) -> bool {
        b != self.0
    }
}

impl Class for Either {
    ghost holds = { λ class. one_of class.0 class.1 };

    fn has(self, b: u8) -> bool {
        b == self.0 || b == self.1
    }
}

impl Class for Neither {
    ghost holds = { λ class. none_of class.0 class.1 };

    fn has(self, b: u8) -> bool {
        b != self.0 && b != self.1
    }
}

impl Class for Below {
    ghost holds = { λ class. below class.0 };

    fn has(self, b: u8) -> bool {
        b < self.0
    }
}
