#![tactic(auto)]

// Why a call is turned down.

ghost use Rattle.std.specs.Prelude.{ℕ, ◌≡◌};
ghost use Rattle.refusal.specs.Refusal.{number};

// docs/SPECIFICATION.md 8 says where each is given.
#[derive(Clone, Copy, Debug, PartialEq, Eq)]
pub enum Refusal {
    WrongLength, // 1
    Unsound, // 2
    NoSuch, // 3
    OutOfRange, // 4
    Occupied, // 5
    InBlossom, // 6
    NoCircle, // 7
    NoNodeLeft, // 8
    StoreShort, // 9
    PassesWeight, // 10
    BelowZero, // 11
    AboveLimit, // 12
    Unprepared, // 13
    RoundTooShort, // 14
    NotOpenable, // 15
    WeightsStand, // 16
    NoValue, // 17
}

impl Refusal {
    // Its number.
    pub fn number(self) -> usize
        ensures { result ≡ number self }
    {
        match self {
            Refusal::WrongLength => 1,
            Refusal::Unsound => 2,
            Refusal::NoSuch => 3,
            Refusal::OutOfRange => 4,
            Refusal::Occupied => 5,
            Refusal::InBlossom => 6,
            Refusal::NoCircle => 7,
            Refusal::NoNodeLeft => 8,
            Refusal::StoreShort => 9,
            Refusal::PassesWeight => 10,
            Refusal::BelowZero => 11,
            Refusal::AboveLimit => 12,
            Refusal::Unprepared => 13,
            Refusal::RoundTooShort => 14,
            Refusal::NotOpenable => 15,
            Refusal::WeightsStand => 16,
            Refusal::NoValue => 17,
        }
    }
}

// What stands for a refusal where an answer is told: a refusal, or the number of one as it is.
pub trait Numbered {
    ghost number_of: { Self → ℕ };

    // Its number.
    fn to_number(self) -> usize
        ensures { result ≡ number_of self };
}

impl Numbered for Refusal {
    ghost number_of = { number };

    fn to_number(self) -> usize {
        self.number()
    }
}

impl Numbered for usize {
    ghost number_of = { λ n. n };

    fn to_number(self) -> usize {
        self
    }
}
