// Why a call is refused, by the numbers of documents 01 and 02. The names are those of include/rofteluvi.h.

#![tactic(auto)]

ghost use Rattle.std.specs.Prelude.{◌≡◌};
ghost use Rattle.refusals.specs.Numbers.{number_of};

#[derive(Clone, Copy, Debug, PartialEq, Eq)]
pub enum Refusal {
    TooLong = 1,
    NotWhole = 2,
    BadMask = 3,
    UnknownType = 4,
    LoaderType = 5,
    NoSuchSymbol = 6,
    ValueAbsent = 7,
    Outside = 8,
    Unaligned = 9,
    StackEmpty = 10,
    StackFull = 11,
    ShiftCount = 12,
    Assertion = 13,
    AboveRange = 14,
    NotMultiple = 15,
    StackLeft = 16,
    BadLine = 17,
    BelowRange = 18,
    UnknownWord = 19,
}

impl From<Refusal> for u32 {
    ghost from_gives = { λ refusal n. n ≡ number_of refusal };

    fn from(refusal: Refusal) -> u32 {
        refusal as u32
    }
}

/// A refusal and its place.
#[derive(Clone, Copy, Debug, PartialEq, Eq)]
pub struct Refused {
    pub refusal: Refusal,
    pub place: u32,
}
