//! Why a request line is refused, and the number of the reply.

ghost use Rattle.std.specs.Prelude.{◌≡◌};
ghost use Rattle.polybool.specs.Texts.{code_of};
ghost use Rattle.polybool.specs.declared.refusal.Refusal.TheVariants.{Memory};

use std::alloc::{AllocError, AllocFailed};

/// The cause of an `error` reply.
#[derive(Clone, Copy, Debug, PartialEq, Eq)]
pub enum Refusal {
    /// The first word names no request.
    UnknownWord,
    /// The words after the first aren't those of the request.
    Arguments,
    /// A coordinate is out of range.
    Range,
    /// There is no answer yet.
    NoAnswer,
    /// The last answer was made without the points that its contours pass straight.
    NoPoints,
    /// A count or a winding left its range.
    Count,
    /// 2^31 or more edges would be held.
    Edges,
    /// A growth was refused.
    Memory,
    /// The line is too long.
    TooLong,
}

impl Refusal {
    /// The number that the reply shows.
    pub fn code(self) -> u8
        ensures { result ≡ code_of self }
    {
        match self {
            Refusal::UnknownWord => 1,
            Refusal::Arguments => 2,
            Refusal::Range => 3,
            Refusal::NoAnswer => 4,
            Refusal::NoPoints => 5,
            Refusal::Count => 6,
            Refusal::Edges => 7,
            Refusal::Memory => 8,
            Refusal::TooLong => 9,
        }
    }
}

impl From<AllocError> for Refusal {
    ghost from_gives = { λ _ refusal. refusal ≡ Memory };

    fn from(_failed: AllocError) -> Refusal {
        Refusal::Memory
    }
}

impl<T: Drop> From<AllocFailed<T>> for Refusal {
    ghost from_gives = { λ _ refusal. refusal ≡ Memory };

    fn from(_failed: AllocFailed<T>) -> Refusal {
        Refusal::Memory
    }
}
