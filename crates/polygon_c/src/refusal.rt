//! Why a call is refused, and the number that a C program is told.

ghost use Rattle.std.specs.Prelude.{◌≡◌};
ghost use Rattle.polygon_c.specs.Refusals.{status_of, wide_status_of};
ghost use Rattle.polygon_c.specs.Faults.{refusal_of};
ghost use Rattle.polygon_c.specs.declared.refusal.Refusal.TheVariants.{Memory};

use polygon_overlay::plane::fault::Fault;
use std::alloc::AllocError;

/// Why a call is refused. A C program is told its number, and 0 where the call is answered.
#[derive(Clone, Copy, Debug, PartialEq, Eq)]
pub enum Refusal {
    /// Memory is refused.
    Memory,
    /// More contours run along an edge, or wind round a point, than can be counted.
    Count,
    /// There would be too many edges.
    Edges,
    /// No overlay rule has this number.
    Rule,
    /// No fill rule has this number, or its depth is below 1.
    Fill,
    /// No strategy has this number.
    Strategy,
    /// No precision has this number.
    Precision,
    /// Lengths don't sum to what they cut.
    Lengths,
    /// A coordinate is out of range.
    Range,
    /// An array is too small for the answer.
    Room,
    /// A query has more words than are known.
    Size,
    /// No join has this number, or numbers of edges that lie on each other are to be kept, and differ.
    Join,
    /// An edge of a region that is to be sized or checked is neither horizontal nor vertical.
    Slant,
}

impl Refusal {
    /// The number that a C program is told.
    pub(crate) fn status(self) -> u32
        ensures { result ≡ status_of self }
    {
        match self {
            Refusal::Memory => 1,
            Refusal::Count => 2,
            Refusal::Edges => 3,
            Refusal::Rule => 4,
            Refusal::Fill => 5,
            Refusal::Strategy => 6,
            Refusal::Precision => 7,
            Refusal::Lengths => 8,
            Refusal::Range => 9,
            Refusal::Room => 10,
            Refusal::Size => 11,
            Refusal::Join => 13,
            Refusal::Slant => 14,
        }
    }

    /// The number that a C program is told by a call with coordinates of 64 bits.
    pub(crate) fn wide_status(self) -> u32
        ensures { result ≡ wide_status_of self }
    {
        match self {
            Refusal::Range => 12,
            _ => self.status(),
        }
    }
}

impl From<AllocError> for Refusal {
    ghost from_gives = { λ _ refusal. refusal ≡ Memory };

    fn from(_error: AllocError) -> Refusal {
        Refusal::Memory
    }
}

impl From<Fault> for Refusal {
    ghost from_gives = { λ fault refusal. refusal ≡ refusal_of fault };

    fn from(fault: Fault) -> Refusal {
        match fault {
            // (no builder is asked again after a refusal)
            Fault::Memory | Fault::Failed => Refusal::Memory,
            Fault::Count => Refusal::Count,
            Fault::Edges => Refusal::Edges,
        }
    }
}
