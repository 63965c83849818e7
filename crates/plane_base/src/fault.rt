//! Why a call was refused: the one type of refusals of all libraries from here up to `polygon_overlay`.

ghost use Rattle.std.specs.Prelude.{◌≡◌};
ghost use Rattle.plane_base.specs.declared.fault.Fault.TheVariants.{Memory};
ghost use Rattle.plane_base.specs.Fault.{number_of};

use std::alloc::{AllocError, AllocFailed};
use thiserror::Error;

/// Why a call was refused. Each text is the variant's name.
#[derive(Clone, Copy, Debug, PartialEq, Eq, Error)]
pub enum Fault {
    /// A request for memory was refused.
    #[error("Memory")]
    Memory,
    /// A joined count or a running sum left `-i32::MAX..=i32::MAX`.
    #[error("Count")]
    Count,
    /// 2^31 or more edges would be held.
    #[error("Edges")]
    Edges,
    /// An earlier query of this builder was refused.
    #[error("Failed")]
    Failed,
}

impl Fault {
    /// Its number: 1 for `Memory`, 2 for `Count`, 3 for `Edges`, 4 for `Failed`.
    pub fn code(self) -> u8
        ensures { result ≡ number_of self }
    {
        match self {
            Fault::Memory => 1,
            Fault::Count => 2,
            Fault::Edges => 3,
            Fault::Failed => 4,
        }
    }
}

impl From<AllocError> for Fault {
    ghost from_gives = { λ _ fault. fault ≡ Memory };

    fn from(_error: AllocError) -> Fault {
        Fault::Memory
    }
}

impl<T: Drop> From<AllocFailed<T>> for Fault {
    ghost from_gives = { λ _ fault. fault ≡ Memory };

    fn from(_error: AllocFailed<T>) -> Fault {
        Fault::Memory
    }
}
