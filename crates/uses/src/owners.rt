//! Who owns the borders of parcels: data that edges carry, and that are joined where edges come together.

ghost use Rattle.std.specs.Prelude.{◌≡◌, ◌↔◌, ◌⊎◌, ◌<◌, ℕ, true, IsTrue};
ghost use Rattle.uses.specs.Owning.{Owns, union};

use polygon_overlay::plane::fault::Fault;
use polygon_overlay::plane::int::OverlayInt;
use polygon_overlay::split::count::ShapeCountBoolean;
use polygon_overlay::split::data::{EdgeDataMerge, OverlayEdgeData};
use polygon_overlay::split::segment::Segment;
use std::alloc::Global;

/// Some of 64 owners, who are told by their numbers.
#[derive(Clone, Copy, Debug, PartialEq, Eq)]
pub struct Owners {
    bits: u64,
}

impl Owners {
    /// One owner alone.
    pub fn one(number: u32) -> Owners
        requires { number < 64 }
        ensures { (n : ℕ) → Owns result n ↔ (n ≡ number) }
    {
        Owners { bits: 1 << number }
    }

    /// Whether the owner is one of them.
    pub fn owns(self, number: u32) -> bool
        requires { number < 64 }
        ensures { IsTrue result ↔ Owns self number }
    {
        (self.bits >> number) & 1 == 1
    }

    /// The owners of either.
    pub fn union(self, other: Owners) -> Owners
        ensures is { result ≡ union self other }
        ensures owns { (n : ℕ) → Owns result n ↔ (Owns self n ⊎ Owns other n) }
    {
        Owners {
            bits: self.bits | other.bits,
        }
    }
}

// Edges that come together are owned by the owners of all of them. An edge that is cut or turned keeps its owners.
impl OverlayEdgeData<ShapeCountBoolean> for Owners {
    type Store = ();

    const JOINS: bool = true;

    ghost JOINS = { true };

    ghost use Rattle.std.specs.Int.Bits.{or_comm, or_self};
    ghost use Rattle.uses.specs.Bits.{or_assoc};

    ghost join = { λ one other. union one other };

    ghost lawful = { λ _. record {
      commutes = λ d e i. record { bits = or_comm d.bits e.bits i };
      regroups = λ d e f i. record { bits = or_assoc d.bits e.bits f.bits i };
      repeats = λ d i. record { bits = or_self d.bits i };
    } };

    fn new_store(_alloc: Global) -> Result<(), Fault> {
        Ok(())
    }

    fn merge(joined: EdgeDataMerge<ShapeCountBoolean, Owners>, _store: &mut ()) -> Owners
        ensures { result ≡ union joined.lhs_data joined.rhs_data }
    {
        joined.lhs_data.union(joined.rhs_data)
    }
}

/// Who owns the border where two edges come together.
pub fn owners_of_border<I: OverlayInt>(
    one: &Segment<ShapeCountBoolean, I, Owners>,
    other: &Segment<ShapeCountBoolean, I, Owners>,
) -> Owners
    ensures { (n : ℕ) → Owns result n ↔ (Owns one.now.datum n ⊎ Owns other.now.datum n) }
{
    let joined = EdgeDataMerge {
        lhs_data: one.datum,
        rhs_data: other.datum,
        lhs_count: one.count,
        rhs_count: other.count,
    };
    Owners::merge(joined, &mut ())
}
