//! Numbers that edges carry, and what they become where edges come to lie on each other: each bit that one has, the least, or the
//! one that all have. Degenerate cases: of the last, numbers that differ become none. Each join takes constant time.

ghost use Rattle.std.specs.Prelude.{◌≡◌, ◌↔◌, ℕ, Option, Some, true};
ghost use Rattle.polygon_c.specs.Joins.{all_bits, lesser, alike};

use polygon_overlay::plane::fault::Fault;
use polygon_overlay::split::count::ShapeCountBoolean;
use polygon_overlay::split::data::{EdgeDataMerge, OverlayEdgeData};
use std::alloc::Global;

// The number of an edge, by how it is joined.
pub(crate) trait Datum: OverlayEdgeData<ShapeCountBoolean> {
    // What a number is carried as, and what a datum tells: a number, unless some that differ were to be kept.
    ghost datum: { ℕ → Self };

    ghost told: { Self → Option ℕ };

    fn of(number: u64) -> Self
        ensures { result ≡ datum number };

    fn number(self) -> Option<u64>
        ensures { result ≡ told self };

    // It joins, and data that are called equal are equal.
    ghost joining: { Self.JOINS ≡ true };

    ghost telling: { (d e : Self) → (Self.eq d e ≡ true) ↔ (d ≡ e) };
}

// A number whose bits are joined: each bit that one of them has.
#[derive(Clone, Copy, Debug, PartialEq, Eq)]
pub(crate) struct Bits {
    bits: u64,
}

impl OverlayEdgeData<ShapeCountBoolean> for Bits {
    type Store = ();

    const JOINS: bool = true;

    ghost JOINS = { true };

    ghost use Rattle.std.specs.Int.Bits.{or_comm, or_self};
    ghost use Rattle.polygon_c.specs.Joins.{or_assoc};

    ghost join = { λ d e. all_bits d e };

    ghost lawful = { λ _. record {
      commutes = λ d e i. record { bits = or_comm d.bits e.bits i };
      regroups = λ d e f i. record { bits = or_assoc d.bits e.bits f.bits i };
      repeats = λ d i. record { bits = or_self d.bits i };
    } };

    fn new_store(_alloc: Global) -> Result<(), Fault> {
        Ok(())
    }

    fn merge(joined: EdgeDataMerge<ShapeCountBoolean, Bits>, _store: &mut ()) -> Bits
        ensures { result ≡ all_bits joined.lhs_data joined.rhs_data }
    {
        Bits {
            bits: joined.lhs_data.bits | joined.rhs_data.bits,
        }
    }
}

impl Datum for Bits {
    ghost use Rattle.std.specs.Prelude.{refl};
    ghost use Rattle.polygon_c.specs.Joins.{bits_told};

    ghost datum = { λ n. record { bits = n } };

    ghost told = { λ d. Some d.bits };

    fn of(number: u64) -> Bits {
        Bits { bits: number }
    }

    fn number(self) -> Option<u64> {
        Some(self.bits)
    }

    ghost joining = { refl };

    ghost telling = { bits_told };
}

// A number of which the least is taken.
#[derive(Clone, Copy, Debug, PartialEq, Eq)]
pub(crate) struct Least {
    number: u64,
}

impl OverlayEdgeData<ShapeCountBoolean> for Least {
    type Store = ();

    const JOINS: bool = true;

    ghost JOINS = { true };

    ghost use Rattle.polygon_c.specs.Joins.{min_commutes, min_regroups, min_repeats};

    ghost join = { λ d e. lesser d e };

    ghost lawful = { λ _. record {
      commutes = λ d e i. record { number = min_commutes d.number e.number i };
      regroups = λ d e f i. record { number = min_regroups d.number e.number f.number i };
      repeats = λ d i. record { number = min_repeats d.number i };
    } };

    fn new_store(_alloc: Global) -> Result<(), Fault> {
        Ok(())
    }

    fn merge(joined: EdgeDataMerge<ShapeCountBoolean, Least>, _store: &mut ()) -> Least
        ensures { result ≡ lesser joined.lhs_data joined.rhs_data }
    {
        Least {
            number: joined.lhs_data.number.min(joined.rhs_data.number),
        }
    }
}

impl Datum for Least {
    ghost use Rattle.std.specs.Prelude.{refl};
    ghost use Rattle.polygon_c.specs.Joins.{least_told};

    ghost datum = { λ n. record { number = n } };

    ghost told = { λ d. Some d.number };

    fn of(number: u64) -> Least {
        Least { number }
    }

    fn number(self) -> Option<u64> {
        Some(self.number)
    }

    ghost joining = { refl };

    ghost telling = { least_told };
}

// A number that is kept where it comes together with its like, and with no other.
#[derive(Clone, Copy, Debug, PartialEq, Eq)]
pub(crate) struct Kept {
    number: Option<u64>,
}

impl OverlayEdgeData<ShapeCountBoolean> for Kept {
    type Store = ();

    const JOINS: bool = true;

    ghost JOINS = { true };

    ghost use Rattle.polygon_c.specs.Joins.{alike_commutes, alike_regroups, alike_repeats};

    ghost join = { λ d e. record { number = alike d.number e.number } };

    ghost lawful = { λ _. record {
      commutes = λ d e i. record { number = alike_commutes d.number e.number i };
      regroups = λ d e f i. record { number = alike_regroups d.number e.number f.number i };
      repeats = λ d i. record { number = alike_repeats d.number i };
    } };

    fn new_store(_alloc: Global) -> Result<(), Fault> {
        Ok(())
    }

    fn merge(joined: EdgeDataMerge<ShapeCountBoolean, Kept>, _store: &mut ()) -> Kept
        ensures { result ≡ record { number = alike joined.lhs_data.number joined.rhs_data.number } }
    {
        Kept {
            number: both(joined.lhs_data.number, joined.rhs_data.number),
        }
    }
}

// The number of both, or none where they differ or one has none.
fn both(one: Option<u64>, other: Option<u64>) -> Option<u64>
    ensures { result ≡ alike one other }
{
    let first = one?;
    let second = other?;
    if first == second { Some(first) } else { None }
}

impl Datum for Kept {
    ghost use Rattle.std.specs.Prelude.{refl};
    ghost use Rattle.polygon_c.specs.Joins.{kept_told};

    ghost datum = { λ n. record { number = Some n } };

    ghost told = { λ d. d.number };

    fn of(number: u64) -> Kept {
        Kept {
            number: Some(number),
        }
    }

    fn number(self) -> Option<u64> {
        self.number
    }

    ghost joining = { refl };

    ghost telling = { kept_told };
}
