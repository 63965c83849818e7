//! Data that keep to no law: they count in their store, and exchange the halves of what is cut. Ends and fills are those of a run
//! without data.

ghost use Rattle.std.specs.Prelude.{◌≡◌};

use super::are_held;
use super::held::{SOLVERS, lists_border, lists_path, overlay_of};
use super::squares::REDRAWN;
use plane_base::fault::Fault;
use plane_base::int::OverlayInt;
use segment_split::count::ShapeCountBoolean;
use segment_split::data::{EdgeDataMerge, EdgeDataSplit, OverlayEdgeData};
use segment_split::solver::Solver;
use std::alloc::Global;

// A number, and which half of a cut edge it came with.
#[derive(Clone, Copy, Debug, PartialEq, Eq)]
struct Tally {
    number: u32,
    half: u8,
}

impl OverlayEdgeData<ShapeCountBoolean> for Tally {
    // How often data were merged or turned.
    type Store = u32;

    const JOINS: bool = false;

    ghost turns_to = { λ d e. e.half ≡ d.half };

    ghost use Rattle.std.proofs.Common.{rules};

    ghost lawful = { Prim.search rules };

    fn new_store(_alloc: Global) -> Result<u32, Fault> {
        Ok(0)
    }

    fn reversed(self, store: &mut u32) -> Tally {
        *store = store.wrapping_add(1);
        Tally {
            number: *store,
            half: self.half,
        }
    }

    fn split<I: OverlayInt>(self, _cut: EdgeDataSplit<I>, _store: &mut u32) -> (Tally, Tally) {
        let first = Tally {
            number: self.number,
            half: 1,
        };
        let second = Tally {
            number: self.number,
            half: 2,
        };
        (second, first)
    }

    fn merge(_joined: EdgeDataMerge<ShapeCountBoolean, Tally>, store: &mut u32) -> Tally
        ensures { result.half ≡ 0 }
    {
        *store = store.wrapping_add(1);
        Tally {
            number: *store,
            half: 0,
        }
    }
}

// Two squares with this datum: whether their edges are listed, whether they are one shape, and whether what is redrawn is held.
fn is_answered<D: OverlayEdgeData<ShapeCountBoolean>>(
    alloc: Global,
    solver: Solver,
    datum: D,
) -> Result<[bool; 3], Fault> {
    let mut listed = overlay_of(alloc, solver, datum)?;
    let mut shaped = overlay_of(alloc, solver, datum)?;
    let is_listed = lists_border(&mut listed)?;
    let is_path = lists_path(&mut shaped)?;
    let are_redrawn = are_held(&listed, &REDRAWN) && are_held(&shaped, &REDRAWN);
    Ok([is_listed, is_path, are_redrawn])
}

#[test]
fn careless_data_leave_ends_and_fills(rt: HostRuntime) {
    let careless = Tally { number: 0, half: 0 };
    for solver in SOLVERS {
        assert!(rt; is_answered(rt.alloc(), solver, ()) == Ok([true; 3]));
        assert!(rt; is_answered(rt.alloc(), solver, careless) == Ok([true; 3]));
    }
}

// How often data were turned where sides were added, and how often turned or merged once their edges were listed.
fn tallies(alloc: Global, solver: Solver) -> Result<[u32; 2], Fault> {
    let mut overlay = overlay_of(alloc, solver, Tally { number: 0, half: 0 })?;
    let added = *overlay.data_store();
    let _ = lists_border(&mut overlay)?;
    Ok([added, *overlay.data_store()])
}

// Four of the sides run from their greater end. Where the squares overlap data are merged.
fn are_turned_and_merged(found: Result<[u32; 2], Fault>) -> bool {
    let Ok(told) = found else {
        return false;
    };
    told[0] == 4 && told[0] < told[1]
}

#[test]
fn careless_data_are_turned_and_merged(rt: HostRuntime) {
    for solver in SOLVERS {
        assert!(rt; are_turned_and_merged(tallies(rt.alloc(), solver)));
    }
}
