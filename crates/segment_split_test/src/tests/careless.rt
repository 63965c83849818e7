//! Data that keep to no law: they count in their store, and exchange the halves of what is cut. Ends and counts are those of a run without data.

ghost use Rattle.std.specs.Prelude.{◌≡◌};

use super::splitting::{are_equal, split_by};
use super::{Row, segments_from};
use i_tree::Steps;
use plane_base::fault::Fault;
use plane_base::int::OverlayInt;
use plane_base::point::IntPoint;
use segment_split::count::{ShapeCountBoolean, WindingCount};
use segment_split::data::{EdgeDataMerge, EdgeDataSplit, OverlayEdgeData};
use segment_split::segment::Segment;
use segment_split::solver::Solver;
use segment_split::split::{SplitSolver, can_be_split};
use std::alloc::Global;
use std::marker::Brand;
use std::sync::ledger::{Blank, Ledger};
use std::test::Fail;

// A number, and which half of a cut segment it came with.
#[derive(Clone, Copy, Debug, PartialEq, Eq)]
struct Tally {
    number: u32,
    half: u8,
}

impl OverlayEdgeData<ShapeCountBoolean> for Tally {
    // How often data were merged or turned.
    type Store = u32;

    const JOINS: bool = false;

    ghost turns_to = { λ d e. e.half ≡ d.half };

    ghost use Rattle.std.proofs.Common.{rules};

    ghost lawful = { Prim.search rules };

    fn new_store(_alloc: Global) -> Result<u32, Fault> {
        Ok(0)
    }

    fn reversed(self, store: &mut u32) -> Tally {
        *store = store.wrapping_add(1);
        Tally {
            number: *store,
            half: self.half,
        }
    }

    fn split<I: OverlayInt>(self, _cut: EdgeDataSplit<I>, _store: &mut u32) -> (Tally, Tally) {
        let first = Tally {
            number: self.number,
            half: 1,
        };
        let second = Tally {
            number: self.number,
            half: 2,
        };
        (second, first)
    }

    fn merge(_joined: EdgeDataMerge<ShapeCountBoolean, Tally>, store: &mut u32) -> Tally
        ensures { result.half ≡ 0 }
    {
        *store = store.wrapping_add(1);
        Tally {
            number: *store,
            half: 0,
        }
    }
}

// A segment of two different points.
fn tallied(row: Row, store: &mut u32) -> Option<Segment<ShapeCountBoolean, i32, Tally>> {
    let (a, b, subj, clip) = row;
    if a == b || subj == i32::MIN || clip == i32::MIN {
        return None;
    }
    let from = IntPoint::new(a.0, a.1);
    let to = IntPoint::new(b.0, b.1);
    let datum = Tally { number: 0, half: 0 };
    Some(Segment::new(from, to, ShapeCountBoolean::new(subj, clip), datum, store))
}

// Steps without length are left out.
fn all_tallied(
    alloc: Global,
    rows: &[Row],
    store: &mut u32,
) -> Result<Vec<Segment<ShapeCountBoolean, i32, Tally>>, Fault> {
    let mut segments = Vec::new(alloc);
    for row in rows {
        if let Some(segment) = tallied(*row, store) {
            segments.push(segment)?;
        }
    }
    Ok(segments)
}

// Splits the segments, and answers how often data were merged or turned.
fn split_counted<L: Ledger>(
    alloc: Global,
    segments: &mut Vec<Segment<ShapeCountBoolean, i32, Tally>>,
    solver: &Solver,
    blank: Blank,
) -> Result<u32, Fault>
    requires name { blank.name ≡ L.name }
    requires parts { blank.parts ≡ L.parts }
    requires two { blank.parts ≡ 2 }
{
    if !can_be_split(segments) {
        return Err(Fault::Failed);
    }
    let mut store = 0;
    let mut steps = Steps::<L>::new(blank);
    let _ = SplitSolver::new(alloc).split_segments_with_store(
        segments, solver, &mut store, &mut steps,
    )?;
    Ok(store)
}

fn split_tallied(
    alloc: Global,
    segments: &mut Vec<Segment<ShapeCountBoolean, i32, Tally>>,
    solver: &Solver,
) -> Result<u32, Fault> {
    split_counted::<Brand>(alloc, segments, solver, Blank::new(2))
}

// The same ends and counts without data.
fn without_data(
    alloc: Global,
    segments: &[Segment<ShapeCountBoolean, i32, Tally>],
) -> Result<Vec<Segment<ShapeCountBoolean, i32, ()>>, Fault> {
    let mut plain = Vec::new(alloc);
    for segment in segments {
        plain.push(Segment {
            x_segment: segment.x_segment,
            count: segment.count,
            datum: (),
        })?;
    }
    Ok(plain)
}

// How often data were merged or turned, or none where ends and counts aren't those without data.
fn tally_of_split(alloc: Global, rows: &[Row], solver: &Solver) -> Result<Option<u32>, Fault> {
    let mut segments = all_tallied(alloc, rows, &mut 0)?;
    let mut plain = segments_from(alloc, rows)?;
    let tally = split_tallied(alloc, &mut segments, solver)?;
    let _ = split_by(alloc, &mut plain, solver)?;
    let found = without_data(alloc, &segments)?;
    if are_equal(&found, &plain) {
        Ok(Some(tally))
    } else {
        Ok(None)
    }
}

// A square from 0 to 4 as subject and one from 2 to 6 beside it as clip, whose edges overlap; and two that cross off the grid.
const OVERLAPPING: [Row; 8] = [
    ((0, 0), (4, 0), 1, 0),
    ((4, 0), (4, 4), 1, 0),
    ((4, 4), (0, 4), 1, 0),
    ((0, 4), (0, 0), 1, 0),
    ((2, 0), (6, 0), 0, 1),
    ((6, 0), (6, 4), 0, 1),
    ((6, 4), (2, 4), 0, 1),
    ((2, 4), (2, 0), 0, 1),
];

const CROSSING: [Row; 6] = [
    ((0, 0), (7, 3), 1, 0),
    ((7, 3), (0, 5), 1, 0),
    ((0, 5), (0, 0), 1, 0),
    ((3, -1), (5, 6), 0, 1),
    ((5, 6), (1, 4), 0, 1),
    ((1, 4), (3, -1), 0, 1),
];

#[test]
fn careless_data_leave_ends_and_counts(rt: HostRuntime) -> Result<(), Fail> {
    let alloc = rt.alloc();
    for solver in [Solver::LIST, Solver::TREE, Solver::FRAG, Solver::AUTO] {
        let overlapping = tally_of_split(alloc, &OVERLAPPING, &solver)?;
        assert!(rt; overlapping > Some(0));
        assert!(rt; tally_of_split(alloc, &CROSSING, &solver)?.is_some());
    }
    Ok(())
}
