//! Segments of wide coordinates, redrawn.

ghost use Rattle.std.specs.Prelude.{◌≡◌};

use i_tree::Steps;
use plane_base::fault::Fault;
use plane_base::int::OverlayInt;
use plane_base::point::IntPoint;
use segment_split::count::{ShapeCountBoolean, WindingCount};
use segment_split::segment::Segment;
use segment_split::solver::Solver;
use segment_split::split::{SplitSolver, can_be_split};
use std::alloc::Global;
use std::marker::Brand;
use std::sync::ledger::{Blank, Ledger};
use std::test::Fail;

// One more than the greatest coordinate.
const FAR: i64 = 68_719_476_736;

// A contour that takes more passes than any other that is known, where crossings are drawn to ends ever further off.
const LONG_DRAWN: [(i64, i64); 6] = [
    (-2, FAR - 2),
    (FAR - 2, FAR - 1),
    (FAR - 1, 1),
    (FAR - 3, FAR - 2),
    (FAR - 1, 3),
    (FAR - 4, FAR - 3),
];

// The steps of a contour whose neighbours are different points.
fn segments_of(
    alloc: Global,
    contour: &[(i64, i64)],
) -> Result<Vec<Segment<ShapeCountBoolean, i64, ()>>, Fault> {
    let mut segments = Vec::new(alloc);
    for place in 0..contour.len() {
        let a = contour[place];
        let b = if place + 1 < contour.len() {
            contour[place + 1]
        } else {
            contour[0]
        };
        if let Some(segment) = segment_of(a, b) {
            segments.push(segment)?;
        }
    }
    Ok(segments)
}

fn segment_of(a: (i64, i64), b: (i64, i64)) -> Option<Segment<ShapeCountBoolean, i64, ()>> {
    if a == b {
        return None;
    }
    let from = IntPoint::new(a.0, a.1);
    let to = IntPoint::new(b.0, b.1);
    Some(Segment::new(from, to, ShapeCountBoolean::new(1, 0), (), &mut ()))
}

// Splits segments, and answers how many passes marked.
fn split(
    alloc: Global,
    segments: &mut Vec<Segment<ShapeCountBoolean, i64, ()>>,
    solver: &Solver,
) -> Result<u64, Fault> {
    split_counted::<Brand>(alloc, segments, solver, Blank::new(2))
}

fn split_counted<L: Ledger>(
    alloc: Global,
    segments: &mut Vec<Segment<ShapeCountBoolean, i64, ()>>,
    solver: &Solver,
    blank: Blank,
) -> Result<u64, Fault>
    requires name { blank.name ≡ L.name }
    requires parts { blank.parts ≡ L.parts }
    requires two { blank.parts ≡ 2 }
{
    if !can_be_split(segments) {
        return Err(Fault::Failed);
    }
    let mut steps = Steps::<L>::new(blank);
    let mut splitter = SplitSolver::new(alloc);
    splitter.split_segments(segments, solver, &mut steps)?;
    Ok(splitter.passes())
}

#[test]
fn ends_after_eighty_passes(rt: HostRuntime) -> Result<(), Fail> {
    for solver in [Solver::LIST, Solver::TREE, Solver::FRAG, Solver::AUTO] {
        let mut segments = segments_of(rt.alloc(), &LONG_DRAWN)?;
        assert_eq!(rt; split(rt.alloc(), &mut segments, &solver)?, 80);
    }
    Ok(())
}

// Two diagonals of the whole range cross at (-1/2, -1/2), which goes to (0, 0).
#[test]
fn cuts_diagonals_of_the_range(rt: HostRuntime) -> Result<(), Fail> {
    let alloc = rt.alloc();
    let least = i64::MIN_COORDINATE;
    let greatest = i64::MAX_COORDINATE;
    let bow_tie = [
        (least, least),
        (greatest, greatest),
        (least, greatest),
        (greatest, least),
    ];
    let mut segments = segments_of(alloc, &bow_tie)?;
    split(alloc, &mut segments, &Solver::LIST)?;
    let center = IntPoint::new(0, 0);
    let met = segments
        .iter()
        .filter(|s| s.x_segment.a == center || s.x_segment.b == center)
        .count();
    assert_eq!(rt; segments.len(), 6);
    assert_eq!(rt; met, 4);
    Ok(())
}
