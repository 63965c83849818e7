//! Segments redrawn, worked out by hand.

ghost use Rattle.std.specs.Prelude.{◌≡◌};

use super::{Row, segments_from};
use i_tree::Steps;
use plane_base::fault::Fault;
use segment_split::count::ShapeCountBoolean;
use segment_split::segment::Segment;
use segment_split::solver::Solver;
use segment_split::split::{SplitSolver, can_be_split};
use std::alloc::Global;
use std::marker::Brand;
use std::sync::ledger::{Blank, Ledger};
use std::test::Fail;

// Splits by the list.
fn split(
    alloc: Global,
    segments: &mut Vec<Segment<ShapeCountBoolean, i32, ()>>,
) -> Result<bool, Fault> {
    split_by(alloc, segments, &Solver::LIST)
}

pub(super) fn split_by(
    alloc: Global,
    segments: &mut Vec<Segment<ShapeCountBoolean, i32, ()>>,
    solver: &Solver,
) -> Result<bool, Fault> {
    split_counted::<Brand>(alloc, segments, solver, Blank::new(2))
}

fn split_counted<L: Ledger>(
    alloc: Global,
    segments: &mut Vec<Segment<ShapeCountBoolean, i32, ()>>,
    solver: &Solver,
    blank: Blank,
) -> Result<bool, Fault>
    requires name { blank.name ≡ L.name }
    requires parts { blank.parts ≡ L.parts }
    requires two { blank.parts ≡ 2 }
{
    if !can_be_split(segments) {
        return Err(Fault::Failed);
    }
    let mut steps = Steps::<L>::new(blank);
    SplitSolver::new(alloc).split_segments(segments, solver, &mut steps)
}

// Whether two lists have the same ends and counts.
pub(super) fn are_equal(
    one: &[Segment<ShapeCountBoolean, i32, ()>],
    other: &[Segment<ShapeCountBoolean, i32, ()>],
) -> bool {
    one.len() == other.len()
        && one
            .iter()
            .zip(other.iter())
            .all(|(s, t)| s == t && s.count == t.count)
}

// A contour that crosses itself off the grid.
pub(super) const BOW_TIE: [Row; 4] = [
    ((0, 0), (3, 3), 1, 0),
    ((3, 3), (3, 0), 1, 0),
    ((3, 0), (0, 3), 1, 0),
    ((0, 3), (0, 0), 1, 0),
];

// What it is redrawn to.
pub(super) const HALVES: [Row; 6] = [
    ((0, 0), (0, 3), -1, 0),
    ((0, 0), (2, 2), 1, 0),
    ((0, 3), (2, 2), -1, 0),
    ((2, 2), (3, 0), -1, 0),
    ((2, 2), (3, 3), 1, 0),
    ((3, 0), (3, 3), -1, 0),
];

#[test]
fn cuts_a_bow_tie(rt: HostRuntime) -> Result<(), Fail> {
    let alloc = rt.alloc();
    let wanted = segments_from(alloc, &HALVES)?;
    for solver in [Solver::LIST, Solver::TREE, Solver::FRAG, Solver::AUTO] {
        let mut segments = segments_from(alloc, &BOW_TIE)?;
        assert!(rt; split_by(alloc, &mut segments, &solver)?);
        assert!(rt; are_equal(&segments, &wanted));
    }
    Ok(())
}

#[test]
fn begins_without_passes(rt: HostRuntime) {
    let splitter: SplitSolver<i32> = SplitSolver::new(rt.alloc());
    assert_eq!(rt; splitter.passes(), 0);
}

// The crossing at (1, 1/10) goes to (0, 0), and the vertical segment is turned there.
#[test]
fn turns_a_step(rt: HostRuntime) -> Result<(), Fail> {
    let alloc = rt.alloc();
    let mut segments = segments_from(alloc, &[((0, 0), (10, 1), 1, 0), ((1, -8), (1, 8), 1, 0)])?;
    let is_changed = split(alloc, &mut segments)?;
    let wanted = segments_from(
        alloc,
        &[
            ((1, -8), (0, 0), 1, 0),
            ((0, 0), (1, 8), 1, 0),
            ((0, 0), (10, 1), 1, 0),
        ],
    )?;
    assert!(rt; is_changed);
    assert!(rt; are_equal(&segments, &wanted));
    Ok(())
}

#[test]
fn drops_what_cancels(rt: HostRuntime) -> Result<(), Fail> {
    let alloc = rt.alloc();
    let mut segments = segments_from(alloc, &[((0, 0), (5, 0), 1, 0), ((0, 0), (5, 0), -1, 0)])?;
    let is_changed = split(alloc, &mut segments)?;
    assert!(rt; is_changed);
    assert!(rt; segments.is_empty());
    Ok(())
}

#[test]
fn joins_up_to_the_greatest_count(rt: HostRuntime) -> Result<(), Fail> {
    let alloc = rt.alloc();
    let mut segments = segments_from(
        alloc,
        &[((0, 0), (1, 0), 2147483646, 0), ((0, 0), (1, 0), 1, 0)],
    )?;
    let is_changed = split(alloc, &mut segments)?;
    let wanted = segments_from(alloc, &[((0, 0), (1, 0), 2147483647, 0)])?;
    assert!(rt; is_changed);
    assert!(rt; are_equal(&segments, &wanted));
    let mut many = segments_from(
        alloc,
        &[((0, 0), (1, 0), 2147483647, 0), ((0, 0), (1, 0), 1, 0)],
    )?;
    assert!(rt; split(alloc, &mut many) == Err(Fault::Count));
    assert!(rt; many.is_empty());
    Ok(())
}

#[test]
fn cuts_an_overlap_by_each_road(rt: HostRuntime) -> Result<(), Fail> {
    let alloc = rt.alloc();
    let wanted = segments_from(
        alloc,
        &[
            ((0, 0), (80, 0), 1, 0),
            ((0, 1000), (150, 1000), 1, 0),
            ((0, 2000), (150, 2000), 1, 0),
            ((80, 0), (100, 0), 2, 0),
            ((100, 0), (150, 0), 1, 0),
        ],
    )?;
    for solver in [Solver::LIST, Solver::TREE, Solver::FRAG, Solver::AUTO] {
        let mut segments = segments_from(
            alloc,
            &[
                ((0, 0), (100, 0), 1, 0),
                ((80, 0), (150, 0), 1, 0),
                ((0, 1000), (150, 1000), 1, 0),
                ((0, 2000), (150, 2000), 1, 0),
            ],
        )?;
        assert!(rt; split_by(alloc, &mut segments, &solver)?);
        assert!(rt; are_equal(&segments, &wanted));
    }
    Ok(())
}

// All lies at one y, so no buckets are laid out.
#[test]
fn cuts_an_overlap_without_buckets(rt: HostRuntime) -> Result<(), Fail> {
    let alloc = rt.alloc();
    let mut segments = segments_from(alloc, &[((0, 0), (10, 0), 1, 0), ((5, 0), (15, 0), 1, 0)])?;
    let is_changed = split_by(alloc, &mut segments, &Solver::TREE)?;
    let wanted = segments_from(
        alloc,
        &[
            ((0, 0), (5, 0), 1, 0),
            ((5, 0), (10, 0), 2, 0),
            ((10, 0), (15, 0), 1, 0),
        ],
    )?;
    assert!(rt; is_changed);
    assert!(rt; are_equal(&segments, &wanted));
    Ok(())
}
