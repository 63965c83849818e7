//! Maps drawn from a fixed seed, redrawn as the plain, slow program does, and what is left where memory is refused.

use super::splitting::{BOW_TIE, HALVES, are_equal, split_by};
use super::{segment_from, segments_from};
use plane_base::fault::Fault;
use reference::passes::{normal_slowly, pass_slowly};
use segment_split::count::ShapeCountBoolean;
use segment_split::segment::Segment;
use segment_split::solver::{Precision, Solver, Strategy};
use segment_split::split::can_be_split;
use std::alloc::Global;
use std::test::Fail;

// The next number of a fixed row, by a multiplication and a sum.
pub(super) fn next(seed: u64) -> u64 {
    seed.wrapping_mul(6364136223846793005)
        .wrapping_add(1442695040888963407)
}

// A coordinate from -4 to 4.
pub(super) fn coordinate(seed: u64) -> i32 {
    (seed >> 33) as i32 % 9 - 4
}

// So many segments with few coordinates, so that ends, overlaps and whole crossings are common.
fn drawn(
    alloc: Global,
    seed: u64,
    count: usize,
) -> Result<Vec<Segment<ShapeCountBoolean, i32, ()>>, Fault> {
    let mut segments = Vec::new(alloc);
    let mut seed = seed;
    for _ in 0..count {
        let second = next(seed);
        let third = next(second);
        let fourth = next(third);
        seed = next(fourth);
        let a = (coordinate(second), coordinate(third));
        let b = (coordinate(fourth), coordinate(seed));
        if let Some(segment) = segment_from((a, b, 1, coordinate(seed))) {
            segments.push(segment)?;
        }
    }
    Ok(segments)
}

// Passes with all pairs looked at, until one leaves the map as it is.
pub(super) fn redrawn_slowly(
    alloc: Global,
    given: &[Segment<ShapeCountBoolean, i32, ()>],
    precision: Precision,
) -> Result<Vec<Segment<ShapeCountBoolean, i32, ()>>, Fault> {
    let mut map = normal_slowly(alloc, given)?;
    for k in 0..100 {
        if !can_be_split(&map) {
            return Err(Fault::Failed);
        }
        let next = pass_slowly(alloc, &map, precision, k)?;
        if are_equal(&map, &next) {
            return Ok(map);
        }
        map = next;
    }
    Err(Fault::Failed)
}

#[test]
fn redraws_as_the_slow_program(rt: HostRuntime) -> Result<(), Fail> {
    let alloc = rt.alloc();
    let precisions = [
        Precision::ABSOLUTE,
        Precision::HIGH,
        Precision::MEDIUM_HIGH,
        Precision::MEDIUM,
        Precision::MEDIUM_LOW,
        Precision::LOW,
    ];
    let mut seed = 1;
    for map in 0..2000 {
        seed = next(seed);
        for precision in precisions {
            let mut segments = drawn(alloc, seed, 6)?;
            let wanted = redrawn_slowly(alloc, &segments, precision)?;
            let solver = Solver::with_strategy_and_precision(Strategy::List, precision);
            let _ = split_by(alloc, &mut segments, &solver)?;
            assert!(rt; are_equal(&segments, &wanted), "at map {map}");
        }
    }
    Ok(())
}

// Before the second pass (1, 1) to (3, 1) has the ends of a segment that the first pass held, and cut: pieces laid it again.
#[test]
fn looks_at_what_is_laid_again(rt: HostRuntime) -> Result<(), Fail> {
    let alloc = rt.alloc();
    let rows = [
        ((3, 1), (0, 3), 1, 0),
        ((0, 3), (1, 1), 1, 0),
        ((1, 1), (3, 1), 1, 0),
        ((0, 3), (2, 4), 1, 0),
        ((2, 4), (3, 0), 1, 0),
        ((3, 0), (0, 3), 1, 0),
    ];
    let mut segments = segments_from(alloc, &rows)?;
    let wanted = redrawn_slowly(alloc, &segments, Precision::ABSOLUTE)?;
    let solver = Solver::with_strategy_and_precision(Strategy::List, Precision::ABSOLUTE);
    let is_changed = split_by(alloc, &mut segments, &solver)?;
    assert!(rt; is_changed);
    assert!(rt; are_equal(&segments, &wanted));
    Ok(())
}

// Whether a bow tie is redrawn to its halves, or refused and nothing left.
fn bears_refusal(alloc: Global, solver: &Solver) -> Result<bool, Fault> {
    let mut segments = segments_from(alloc, &BOW_TIE)?;
    let wanted = segments_from(alloc, &HALVES)?;
    match split_by(alloc, &mut segments, solver) {
        Ok(is_changed) => Ok(is_changed && are_equal(&segments, &wanted)),
        Err(fault) => Ok(fault == Fault::Memory && segments.is_empty()),
    }
}

// As it runs here nothing is refused. A run that refuses the first allocation, or the second and so on, passes it too.
#[test]
fn leaves_nothing_when_refused(rt: HostRuntime) {
    for solver in [Solver::LIST, Solver::TREE, Solver::FRAG, Solver::AUTO] {
        let is_right = bears_refusal(rt.alloc(), &solver);
        assert!(rt; is_right == Ok(true) || is_right == Err(Fault::Memory));
    }
}
