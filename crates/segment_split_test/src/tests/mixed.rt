//! Maps in which a few slanted segments stand among horizontal and vertical ones, redrawn by `Auto` as by the list.

use super::drawn::next;
use super::splitting::{are_equal, split_by};
use super::{push_rows, segment_from, segments_from};
use plane_base::fault::Fault;
use segment_split::count::ShapeCountBoolean;
use segment_split::segment::Segment;
use segment_split::solver::{Precision, Solver, Strategy};
use std::alloc::Global;
use std::test::Fail;

const PRECISIONS: [Precision; 6] = [
    Precision::ABSOLUTE,
    Precision::HIGH,
    Precision::MEDIUM_HIGH,
    Precision::MEDIUM,
    Precision::MEDIUM_LOW,
    Precision::LOW,
];

// 32 horizontal segments over 32 vertical ones, right of x = 50: they cross so often that `Auto` sweeps over their lines.
fn push_grid(segments: &mut Vec<Segment<ShapeCountBoolean, i32, ()>>) -> Result<(), Fault> {
    for i in 0..32_u8 {
        let at = 100 + 2 * i32::from(i);
        push_rows(
            segments,
            &[((99, at), (163, at), 1, 0), ((at, 99), (at, 163), 0, 1)],
        )?;
    }
    Ok(())
}

// What lies left of x = 50.
fn left_of_grid(
    alloc: Global,
    segments: &[Segment<ShapeCountBoolean, i32, ()>],
) -> Result<Vec<Segment<ShapeCountBoolean, i32, ()>>, Fault> {
    let mut left = Vec::new(alloc);
    for segment in segments {
        if segment.x_segment.b.x < 50 {
            left.push(*segment)?;
        }
    }
    Ok(left)
}

fn redraw_by(
    alloc: Global,
    given: &[Segment<ShapeCountBoolean, i32, ()>],
    solver: Solver,
) -> Result<(Vec<Segment<ShapeCountBoolean, i32, ()>>, bool), Fault> {
    let mut segments = Vec::new(alloc);
    for segment in given {
        segments.push(*segment)?;
    }
    let is_changed = split_by(alloc, &mut segments, &solver)?;
    Ok((segments, is_changed))
}

// Whether `Auto` redraws as the list does, at each precision.
fn is_redrawn_alike(
    alloc: Global,
    given: &[Segment<ShapeCountBoolean, i32, ()>],
) -> Result<bool, Fault> {
    for precision in PRECISIONS {
        let auto = Solver::with_strategy_and_precision(Strategy::Auto, precision);
        let list = Solver::with_strategy_and_precision(Strategy::List, precision);
        let (segments, is_changed) = redraw_by(alloc, given, auto)?;
        let (wanted, is_changed_by_list) = redraw_by(alloc, given, list)?;
        if is_changed != is_changed_by_list || !are_equal(&segments, &wanted) {
            return Ok(false);
        }
    }
    Ok(true)
}

// (1, 1) to (6, 1) is marked at (4, 1) in the first pass, to which its crossing goes; (2, 1) to (5, 1) only in the second, since its own crossing
// goes to (5, 1).
#[test]
fn bends_one_of_two_on_a_line(rt: HostRuntime) -> Result<(), Fail> {
    let alloc = rt.alloc();
    let mut given = segments_from(
        alloc,
        &[
            ((1, 6), (5, 0), 1, 0),
            ((1, 1), (6, 1), 1, 0),
            ((2, 1), (5, 1), 1, 0),
        ],
    )?;
    push_grid(&mut given)?;
    let (segments, is_changed) = redraw_by(alloc, &given, Solver::AUTO)?;
    assert!(rt; is_changed);
    let wanted = segments_from(
        alloc,
        &[
            ((1, 1), (2, 1), 1, 0),
            ((1, 6), (4, 1), 1, 0),
            ((2, 1), (4, 1), 2, 0),
            ((4, 1), (5, 1), 3, 0),
            ((5, 0), (5, 1), -1, 0),
            ((5, 1), (6, 1), 1, 0),
        ],
    )?;
    assert!(rt; are_equal(&left_of_grid(alloc, &segments)?, &wanted));
    assert!(rt; is_redrawn_alike(alloc, &given)?);
    Ok(())
}

// Pieces that cancel cut a vertical segment all the same, at (4, 3).
#[test]
fn pieces_that_cancel_cut(rt: HostRuntime) -> Result<(), Fail> {
    let alloc = rt.alloc();
    let mut given = segments_from(
        alloc,
        &[
            ((1, 3), (4, 3), 1, 0),
            ((0, 3), (4, 3), -1, 0),
            ((4, 0), (4, 4), 1, 0),
            ((1, 2), (2, 3), 1, 0),
        ],
    )?;
    push_grid(&mut given)?;
    let (segments, is_changed) = redraw_by(alloc, &given, Solver::AUTO)?;
    assert!(rt; is_changed);
    let wanted = segments_from(
        alloc,
        &[
            ((0, 3), (1, 3), -1, 0),
            ((1, 2), (2, 3), 1, 0),
            ((4, 0), (4, 3), 1, 0),
            ((4, 3), (4, 4), 1, 0),
        ],
    )?;
    assert!(rt; are_equal(&left_of_grid(alloc, &segments)?, &wanted));
    assert!(rt; is_redrawn_alike(alloc, &given)?);
    Ok(())
}

// At `Precision::MEDIUM` (4, 8) to (7, 8) and a piece of the longer horizontal segment aren't parted after the first pass.
#[test]
fn pieces_of_what_is_bent_are_looked_at_again(rt: HostRuntime) -> Result<(), Fail> {
    let alloc = rt.alloc();
    let mut given = segments_from(
        alloc,
        &[
            ((2, 11), (7, 7), 1, 0),
            ((3, 8), (15, 8), 1, 0),
            ((4, 8), (7, 8), 1, 0),
        ],
    )?;
    push_grid(&mut given)?;
    assert!(rt; is_redrawn_alike(alloc, &given)?);
    Ok(())
}

// A coordinate below 64.
fn coordinate(seed: u64) -> i32 {
    ((seed >> 33) % 64) as i32
}

// So many horizontal and vertical segments, and behind each twelfth a slanted one, with any counts.
fn drawn(
    alloc: Global,
    seed: u64,
    count: usize,
) -> Result<Vec<Segment<ShapeCountBoolean, i32, ()>>, Fault> {
    let mut segments = Vec::new(alloc);
    let mut seed = seed;
    for i in 0..count {
        let second = next(seed);
        let third = next(second);
        let fourth = next(third);
        seed = next(fourth);
        let a = (coordinate(second), coordinate(third));
        let far = (coordinate(fourth), coordinate(seed));
        let b = if i % 12 == 0 {
            far
        } else if i % 2 == 0 {
            (far.0, a.1)
        } else {
            (a.0, far.1)
        };
        if let Some(segment) = segment_from((a, b, coordinate(next(seed)) % 5 - 2, 1)) {
            segments.push(segment)?;
        }
    }
    Ok(segments)
}

#[test]
fn auto_redraws_mixed_maps_as_the_list(rt: HostRuntime) -> Result<(), Fail> {
    let alloc = rt.alloc();
    let mut seed = 1;
    for map in 0..12 {
        seed = next(seed);
        for count in [70, 120, 240] {
            let given = drawn(alloc, seed, count)?;
            assert!(rt; is_redrawn_alike(alloc, &given)?, "at map {map}");
        }
    }
    Ok(())
}
