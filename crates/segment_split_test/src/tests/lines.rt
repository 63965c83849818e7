//! Maps of horizontal and vertical edges drawn from a fixed seed, redrawn by their lines as the plain, slow program redraws them.

ghost use Rattle.std.specs.Prelude.{◌≡◌};

use super::drawn::{coordinate, next, redrawn_slowly};
use super::splitting::{are_equal, split_by};
use super::{push_rows, segment_from, segments_from};
use i_tree::Steps;
use plane_base::fault::Fault;
use reference::passes::redraw_given;
use segment_split::count::ShapeCountBoolean;
use segment_split::segment::Segment;
use segment_split::solver::{Precision, Solver};
use std::alloc::Global;
use std::marker::Brand;
use std::sync::ledger::{Blank, Ledger};
use std::test::Fail;

// So many horizontal and vertical segments with few coordinates and any counts, so that overlaps, cancelled stretches and ends on others
// are common.
fn drawn(
    alloc: Global,
    seed: u64,
    count: usize,
) -> Result<Vec<Segment<ShapeCountBoolean, i32, ()>>, Fault> {
    let mut segments = Vec::new(alloc);
    let mut seed = seed;
    for _ in 0..count {
        let second = next(seed);
        let third = next(second);
        let fourth = next(third);
        seed = next(fourth);
        let a = (coordinate(second), coordinate(third));
        let far = coordinate(fourth);
        let b = if (seed >> 40) % 2 == 0 {
            (far, a.1)
        } else {
            (a.0, far)
        };
        if let Some(segment) = segment_from((a, b, coordinate(seed), 1)) {
            segments.push(segment)?;
        }
    }
    Ok(segments)
}

fn redraw_by_lines(
    alloc: Global,
    laid: &mut Vec<Segment<ShapeCountBoolean, i32, ()>>,
    given: &[Segment<ShapeCountBoolean, i32, ()>],
) -> Result<Option<bool>, Fault> {
    redraw_counted::<Brand>(alloc, laid, given, Blank::new(2))
}

fn redraw_counted<L: Ledger>(
    alloc: Global,
    laid: &mut Vec<Segment<ShapeCountBoolean, i32, ()>>,
    given: &[Segment<ShapeCountBoolean, i32, ()>],
    blank: Blank,
) -> Result<Option<bool>, Fault>
    requires name { blank.name ≡ L.name }
    requires parts { blank.parts ≡ L.parts }
    requires two { blank.parts ≡ 2 }
{
    let mut steps = Steps::<L>::new(blank);
    redraw_given(alloc, laid, given, &mut steps)
}

#[test]
fn redraws_by_lines_as_the_slow_program(rt: HostRuntime) -> Result<(), Fail> {
    let alloc = rt.alloc();
    let precisions = [
        Precision::ABSOLUTE,
        Precision::HIGH,
        Precision::MEDIUM_HIGH,
        Precision::MEDIUM,
        Precision::MEDIUM_LOW,
        Precision::LOW,
    ];
    let mut seed = 1;
    for map in 0..2000 {
        seed = next(seed);
        let given = drawn(alloc, seed, 8)?;
        let mut laid = Vec::new(alloc);
        let is_swept = redraw_by_lines(alloc, &mut laid, &given)?.is_some();
        assert!(rt; is_swept, "at map {map}");
        for precision in precisions {
            let wanted = redrawn_slowly(alloc, &given, precision)?;
            assert!(rt; are_equal(&laid, &wanted), "at map {map}");
        }
    }
    Ok(())
}

#[test]
fn auto_redraws_by_lines_as_the_list(rt: HostRuntime) -> Result<(), Fail> {
    let alloc = rt.alloc();
    let mut seed = 1;
    for map in 0..8 {
        seed = next(seed);
        let mut by_lines = drawn(alloc, seed, 200)?;
        let mut by_list = drawn(alloc, seed, 200)?;
        let is_changed = split_by(alloc, &mut by_lines, &Solver::AUTO)?;
        let is_changed_by_list = split_by(alloc, &mut by_list, &Solver::LIST)?;
        assert!(rt; is_changed == is_changed_by_list, "at map {map}");
        assert!(rt; are_equal(&by_lines, &by_list), "at map {map}");
    }
    Ok(())
}

// Squares of side 4, 16 from one to the next, are their own redrawing.
#[test]
fn squares_apart_stay(rt: HostRuntime) -> Result<(), Fail> {
    let alloc = rt.alloc();
    let mut given = Vec::new(alloc);
    for i in 0..20_u8 {
        let x = 16 * i32::from(i);
        push_rows(
            &mut given,
            &[
                ((x, 0), (x, 4), 1, 0),
                ((x, 0), (x + 4, 0), 1, 0),
                ((x, 4), (x + 4, 4), -1, 0),
                ((x + 4, 0), (x + 4, 4), -1, 0),
            ],
        )?;
    }
    let mut laid = Vec::new(alloc);
    let is_marked = redraw_by_lines(alloc, &mut laid, &given)?;
    assert!(rt; is_marked == Some(false));
    assert!(rt; are_equal(&laid, &given));
    Ok(())
}

// So are edges on one line that end where others begin, or apart.
#[test]
fn edges_along_a_line_stay(rt: HostRuntime) -> Result<(), Fail> {
    let alloc = rt.alloc();
    let mut given = Vec::new(alloc);
    for i in 0..64_u8 {
        let x = 16 * i32::from(i);
        push_rows(
            &mut given,
            &[((x, 0), (x + 4, 0), 1, 0), ((x + 4, 0), (x + 7, 0), 1, 0)],
        )?;
    }
    let mut laid = Vec::new(alloc);
    let is_marked = redraw_by_lines(alloc, &mut laid, &given)?;
    assert!(rt; is_marked == Some(false));
    assert!(rt; are_equal(&laid, &given));
    Ok(())
}

// Each of 32 crosses is cut in four, as is a last one that comes behind edges that nothing cuts.
#[test]
fn crosses_are_cut(rt: HostRuntime) -> Result<(), Fail> {
    let alloc = rt.alloc();
    let mut given = Vec::new(alloc);
    for i in 0..32_u8 {
        let x = 16 * i32::from(i);
        push_rows(
            &mut given,
            &[((x, 0), (x + 4, 0), 1, 0), ((x + 2, -2), (x + 2, 2), 0, 1)],
        )?;
    }
    let mut laid = Vec::new(alloc);
    let is_marked = redraw_by_lines(alloc, &mut laid, &given)?;
    assert!(rt; is_marked == Some(true));
    assert!(rt; laid.len() == 128);
    let wanted = redrawn_slowly(alloc, &given, Precision::HIGH)?;
    assert!(rt; are_equal(&laid, &wanted));
    Ok(())
}

// A line of which the counts cancel cuts a vertical edge all the same: an end lies inside one of its edges.
#[test]
fn cancelled_lines_cut(rt: HostRuntime) -> Result<(), Fail> {
    let alloc = rt.alloc();
    let given = segments_from(
        alloc,
        &[
            ((0, 0), (9, 0), 1, 0),
            ((0, 0), (4, 0), -1, 0),
            ((4, 0), (9, 0), -1, 0),
            ((2, -1), (2, 1), 1, 0),
        ],
    )?;
    let mut laid = Vec::new(alloc);
    let is_marked = redraw_by_lines(alloc, &mut laid, &given)?;
    assert!(rt; is_marked == Some(true));
    let wanted = segments_from(alloc, &[((2, -1), (2, 0), 1, 0), ((2, 0), (2, 1), 1, 0)])?;
    assert!(rt; are_equal(&laid, &wanted));
    Ok(())
}
