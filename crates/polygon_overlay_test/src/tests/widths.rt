//! Masks that the engine checks for widths and spaces, by fill rules and options: rows worked out by hand.

use super::words::{contours_from, fill_from, options_from, shapes_from};
use contour_walk::options::IntOverlayOptions;
use plane_base::fault::Fault;
use plane_base::path::{IntShape, IntShapes};
use plane_base::range::source_in_range;
use polygon_overlay::checks::{evenly, is_side, space_errors, width_errors};
use polygon_overlay::sizing::{Sizing, are_rectilinear, fits};
use row_words::Words;
use segment_arrangement::fill_rule::FillRule;
use segment_split::solver::Solver;
use std::alloc::Global;

// Whether a source can be checked for a side.
fn is_checkable(source: &IntShape<i32>, side: i32) -> bool {
    source_in_range(source)
        && are_rectilinear(source)
        && is_side(side)
        && fits(source, evenly(side))
}

// Where the region of a source is narrower than a width, by the default solver. There is none where that can't be checked.
fn narrow(
    alloc: Global,
    source: &IntShape<i32>,
    fill_rule: FillRule,
    width: i32,
    options: IntOverlayOptions,
) -> Result<Option<IntShapes<i32>>, Fault> {
    if !source_in_range(source) {
        return Ok(None);
    }
    if !are_rectilinear(source) {
        return Ok(None);
    }
    if !is_side(width) {
        return Ok(None);
    }
    if !fits(source, evenly(width)) {
        return Ok(None);
    }
    let solver = Solver::default();
    Ok(Some(width_errors(alloc, source, fill_rule, width, options, solver)?))
}

// Where it is nearer to itself than a space.
fn near(
    alloc: Global,
    source: &IntShape<i32>,
    fill_rule: FillRule,
    space: i32,
    options: IntOverlayOptions,
) -> Result<Option<IntShapes<i32>>, Fault> {
    if !source_in_range(source) {
        return Ok(None);
    }
    if !are_rectilinear(source) {
        return Ok(None);
    }
    if !is_side(space) {
        return Ok(None);
    }
    if !fits(source, evenly(space)) {
        return Ok(None);
    }
    let solver = Solver::default();
    Ok(Some(space_errors(alloc, source, fill_rule, space, options, solver)?))
}

// Whether contours have the errors of a row.
fn is_checked(alloc: Global, row: &str) -> bool {
    let mut words = Words::of(alloc, row);
    let is_width = words.next() == "width";
    let options = options_from(&mut words);
    let fill_rule = fill_from(&mut words);
    let side = words.coordinate();
    let contours = contours_from(&mut words);
    let source = IntShape { contours };
    let wanted = shapes_from(&mut words);
    let found = if is_width {
        narrow(alloc, &source, fill_rule, side, options)
    } else {
        near(alloc, &source, fill_rule, side, options)
    };
    words.are_read() && found == Ok(Some(wanted))
}

// A row has what is asked for, options and a fill rule, a side, contours, and the shapes of what is told.
const ROWS: &str = "\
# a bar 4 wide, and turned the other way
width corners NonZero 4 1 4 0 0 4 0 4 20 0 20 0
width corners NonZero 5 1 4 0 0 4 0 4 20 0 20 1 1 4 0 20 0 0 4 0 4 20
width clockwise NonZero 5 1 4 0 0 4 0 4 20 0 20 1 1 4 0 0 0 20 4 20 4 0
# which regions of it there are, a fill rule says
width corners Positive 5 1 4 0 0 0 20 4 20 4 0 0
width corners Negative 5 1 4 0 0 0 20 4 20 4 0 1 1 4 0 20 0 0 4 0 4 20
# a square in a square: one region, or a frame 4 wide
width corners NonZero 5 2 4 0 0 10 0 10 10 0 10 4 4 4 6 4 6 6 4 6 0
width corners EvenOdd 4 2 4 0 0 10 0 10 10 0 10 4 4 4 6 4 6 6 4 6 0
width corners EvenOdd 5 2 4 0 0 10 0 10 10 0 10 4 4 4 6 4 6 6 4 6 1 2 4 0 10 0 0 10 0 10 10 4 4 4 4 6 6 6 6 4
space corners EvenOdd 2 2 4 0 0 10 0 10 10 0 10 4 4 4 6 4 6 6 4 6 0
space corners EvenOdd 3 2 4 0 0 10 0 10 10 0 10 4 4 4 6 4 6 6 4 6 1 1 4 4 6 4 4 6 4 6 6
# two arms 2 wide of a square, an even side and an odd one
width corners NonZero 2 1 12 0 4 10 4 10 0 20 0 20 4 30 4 30 6 20 6 20 10 10 10 10 6 0 6 0
width corners NonZero 3 1 12 0 4 10 4 10 0 20 0 20 4 30 4 30 6 20 6 20 10 10 10 10 6 0 6 2 1 4 0 6 0 4 10 4 10 6 1 4 20 6 20 4 30 4 30 6
width corners NonZero 10 1 12 0 4 10 4 10 0 20 0 20 4 30 4 30 6 20 6 20 10 10 10 10 6 0 6 2 1 4 0 6 0 4 10 4 10 6 1 4 20 6 20 4 30 4 30 6
# two bars 3 wide that meet in a corner
width corners NonZero 3 1 6 0 0 20 0 20 3 3 3 3 20 0 20 0
width corners NonZero 4 1 6 0 0 20 0 20 3 3 3 3 20 0 20 1 1 6 0 20 0 0 20 0 20 3 3 3 3 20
# the space inside of them is open
space corners NonZero 90 1 6 0 0 20 0 20 3 3 3 3 20 0 20 0
# squares that lie on each other are one region, and have no space between
space corners NonZero 9 2 4 0 0 10 0 10 10 0 10 4 10 0 20 0 20 10 10 10 0
# bars 3 apart, of other lengths
space corners NonZero 3 2 4 0 0 2 0 2 20 0 20 4 5 5 7 5 7 9 5 9 0
space corners NonZero 4 2 4 0 0 2 0 2 20 0 20 4 5 5 7 5 7 9 5 9 1 1 4 2 9 2 5 5 5 5 9
# corners that face each other diagonally, and corners that touch
space corners NonZero 9 2 4 0 0 10 0 10 10 0 10 4 11 11 20 11 20 20 11 20 0
width corners NonZero 9 2 4 0 0 10 0 10 10 0 10 4 10 10 20 10 20 20 10 20 0
# nothing
width corners NonZero 5 0 0
space corners NonZero 5 0 0
";

#[test]
fn checks_rows_by_rules(rt: HostRuntime) {
    for line in ROWS.lines() {
        if !line.starts_with("#") {
            assert!(rt; is_checked(rt.alloc(), line), "{line}");
        }
    }
}

// Whether contours can be checked for a side, as a row says.
fn is_told(alloc: Global, row: &str) -> bool {
    let mut words = Words::of(alloc, row);
    let side = words.coordinate();
    let contours = contours_from(&mut words);
    let source = IntShape { contours };
    let is_wanted = words.next() == "checked";
    let is_right = is_checkable(&source, side) == is_wanted;
    words.are_read() && is_right
}

// A row has a side, contours, and whether they can be checked for it.
const TOLD: &str = "\
1 1 4 0 0 10 0 10 10 0 10 checked
0 1 4 0 0 10 0 10 10 0 10 unchecked
-1 0 unchecked
524287 0 checked
524288 0 unchecked
2147483647 0 unchecked
-2147483648 0 unchecked
524277 1 4 0 0 10 0 10 10 0 10 checked
524278 1 4 0 0 10 0 10 10 0 10 unchecked
8 1 4 -524280 0 0 0 0 1 -524280 1 checked
9 1 4 -524280 0 0 0 0 1 -524280 1 unchecked
9 1 4 0 -524280 1 -524280 1 0 0 0 unchecked
8 1 4 0 0 1 0 1 524280 0 524280 unchecked
7 1 4 0 0 1 0 1 524280 0 524280 checked
1 1 3 0 0 10 0 10 10 unchecked
1 1 1 524288 0 unchecked
";

#[test]
fn tells_what_can_be_checked(rt: HostRuntime) {
    for line in TOLD.lines() {
        assert!(rt; is_told(rt.alloc(), line), "{line}");
    }
}

#[test]
fn moves_all_sides_evenly(rt: HostRuntime) {
    let wanted = Sizing {
        left: 7,
        right: 7,
        bottom: 7,
        top: 7,
    };
    assert!(rt; evenly(7) == wanted);
}
