//! Regions that are grown and shrunk: rows worked out by hand, and what can be sized.

use super::words::{contours_from, fill_from, options_from, shapes_from};
use contour_walk::options::IntOverlayOptions;
use plane_base::fault::Fault;
use plane_base::path::{IntShape, IntShapes};
use plane_base::range::source_in_range;
use polygon_overlay::sizing::{Sizing, are_rectilinear, fits, fits_in_turn, sized, sized_in_turn};
use row_words::Words;
use segment_arrangement::fill_rule::FillRule;
use segment_split::solver::Solver;
use std::alloc::Global;

fn amounts_from(words: &mut Words<'_>) -> Sizing<i32> {
    let left = words.coordinate();
    let right = words.coordinate();
    let bottom = words.coordinate();
    let top = words.coordinate();
    Sizing {
        left,
        right,
        bottom,
        top,
    }
}

// The region of a source, sized by the default solver. There is none where the source can't be sized so.
fn sized_if_it_can_be(
    alloc: Global,
    source: &IntShape<i32>,
    fill_rule: FillRule,
    by: Sizing<i32>,
    options: IntOverlayOptions,
) -> Result<Option<IntShapes<i32>>, Fault> {
    if !source_in_range(source) {
        return Ok(None);
    }
    if !are_rectilinear(source) {
        return Ok(None);
    }
    if !fits(source, by) {
        return Ok(None);
    }
    let solver = Solver::default();
    Ok(Some(sized(alloc, source, fill_rule, by, options, solver)?))
}

// Whether contours are sized as a row says.
fn is_sized(alloc: Global, row: &str) -> bool {
    let mut words = Words::of(alloc, row);
    let options = options_from(&mut words);
    let fill_rule = fill_from(&mut words);
    let by = amounts_from(&mut words);
    let contours = contours_from(&mut words);
    let source = IntShape { contours };
    let wanted = shapes_from(&mut words);
    let found = sized_if_it_can_be(alloc, &source, fill_rule, by, options);
    words.are_read() && found == Ok(Some(wanted))
}

// A row has options and a fill rule, the amounts of left, right, bottom and top, contours, and the shapes of the sized region.
const ROWS: &str = "\
# each side by its own amount
corners NonZero 1 2 3 4 1 4 0 0 10 0 10 10 0 10 1 1 4 -1 14 -1 -3 12 -3 12 14
# a hole that is grown over: moved in both ways at once it would turn round twice, and stay
corners NonZero 1 1 1 1 2 4 0 0 10 0 10 10 0 10 4 4 4 4 5 5 5 5 4 1 1 4 -1 11 -1 -1 11 -1 11 11
# a bar shrunk by more than it is wide: NonZero would answer what is turned round
corners NonZero -1 -1 -1 -1 1 4 0 0 1 0 1 4 0 4 0
corners NonZero -1 -1 -1 -1 1 4 0 0 1 0 1 1 0 1 0
# a way there and back is no part of the region, and doesn't grow
corners NonZero 1 1 0 0 1 9 0 0 4 0 4 1 9 1 9 3 9 1 4 1 4 4 0 4 1 1 4 -1 4 -1 0 5 0 5 4
# a bar 4 wide keeps a square of 4 by 4, and none of 5 by 5
corners NonZero -1 -2 -1 -2 1 4 0 0 4 0 4 20 0 20 1 1 4 1 18 1 1 2 1 2 18
corners NonZero -2 -2 -2 -2 1 4 0 0 4 0 4 20 0 20 0
# a gap of 4, grown by 3 in all, and by 4
corners NonZero 1 2 1 2 2 4 0 0 10 0 10 10 0 10 4 14 0 24 0 24 10 14 10 2 1 4 -1 12 -1 -1 12 -1 12 12 1 4 13 12 13 -1 26 -1 26 12
corners NonZero 2 2 2 2 2 4 0 0 10 0 10 10 0 10 4 14 0 24 0 24 10 14 10 1 1 4 -2 12 -2 -2 26 -2 26 12
# squares side by side are one region
corners NonZero -1 -1 -1 -1 2 4 0 0 4 0 4 4 0 4 4 4 0 8 0 8 4 4 4 1 1 4 1 3 1 1 7 1 7 3
corners NonZero 0 0 0 0 1 4 0 0 10 0 10 10 0 10 1 1 4 0 10 0 0 10 0 10 10
# what two squares cover that overlap, with all points, and turned the other way
points NonZero -2 -2 -2 -2 2 4 0 0 10 0 10 10 0 10 4 5 5 15 5 15 15 5 15 1 1 8 2 8 2 2 8 2 8 7 13 7 13 13 7 13 7 8
clockwise EvenOdd 1 1 1 1 1 4 0 0 10 0 10 10 0 10 1 1 4 -1 -1 -1 11 11 11 11 -1
";

#[test]
fn sizes_rows(rt: HostRuntime) {
    for line in ROWS.lines() {
        if !line.starts_with("#") {
            assert!(rt; is_sized(rt.alloc(), line), "{line}");
        }
    }
}

// The region of a source, sized twice by the default solver. There is none where the source can't be sized so.
fn sized_in_turn_if_it_can_be(
    alloc: Global,
    source: &IntShape<i32>,
    fill_rule: FillRule,
    first: Sizing<i32>,
    second: Sizing<i32>,
    options: IntOverlayOptions,
) -> Result<Option<IntShapes<i32>>, Fault> {
    if !source_in_range(source) {
        return Ok(None);
    }
    if !are_rectilinear(source) {
        return Ok(None);
    }
    if !fits_in_turn(source, first, second) {
        return Ok(None);
    }
    let solver = Solver::default();
    Ok(Some(sized_in_turn(alloc, source, fill_rule, first, second, options, solver)?))
}

// Whether contours are sized twice as a row says.
fn is_sized_in_turn(alloc: Global, row: &str) -> bool {
    let mut words = Words::of(alloc, row);
    let options = options_from(&mut words);
    let fill_rule = fill_from(&mut words);
    let first = amounts_from(&mut words);
    let second = amounts_from(&mut words);
    let contours = contours_from(&mut words);
    let source = IntShape { contours };
    let wanted = shapes_from(&mut words);
    let found = sized_in_turn_if_it_can_be(alloc, &source, fill_rule, first, second, options);
    words.are_read() && found == Ok(Some(wanted))
}

// A row has options and a fill rule, the amounts of left, right, bottom and top, and those by which it is sized again, contours, and the shapes.
const ROWS_IN_TURN: &str = "\
# a gap of 4 is closed by 2, and stays by 1
corners NonZero 2 2 2 2 -2 -2 -2 -2 2 4 0 0 10 0 10 10 0 10 4 14 0 24 0 24 10 14 10 1 1 4 0 10 0 0 24 0 24 10
corners NonZero 1 1 1 1 -1 -1 -1 -1 2 4 0 0 10 0 10 10 0 10 4 14 0 24 0 24 10 14 10 2 1 4 0 10 0 0 10 0 10 10 1 4 14 10 14 0 24 0 24 10
# a bar 4 wide is opened by 1, and gone by 2
corners NonZero -1 -1 -1 -1 1 1 1 1 1 4 0 0 4 0 4 20 0 20 1 1 4 0 20 0 0 4 0 4 20
corners NonZero -2 -2 -2 -2 2 2 2 2 1 4 0 0 4 0 4 20 0 20 0
# amounts that are exchanged on the way back move what they close
corners NonZero 1 2 0 0 -2 -1 0 0 1 4 0 0 10 0 10 10 0 10 1 1 4 1 10 1 0 11 0 11 10
# a region that winds twice where two squares overlap
corners NonZero 1 1 1 1 -1 -1 -1 -1 2 4 0 0 10 0 10 10 0 10 4 5 0 15 0 15 10 5 10 1 1 4 0 10 0 0 15 0 15 10
";

#[test]
fn sizes_rows_in_turn(rt: HostRuntime) {
    for line in ROWS_IN_TURN.lines() {
        if !line.starts_with("#") {
            assert!(rt; is_sized_in_turn(rt.alloc(), line), "{line}");
        }
    }
}

// Whether contours can be sized twice by amounts, as a row says.
fn is_told_in_turn(alloc: Global, row: &str) -> bool {
    let mut words = Words::of(alloc, row);
    let first = amounts_from(&mut words);
    let second = amounts_from(&mut words);
    let contours = contours_from(&mut words);
    let source = IntShape { contours };
    let are_fitting = words.next() == "fits";
    let is_right = fits_in_turn(&source, first, second) == are_fitting;
    words.are_read() && is_right
}

// A row has amounts, those of the second time, contours, and whether they fit.
const TOLD_IN_TURN: &str = "\
1 1 1 1 1 1 1 1 1 4 0 0 10 0 10 10 0 10 fits
1 1 1 1 1 1 1 1 0 fits
0 1 0 0 0 1 0 0 1 1 524285 0 fits
0 1 0 0 0 1 0 0 1 1 524286 0 beyond
0 1 0 0 0 -1 0 0 1 1 524286 0 fits
0 1 0 0 -1 0 0 0 1 1 524286 0 beyond
1 0 0 0 1 0 0 0 1 1 -524286 0 fits
1 0 0 0 1 0 0 0 1 1 -524287 0 beyond
0 0 1 0 0 0 1 0 1 1 0 -524287 beyond
0 0 0 1 0 0 0 1 1 1 0 524286 beyond
";

#[test]
fn tells_what_can_be_sized_in_turn(rt: HostRuntime) {
    for line in TOLD_IN_TURN.lines() {
        assert!(rt; is_told_in_turn(rt.alloc(), line), "{line}");
    }
}

// Whether contours can be sized by amounts, as a row says.
fn is_told(alloc: Global, row: &str) -> bool {
    let mut words = Words::of(alloc, row);
    let by = amounts_from(&mut words);
    let contours = contours_from(&mut words);
    let source = IntShape { contours };
    let are_straight = words.next() == "straight";
    let are_fitting = words.next() == "fits";
    let is_right = are_rectilinear(&source) == are_straight && fits(&source, by) == are_fitting;
    words.are_read() && is_right
}

// A row has amounts, contours, whether all their steps are horizontal or vertical, and whether they fit.
const TOLD: &str = "\
1 1 1 1 1 4 0 0 10 0 10 10 0 10 straight fits
1 1 1 1 2 4 0 0 10 0 10 10 0 10 3 20 0 30 0 20 1 slanted fits
1 1 1 1 1 3 0 0 10 0 10 10 slanted fits
1 1 1 1 1 1 3 4 straight fits
1 1 1 1 1 0 straight fits
0 0 0 0 1 4 524286 0 524287 0 524287 1 524286 1 straight fits
0 1 0 0 1 4 524286 0 524287 0 524287 1 524286 1 straight beyond
1 0 0 0 1 4 524286 0 524287 0 524287 1 524286 1 straight fits
-1 0 0 0 1 4 524286 0 524287 0 524287 1 524286 1 straight beyond
1 0 0 0 1 4 -524288 0 0 0 0 1 -524288 1 straight beyond
0 0 1 0 1 4 0 -524288 1 -524288 1 0 0 0 straight beyond
0 0 0 1 1 4 0 524286 1 524286 1 524287 0 524287 straight beyond
0 0 0 -1 1 4 0 -524288 1 -524288 1 0 0 0 straight beyond
";

#[test]
fn tells_what_can_be_sized(rt: HostRuntime) {
    for line in TOLD.lines() {
        assert!(rt; is_told(rt.alloc(), line), "{line}");
    }
}
