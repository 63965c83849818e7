//! Points in what calls answer: rows worked out by hand.

use super::location::{in_shapes, is_told};
use super::words::{contours_from, fill_from, point_from};
use contour_walk::options::IntOverlayOptions;
use plane_base::fault::Fault;
use plane_base::path::{IntShape, IntShapes};
use plane_base::point::IntPoint;
use plane_base::range::all_contours_in_range;
use polygon_overlay::simplify::Simplify;
use row_words::Words;
use segment_arrangement::fill_rule::FillRule;
use std::alloc::Global;

fn simplified(
    alloc: Global,
    shape: &IntShape<i32>,
    fill: FillRule,
) -> Result<IntShapes<i32>, Fault> {
    if !all_contours_in_range(&shape.contours) {
        return Err(Fault::Failed);
    }
    shape.simplify(alloc, fill, IntOverlayOptions::default())
}

fn in_simplified(
    alloc: Global,
    shape: &IntShape<i32>,
    fill: FillRule,
    points: &[IntPoint<i32>],
) -> Result<Vec<bool>, Fault> {
    let shapes = simplified(alloc, shape, fill)?;
    in_shapes(alloc, &shapes, points)
}

// Whether a row is answered as it says.
fn is_answered(alloc: Global, row: &str) -> bool {
    let mut words = Words::of(alloc, row);
    let fill = fill_from(&mut words);
    let shape = IntShape {
        contours: contours_from(&mut words),
    };
    let points = words.list(point_from);
    let wanted = words.next();
    words.are_read() && is_told(in_simplified(alloc, &shape, fill, &points), wanted)
}

// A row has a fill rule, the contours of a shape, points, and whether each lies inside of the shape simplified. A list stands behind the
// number of its members.
const ROWS: &str = "\
NonZero 2 4 0 0 10 0 10 10 0 10 4 5 5 15 5 15 15 5 15 4 2 2 7 7 12 12 2 12 1110
EvenOdd 2 4 0 0 10 0 10 10 0 10 4 5 5 15 5 15 15 5 15 4 2 2 7 7 12 12 2 12 1010
NonZero 1 4 0 0 10 10 10 0 0 10 4 2 5 8 5 5 2 5 8 1100
Positive 1 4 0 0 10 10 10 0 0 10 4 2 5 8 5 5 2 5 8 1000
";

#[test]
fn locates_points_in_simplified_shapes(rt: HostRuntime) {
    for line in ROWS.lines() {
        assert!(rt; is_answered(rt.alloc(), line), "{line}");
    }
}
