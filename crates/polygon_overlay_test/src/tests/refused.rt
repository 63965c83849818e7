//! Builders after a refusal: what a source leaves of which one contour is refused, and calls that begin anew after a refused query.

use super::made::{COMMON, shape_of};
use super::{OTHER, SQUARE, add_points, is_contour, overlay_of_squares};
use plane_base::fault::Fault;
use plane_base::path::{IntPath, IntShape, IntShapes};
use plane_base::point::IntPoint;
use plane_base::range::{all_in_range, source_in_range};
use polygon_overlay::overlay::Overlay;
use segment_arrangement::fill_rule::FillRule::NonZero;
use segment_arrangement::overlay_rule::OverlayRule::{Intersect, Subject};
use segment_split::count::ShapeType;
use std::alloc::Global;

// A square of a row, the first one, the second or the third.
fn square_in_row(place: u8) -> [IntPoint<i32>; 4] {
    let x = 20 * i32::from(place);
    [
        IntPoint::new(x, 0),
        IntPoint::new(x + 10, 0),
        IntPoint::new(x + 10, 10),
        IntPoint::new(x, 10),
    ]
}

fn row_of_squares(alloc: Global) -> Result<IntShape<i32>, Fault> {
    let mut contours = Vec::new(alloc);
    for place in 0..3_u8 {
        contours.push(IntPath {
            points: Vec::from_slice(alloc, &square_in_row(place))?,
        })?;
    }
    Ok(IntShape { contours })
}

// Whether a shape is a square of the row, as it is answered.
fn is_in_row(shape: &IntShape<i32>, place: u8) -> bool {
    let [left, right, top_right, top_left] = square_in_row(place);
    match shape.contours.as_slice() {
        [contour] => { contour.points.as_slice() == [top_left, left, right, top_right].as_slice() }
        _ => false,
    }
}

// Whether these are the first squares of the row: all three, or fewer.
fn are_first(shapes: &IntShapes<i32>, are_all: bool) -> bool {
    let mut place = 0_u8;
    for shape in &shapes.shapes {
        if !is_in_row(shape, place) {
            return false;
        }
        place = place.wrapping_add(1);
    }
    (place == 3) == are_all
}

fn add_row(overlay: &mut Overlay<i32>, row: &IntShape<i32>) -> Result<(), Fault> {
    if !source_in_range(row) {
        return Err(Fault::Failed);
    }
    overlay.add_source(row, ShapeType::Subject)
}

// Whether a builder holds the contours before the one that was refused, and all where none was.
fn holds_those_before(alloc: Global) -> Result<bool, Fault> {
    let row = row_of_squares(alloc)?;
    let mut overlay = Overlay::new(alloc, 0)?;
    let added = add_row(&mut overlay, &row);
    let shapes = overlay.overlay(Subject, NonZero)?;
    let is_refused_rightly = added == Ok(()) || added == Err(Fault::Memory);
    Ok(is_refused_rightly && are_first(&shapes, added.is_ok()))
}

// As it runs here nothing is refused. A run that refuses one allocation passes it too.
#[test]
fn growth_of_sources_refused(rt: HostRuntime) {
    let is_held = holds_those_before(rt.alloc());
    assert!(rt; is_held == Ok(true) || is_held == Err(Fault::Memory));
}

// Whether the squares have in common what they should.
fn has_common(overlay: &mut Overlay<i32>) -> Result<bool, Fault> {
    let shapes = overlay.overlay(Intersect, NonZero)?;
    Ok(is_contour(&shapes, &COMMON))
}

// Takes all out, and the squares in again.
fn begin_anew(
    overlay: &mut Overlay<i32>,
    first: &IntShape<i32>,
    second: &IntShape<i32>,
) -> Result<(), Fault> {
    if !source_in_range(first) {
        return Err(Fault::Failed);
    }
    if !source_in_range(second) {
        return Err(Fault::Failed);
    }
    overlay.reinit_with_subj_and_clip(first, second)
}

// Whether a square is perfect as it is.
fn is_perfect(overlay: &mut Overlay<i32>) -> Result<bool, Fault> {
    if !all_in_range(&SQUARE) {
        return Err(Fault::Failed);
    }
    Ok(overlay.simplify_contour(&SQUARE, NonZero)?.is_none())
}

// Whether adders and queries are refused.
fn has_failed(overlay: &mut Overlay<i32>) -> bool {
    let added = add_points(overlay, &SQUARE, ShapeType::Subject);
    added == Err(Fault::Failed) && has_common(overlay) == Err(Fault::Failed)
}

// Whether a query is answered; or it is refused and says so, and so is all after it until a call begins anew. Then the answer comes.
fn bears_refusal(
    overlay: &mut Overlay<i32>,
    first: &IntShape<i32>,
    second: &IntShape<i32>,
    is_simplified: bool,
) -> bool {
    match has_common(overlay) {
        Ok(is_right) => is_right,
        Err(fault) => {
            fault == Fault::Memory
                && has_failed(overlay)
                && (!is_simplified || is_perfect(overlay) == Ok(true))
                && begin_anew(overlay, first, second) == Ok(())
                && has_common(overlay) == Ok(true)
        }
    }
}

// Whether a builder of the squares bears a refusal, or why it isn't made.
fn is_borne(alloc: Global, is_simplified: bool) -> Result<bool, Fault> {
    let first = shape_of(alloc, &SQUARE)?;
    let second = shape_of(alloc, &OTHER)?;
    let mut overlay = overlay_of_squares(alloc)?;
    Ok(bears_refusal(&mut overlay, &first, &second, is_simplified))
}

// As it runs here nothing is refused. A run that refuses one allocation passes it too.
#[test]
fn growth_before_anew_refused(rt: HostRuntime) {
    for is_simplified in [false, true] {
        let is_right = is_borne(rt.alloc(), is_simplified);
        assert!(rt; is_right == Ok(true) || is_right == Err(Fault::Memory));
    }
}
