//! An answer handed in again: shapes as a call answers them are a source, of which no call asks more than that its points are in range.

use super::add_points;
use plane_base::fault::Fault;
use plane_base::path::{IntPath, IntShapes};
use plane_base::point::IntPoint;
use plane_base::range::{all_in_range, source_in_range};
use polygon_overlay::overlay::Overlay;
use polygon_overlay::relate::IntRelate;
use polygon_overlay::string::clip::IntClip;
use polygon_overlay::string::line::IntLine;
use segment_arrangement::clip_rule::ClipRule;
use segment_arrangement::fill_rule::FillRule::NonZero;
use segment_arrangement::overlay_rule::OverlayRule::{Difference, Subject};
use segment_split::count::ShapeType;
use std::alloc::Global;

const OUTLINE: [IntPoint<i32>; 4] = [
    IntPoint { x: 0, y: 0 },
    IntPoint { x: 30, y: 0 },
    IntPoint { x: 30, y: 30 },
    IntPoint { x: 0, y: 30 },
];

const HOLE: [IntPoint<i32>; 4] = [
    IntPoint { x: 10, y: 10 },
    IntPoint { x: 20, y: 10 },
    IntPoint { x: 20, y: 20 },
    IntPoint { x: 10, y: 20 },
];

const BESIDE: [IntPoint<i32>; 4] = [
    IntPoint { x: 40, y: 0 },
    IntPoint { x: 50, y: 0 },
    IntPoint { x: 50, y: 30 },
    IntPoint { x: 40, y: 30 },
];

const ACROSS: IntLine<i32> = [IntPoint { x: -5, y: 15 }, IntPoint { x: 55, y: 15 }];

const INSIDE: ClipRule = ClipRule {
    invert: false,
    boundary_included: false,
};

// A square with a hole, and a rectangle beside it.
fn answered(alloc: Global) -> Result<IntShapes<i32>, Fault> {
    let mut overlay = Overlay::new(alloc, 12)?;
    add_points(&mut overlay, &OUTLINE, ShapeType::Subject)?;
    add_points(&mut overlay, &BESIDE, ShapeType::Subject)?;
    add_points(&mut overlay, &HOLE, ShapeType::Clip)?;
    overlay.overlay(Difference, NonZero)
}

// Whether the first of two shapes has a hole, and the second has none.
fn are_two(shapes: &IntShapes<i32>) -> bool {
    match shapes.shapes.as_slice() {
        [first, second] => first.contours.len() == 2 && second.contours.len() == 1,
        _ => false,
    }
}

fn is_added(alloc: Global, shapes: &IntShapes<i32>) -> Result<bool, Fault> {
    if !source_in_range(shapes) {
        return Ok(false);
    }
    let mut overlay = Overlay::new(alloc, 0)?;
    overlay.add_shapes(shapes, ShapeType::Subject)?;
    Ok(overlay.overlay(Subject, NonZero)? == *shapes)
}

fn is_simplified(alloc: Global, shapes: &IntShapes<i32>) -> Result<bool, Fault> {
    if !source_in_range(shapes) {
        return Ok(false);
    }
    let mut overlay = Overlay::new(alloc, 0)?;
    Ok(overlay.simplify_shapes(shapes, NonZero)? == *shapes)
}

// Whether the shapes fill what they fill.
fn is_related(alloc: Global, shapes: &IntShapes<i32>) -> Result<bool, Fault> {
    if !source_in_range(shapes) {
        return Ok(false);
    }
    Ok(shapes.covers(alloc, shapes)? && !shapes.touches(alloc, shapes)?)
}

// What of the line lies within the shapes.
fn clipped(alloc: Global, shapes: &IntShapes<i32>) -> Result<Vec<IntPath<i32>>, Fault> {
    if !source_in_range(shapes) {
        return Ok(Vec::new(alloc));
    }
    if !all_in_range(&ACROSS) {
        return Ok(Vec::new(alloc));
    }
    shapes.clip_line(alloc, ACROSS, NonZero, INSIDE)
}

fn runs_between(path: &IntPath<i32>, from: i32, to: i32) -> bool {
    let ends = [IntPoint::new(from, 15), IntPoint::new(to, 15)];
    path.points.as_slice() == ends.as_slice()
}

// Whether the line is clipped to what lies left of the hole, right of it, and in the rectangle.
fn is_clipped(alloc: Global, shapes: &IntShapes<i32>) -> Result<bool, Fault> {
    let paths = clipped(alloc, shapes)?;
    match paths.as_slice() {
        [left, right, beside] => Ok(
            runs_between(left, 0, 10)
                && runs_between(right, 20, 30)
                && runs_between(beside, 40, 50),
        ),
        _ => Ok(false),
    }
}

fn is_given_again(alloc: Global) -> Result<bool, Fault> {
    let shapes = answered(alloc)?;
    Ok(
        are_two(&shapes)
            && is_added(alloc, &shapes)?
            && is_simplified(alloc, &shapes)?
            && is_related(alloc, &shapes)?
            && is_clipped(alloc, &shapes)?,
    )
}

#[test]
fn takes_an_answer_in_again(rt: HostRuntime) {
    assert!(rt; is_given_again(rt.alloc()) == Ok(true));
}
