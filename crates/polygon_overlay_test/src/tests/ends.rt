//! The ends of the shorter coordinate type.

use super::SOLVERS;
use plane_base::area::doubled_area;
use plane_base::fault::Fault;
use plane_base::path::{IntPath, IntShapes};
use plane_base::point::IntPoint;
use plane_base::range::all_in_range;
use polygon_overlay::overlay::Overlay;
use segment_arrangement::fill_rule::FillRule::NonZero;
use segment_arrangement::overlay_rule::OverlayRule::Subject;
use segment_split::count::ShapeType;
use segment_split::solver::Solver;
use std::alloc::Global;

// The square of all points in range.
const EVERYWHERE: [IntPoint<i16>; 4] = [
    IntPoint {
        x: -16384,
        y: -16384,
    },
    IntPoint {
        x: 16383,
        y: -16384,
    },
    IntPoint { x: 16383, y: 16383 },
    IntPoint {
        x: -16384,
        y: 16383,
    },
];

// Twice the area of a contour, or none where a point is out of range.
fn area_of(contour: &IntPath<i16>) -> Option<i128> {
    if all_in_range(&contour.points) {
        Some(doubled_area(&contour.points))
    } else {
        None
    }
}

// Twice the area of one contour, or none where the shapes are others.
fn area_of_one(shapes: &IntShapes<i16>) -> Option<i128> {
    match shapes.shapes.as_slice() {
        [shape] => match shape.contours.as_slice() {
            [contour] => area_of(contour),
            _ => None,
        },
        _ => None,
    }
}

fn area_everywhere(alloc: Global, solver: Solver) -> Result<Option<i128>, Fault> {
    let mut overlay = Overlay::new(alloc, 0)?;
    overlay.solver = solver;
    if all_in_range(&EVERYWHERE) {
        overlay.add_contour(&EVERYWHERE, ShapeType::Subject)?;
    }
    let shapes = overlay.overlay(Subject, NonZero)?;
    Ok(area_of_one(&shapes))
}

#[test]
fn answers_the_whole_range(rt: HostRuntime) {
    for solver in SOLVERS {
        assert!(rt; area_everywhere(rt.alloc(), solver) == Ok(Some(2147352578)));
    }
}
