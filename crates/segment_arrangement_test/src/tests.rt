//! What the tests share.

use plane_base::fault::Fault;
use plane_base::path::IntPath;
use plane_base::point::IntPoint;
use reference::maps::{CountedEdge, given_slowly};
use segment_arrangement::depth::Depth;
use segment_arrangement::fill_rule::FillRule;
use segment_arrangement::overlay_rule::OverlayRule;
use std::alloc::Global;

mod arrangements;
mod fills;
mod filters;
mod graphs;
mod regions;
mod sides;
mod strings;

// The rule that fills from this depth on; what is above 0 where the number is none.
fn at_least(windings: i32) -> FillRule {
    match Depth::new(windings) {
        Some(depth) => FillRule::AtLeast(depth),
        None => FillRule::Positive,
    }
}

// All kinds of fill rules, of depths 1 and 2.
fn fill_rules() -> [FillRule; 6] {
    [
        FillRule::EvenOdd,
        FillRule::NonZero,
        FillRule::Positive,
        FillRule::Negative,
        at_least(1),
        at_least(2),
    ]
}

const RULES: [OverlayRule; 7] = [
    OverlayRule::Subject,
    OverlayRule::Clip,
    OverlayRule::Intersect,
    OverlayRule::Union,
    OverlayRule::Difference,
    OverlayRule::InverseDifference,
    OverlayRule::Xor,
];

// Adds a contour of these points.
fn add_contour(contours: &mut Vec<IntPath<i32>>, row: &[(i32, i32)]) -> Result<(), Fault> {
    let mut points = Vec::new(*contours.allocator());
    for (x, y) in row {
        points.push(IntPoint::new(*x, *y))?;
    }
    contours.push(IntPath { points })?;
    Ok(())
}

// A contour of these points, alone.
fn alone(alloc: Global, row: &[(i32, i32)]) -> Result<Vec<IntPath<i32>>, Fault> {
    let mut contours = Vec::new(alloc);
    add_contour(&mut contours, row)?;
    Ok(contours)
}

// The map that two contours give.
fn map_of(
    alloc: Global,
    subject: &[(i32, i32)],
    clip: &[(i32, i32)],
) -> Result<Vec<CountedEdge<i32>>, Fault> {
    let subjects = alone(alloc, subject)?;
    let clips = alone(alloc, clip)?;
    given_slowly(alloc, &subjects, &clips)
}
