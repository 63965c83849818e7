//! What the tests share.

use contour_walk::borders::Border;
use contour_walk::contour_direction::ContourDirection;
use plane_base::fault::Fault;
use plane_base::path::{IntPath, IntShapes};
use plane_base::point::IntPoint;
use reference::shapes::answer_slowly;
use reference::walks::all_links_in_range;
use std::alloc::Global;

mod drawn;
mod hierarchies;
mod hierarchy;
mod holes;
mod loops;
mod overlays;
mod parted;
mod public;
mod shapes;
mod turning;
mod vector_shapes;
mod vectors;
mod walks;
mod words;

const CENTER: IntPoint<i32> = IntPoint { x: 5, y: 5 };

const LEFT: IntPoint<i32> = IntPoint { x: 0, y: 5 };

const RIGHT: IntPoint<i32> = IntPoint { x: 10, y: 5 };

const DOWN: IntPoint<i32> = IntPoint { x: 5, y: 0 };

const UP: IntPoint<i32> = IntPoint { x: 5, y: 10 };

// A contour of these points.
fn contour_from(alloc: Global, row: &[(i32, i32)]) -> Result<IntPath<i32>, Fault> {
    let mut points = Vec::new(alloc);
    for (x, y) in row {
        points.push(IntPoint::new(*x, *y))?;
    }
    Ok(IntPath { points })
}

// Adds a contour of these points.
fn add_contour(contours: &mut Vec<IntPath<i32>>, row: &[(i32, i32)]) -> Result<(), Fault> {
    let contour = contour_from(*contours.allocator(), row)?;
    contours.push(contour)?;
    Ok(())
}

fn contours_from(alloc: Global, rows: &[&[(i32, i32)]]) -> Result<Vec<IntPath<i32>>, Fault> {
    let mut contours = Vec::new(alloc);
    for row in rows {
        add_contour(&mut contours, row)?;
    }
    Ok(contours)
}

// Whether the slow program answers these shapes for links that lie in range.
fn are_answered(
    alloc: Global,
    output: ContourDirection,
    keeps_all: bool,
    links: &[Border<i32>],
    wanted: &IntShapes<i32>,
) -> bool {
    if !all_links_in_range(links) {
        return false;
    }
    match answer_slowly(alloc, output, keeps_all, links) {
        Ok(shapes) => shapes == *wanted,
        Err(_) => false,
    }
}
