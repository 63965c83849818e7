//! A checkerboard of 10,000 edges, added as contours or as edges.

use crate::contours::checkerboard;
use edge_rows::colour::Colour;
use edge_rows::edges::{Given, Overlay as EdgeOverlay, add};
use plane_base::fault::Fault;
use plane_base::point::IntPoint;
use plane_base::range::all_in_range;
use polygon_overlay::edge_overlay::InputEdge;
use polygon_overlay::overlay::Overlay;
use segment_split::count::ShapeType;
use std::alloc::Global;

// Adds a square.
fn add_contour(
    overlay: &mut Overlay<i32>,
    corners: &[IntPoint<i32>],
    shape_type: ShapeType,
) -> Result<(), Fault> {
    if !all_in_range(corners) {
        return Err(Fault::Failed);
    }
    overlay.add_contour(corners, shape_type)
}

/// Adds the squares as contours.
pub(crate) fn add_contours(alloc: Global, overlay: &mut Overlay<i32>) -> Result<(), Fault> {
    let board = checkerboard(alloc, 25, 50)?;
    for (subject, clip) in board.subjects.iter().zip(board.clips.iter()) {
        add_contour(overlay, &subject.points, ShapeType::Subject)?;
        add_contour(overlay, &clip.points, ShapeType::Clip)?;
    }
    Ok(())
}

// Adds the edges of a square, each with this colour.
fn add_square(
    overlay: &mut EdgeOverlay,
    corners: &[IntPoint<i32>],
    shape_type: ShapeType,
    datum: Colour,
) -> Result<(), Fault> {
    let Some(last) = corners.last() else {
        return Ok(());
    };
    let mut a = *last;
    for b in corners {
        let edge = InputEdge { a, b: *b, datum };
        add(overlay, Given { shape_type, edge })?;
        a = *b;
    }
    Ok(())
}

/// Adds the edges of the squares, the subject's red and the clip's green.
pub(crate) fn add_edges(alloc: Global, overlay: &mut EdgeOverlay) -> Result<(), Fault> {
    let board = checkerboard(alloc, 25, 50)?;
    for (subject, clip) in board.subjects.iter().zip(board.clips.iter()) {
        add_square(overlay, &subject.points, ShapeType::Subject, Colour::RED)?;
        add_square(overlay, &clip.points, ShapeType::Clip, Colour::GREEN)?;
    }
    Ok(())
}
