//! Asks for overlays of a checkerboard of 10,000 edges, as contours, and as edges with colours.
//!
//! A line is a word for what is asked and one for the options, `points` or `corners`: `contours` and `edges` only add what is
//! given, and `balance` asks whether the edges are balanced; `overlay` asks for the shapes of the contours, `vectors` for the edges of the boundary, and
//! `shapes` for the shapes of edges, all by exclusive or and the even-odd rule. How many edges are added or answered is written.

mod board;

use board::{add_contours, add_edges};
use contour_walk::options::IntOverlayOptions;
use contour_walk::vector::edge::DataVectorShape;
use edge_rows::colour::Colour;
use edge_rows::edges::Overlay as ColouredOverlay;
use plane_base::fault::Fault;
use plane_base::path::IntShapes;
use polygon_overlay::edge_overlay::EdgeOverlay;
use polygon_overlay::overlay::Overlay;
use row_words::Words;
use segment_arrangement::fill_rule::FillRule;
use segment_arrangement::overlay_rule::OverlayRule;
use segment_split::solver::Solver;
use std::alloc::Global;
use std::io;

/// Answers a line.
pub(crate) fn answer(rt: &(impl Print + AllocGlobal), line: &str) -> io::Result<()> {
    let mut words = Words::of(rt.alloc(), line);
    let asked = words.next();
    let options = if words.next() == "points" {
        IntOverlayOptions::keep_output_points()
    } else {
        IntOverlayOptions::default()
    };
    match told(rt.alloc(), asked, options) {
        Ok(count) => println!(rt; "{line}: {count}"),
        Err(fault) => println!(rt; "{line}: {fault}"),
    }
}

// How many edges are added or answered.
fn told(alloc: Global, asked: &str, options: IntOverlayOptions) -> Result<usize, Fault> {
    if asked == "contours" || asked == "overlay" {
        return told_by_contours(alloc, asked, options);
    }
    let mut overlay = EdgeOverlay::new(alloc, 10_000)?;
    overlay.options = options;
    add_edges(alloc, &mut overlay)?;
    told_by_edges(&mut overlay, asked)
}

fn told_by_contours(
    alloc: Global,
    asked: &str,
    options: IntOverlayOptions,
) -> Result<usize, Fault> {
    let mut overlay = Overlay::new_custom(alloc, 10_000, options, Solver::AUTO)?;
    add_contours(alloc, &mut overlay)?;
    if asked == "contours" {
        return Ok(10_000);
    }
    let shapes = overlay.overlay(OverlayRule::Xor, FillRule::EvenOdd)?;
    Ok(points_of(&shapes))
}

fn points_of(shapes: &IntShapes<i32>) -> usize {
    let mut count = 0_usize;
    for shape in &shapes.shapes {
        for contour in &shape.contours {
            count = count.wrapping_add(contour.points.len());
        }
    }
    count
}

fn told_by_edges(overlay: &mut ColouredOverlay, asked: &str) -> Result<usize, Fault> {
    if asked == "edges" || !overlay.is_balanced() {
        return Ok(overlay.edges().count());
    }
    match asked {
        "vectors" => {
            let edges = overlay.build_vectors(OverlayRule::Xor, FillRule::EvenOdd)?;
            Ok(edges.len())
        }
        "shapes" => {
            let shapes = overlay.build_vector_shapes(OverlayRule::Xor, FillRule::EvenOdd)?;
            Ok(edges_of(&shapes))
        }
        _ => Ok(overlay.edges().count()),
    }
}

fn edges_of(shapes: &[DataVectorShape<i32, Colour>]) -> usize {
    let mut count = 0_usize;
    for shape in shapes {
        for path in &shape.paths {
            count = count.wrapping_add(path.edges.len());
        }
    }
    count
}
