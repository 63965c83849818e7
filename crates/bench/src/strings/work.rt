//! Clips and slices, and what is told of them.

use super::script::Script;
use polygon_overlay::arrangement::clip_rule::ClipRule;
use polygon_overlay::arrangement::fill_rule::FillRule;
use polygon_overlay::plane::area::doubled_area;
use polygon_overlay::plane::fault::Fault;
use polygon_overlay::plane::path::{IntPath, IntShapes};
use polygon_overlay::plane::point::IntPoint;
use polygon_overlay::plane::range::all_in_range;
use polygon_overlay::string::extract::extract_shapes;
use polygon_overlay::string::overlay::StringOverlay;
use polygon_overlay::string::rule::StringRule;
use std::alloc::Global;

const INSIDE: ClipRule = ClipRule {
    invert: false,
    boundary_included: false,
};

// A builder that holds the shape and the lines.
fn overlay_of(alloc: Global, script: &Script) -> Result<StringOverlay<i32>, Fault> {
    let mut overlay = StringOverlay::new(alloc, 0)?;
    for body in &script.bodies {
        if all_in_range(&body.points) {
            overlay.add_shape_contour(&body.points)?;
        }
    }
    for line in &script.lines {
        if all_in_range(&line.points) {
            overlay.add_string_path(&line.points)?;
        }
    }
    Ok(overlay)
}

/// Clips the lines.
pub(crate) fn clip(alloc: Global, script: &Script) -> Result<String, Fault> {
    let overlay = overlay_of(alloc, script)?;
    let paths = overlay.clip_string_lines(FillRule::NonZero, INSIDE)?;
    let mut points = 0_usize;
    let mut length = 0_u64;
    for path in &paths {
        points = points.wrapping_add(path.points.len());
        length = length.wrapping_add(length_of(&path.points));
    }
    let count = paths.len();
    Ok(format!(in alloc; "paths {count} points {points} length {length}")?)
}

// How far a path goes in x and in y together.
fn length_of(points: &[IntPoint<i32>]) -> u64 {
    let mut length = 0_u64;
    for place in 1..points.len() {
        let (from, to) = (points[place - 1], points[place]);
        let x = u64::from(from.x.abs_diff(to.x));
        let y = u64::from(from.y.abs_diff(to.y));
        length = length.wrapping_add(x).wrapping_add(y);
    }
    length
}

/// Slices the shape.
pub(crate) fn slice(alloc: Global, script: &Script) -> Result<String, Fault> {
    let mut overlay = overlay_of(alloc, script)?;
    let view = overlay.build_graph_view(FillRule::NonZero)?;
    match view {
        None => Ok(format!(in alloc; "pieces 0")?),
        Some(graph) => {
            let pieces = extract_shapes(alloc, &graph, StringRule::Slice)?;
            text_of(alloc, &pieces)
        }
    }
}

fn text_of(alloc: Global, pieces: &IntShapes<i32>) -> Result<String, Fault> {
    let mut contours = 0_usize;
    let mut points = 0_usize;
    let mut area = 0_i128;
    for piece in &pieces.shapes {
        contours = contours.wrapping_add(piece.contours.len());
        points = points.wrapping_add(count_points(&piece.contours));
        area = area.wrapping_add(area_of(&piece.contours));
    }
    let count = pieces.shapes.len();
    Ok(format!(in alloc; "pieces {count} contours {contours} points {points} area {area}")?)
}

fn count_points(contours: &[IntPath<i32>]) -> usize {
    let mut count = 0_usize;
    for contour in contours {
        count = count.wrapping_add(contour.points.len());
    }
    count
}

// Twice the area of contours.
fn area_of(contours: &[IntPath<i32>]) -> i128 {
    let mut area = 0_i128;
    for contour in contours {
        if all_in_range(&contour.points) {
            area = area.wrapping_add(doubled_area(&contour.points));
        }
    }
    area
}
