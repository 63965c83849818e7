//! Directions, links and shapes of a row's words.

use contour_walk::borders::Border;
use contour_walk::contour_direction::ContourDirection;
use plane_base::path::{IntPath, IntShape, IntShapes};
use plane_base::point::IntPoint;
use plane_base::segment::XSegment;
use row_words::Words;

pub(super) fn direction_from(words: &mut Words<'_>) -> ContourDirection {
    let word = words.next();
    let is_clockwise = word == "Clockwise";
    words.note(is_clockwise || word == "CounterClockwise");
    if is_clockwise {
        ContourDirection::Clockwise
    } else {
        ContourDirection::CounterClockwise
    }
}

fn point_from(words: &mut Words<'_>) -> IntPoint<i32> {
    let x = words.coordinate();
    let y = words.coordinate();
    IntPoint::new(x, y)
}

// The ends of a link, and whether the region lies above it.
fn link_from(words: &mut Words<'_>) -> Border<i32> {
    let a = point_from(words);
    let b = point_from(words);
    let above = words.flag();
    let edge = XSegment { a, b };
    Border { edge, above }
}

pub(super) fn links_from(words: &mut Words<'_>) -> Vec<Border<i32>> {
    words.list(link_from)
}

fn contour_from(words: &mut Words<'_>) -> IntPath<i32> {
    let points = words.list(point_from);
    IntPath { points }
}

pub(super) fn contours_from(words: &mut Words<'_>) -> Vec<IntPath<i32>> {
    words.list(contour_from)
}

fn shape_from(words: &mut Words<'_>) -> IntShape<i32> {
    let contours = contours_from(words);
    IntShape { contours }
}

pub(super) fn shapes_from(words: &mut Words<'_>) -> IntShapes<i32> {
    let shapes = words.list(shape_from);
    IntShapes { shapes }
}
