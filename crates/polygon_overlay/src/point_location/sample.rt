//! Whether boxes tell little: then points are located by columns.
//!
//! Where boxes lie over each other, as those of contours that lie in one another or of long edges that run aslant, a point looks at as
//! many stretches as there are edges. About eight points, spread over those that are asked for, are tried: where they look at more
//! than half as many stretches together as there are edges, boxes tell little. What is told is of speed alone.

ghost use Rattle.std.specs.Prelude.{◌≤◌};

use crate::point_location::outline::Outline;
use crate::point_location::shape_index::{Placed, ShapeIndex};
use crate::point_location::stretches::{Stretch, is_off, opens};
use plane_base::int::OverlayInt;
use plane_base::point::IntPoint;

// So many points are tried.
const SAMPLES: usize = 8;

/// Of fewer edges no boxes are made.
pub(super) const FEWEST_EDGES: usize = 64;

/// Whether the boxes of a contour of so many edges tell little.
pub(super) fn is_outline_dense<I: OverlayInt>(
    outline: &Outline<I>,
    edges: usize,
    points: &[IntPoint<I>],
) -> bool {
    let step = points.len() / SAMPLES + 1;
    let mut looks = 0_usize;
    let mut at = 0_usize;
    while at < points.len() {
        looks = looks.saturating_add(looks_at(&outline.stretches, points[at]));
        at = at.saturating_add(step);
    }
    looks > edges / 2
}

/// Whether the boxes of a shape of so many edges tell little.
pub(super) fn are_outlines_dense<I: OverlayInt>(
    outlines: &[Outline<I>],
    edges: usize,
    points: &[IntPoint<I>],
) -> bool {
    let step = points.len() / SAMPLES + 1;
    let mut looks = 0_usize;
    let mut at = 0_usize;
    while at < points.len() {
        looks = looks.saturating_add(looks_at_outlines(outlines, points[at]));
        at = at.saturating_add(step);
    }
    looks > edges / 2
}

/// Whether the boxes of shapes of so many edges tell little.
pub(super) fn is_index_dense<I: OverlayInt>(
    index: &ShapeIndex<I>,
    edges: usize,
    points: &[IntPoint<I>],
) -> bool {
    let step = points.len() / SAMPLES + 1;
    let mut looks = 0_usize;
    let mut at = 0_usize;
    while at < points.len() {
        looks = looks.saturating_add(looks_at_fields(
            &index.outlines,
            &index.order,
            &index.fields,
            points[at],
        ));
        at = at.saturating_add(step);
    }
    looks > edges / 2
}

// How many fields, outlines and stretches a point looks at.
fn looks_at_fields<I: OverlayInt>(
    outlines: &[Vec<Outline<I>>],
    order: &[Placed],
    fields: &[Stretch<I>],
    point: IntPoint<I>,
) -> usize {
    let mut looks = 0_usize;
    let mut left = fields.len();
    while left > 0 {
        let field = fields[left - 1];
        looks = looks.saturating_add(looks_at_field(outlines, order, field, left - 1, point));
        left = next_left(field, left - 1, point);
    }
    looks
}

// The look at a field, and those at its shapes if it has no parts and its box tells nothing.
fn looks_at_field<I: OverlayInt>(
    outlines: &[Vec<Outline<I>>],
    order: &[Placed],
    field: Stretch<I>,
    number: usize,
    point: IntPoint<I>,
) -> usize {
    if field.from < number || is_off(field.bounds, point) {
        return 1;
    }
    let mut looks = 1_usize;
    for place in field.first..field.end {
        if place < order.len() && order[place].number < outlines.len() {
            let shape = &outlines[order[place].number];
            looks = looks.saturating_add(looks_at_outlines(shape, point));
        }
    }
    looks
}

fn looks_at_outlines<I: OverlayInt>(outlines: &[Outline<I>], point: IntPoint<I>) -> usize {
    let mut looks = 0_usize;
    for outline in outlines {
        looks = looks.saturating_add(1);
        looks = looks.saturating_add(looks_at(&outline.stretches, point));
    }
    looks
}

// How many stretches a point looks at.
fn looks_at<I: OverlayInt>(stretches: &[Stretch<I>], point: IntPoint<I>) -> usize {
    let mut looks = 0_usize;
    let mut left = stretches.len();
    while left > 0 {
        looks = looks.saturating_add(1);
        left = next_left(stretches[left - 1], left - 1, point);
    }
    looks
}

// How many stretches are left behind a look at the one with this number.
fn next_left<I: OverlayInt>(stretch: Stretch<I>, number: usize, point: IntPoint<I>) -> usize
    ensures { result ≤ number }
{
    if opens(stretch, number, point) || stretch.from > number {
        return number;
    }
    stretch.from
}
