//! The areas of overlays, and of what subject and clip hold: rows worked out by hand.

use super::words::{contours_from, fill_from};
use super::{SOLVERS, add_points};
use plane_base::area::doubled_area;
use plane_base::fault::Fault;
use plane_base::path::{IntPath, IntShapes};
use plane_base::range::all_in_range;
use polygon_overlay::overlay::Overlay;
use row_words::Words;
use segment_arrangement::fill_rule::FillRule;
use segment_arrangement::overlay_rule::OverlayRule;
use segment_split::count::ShapeType;
use std::alloc::Global;

// The rules in the order of a row's areas.
const RULES: [OverlayRule; 7] = [
    OverlayRule::Subject,
    OverlayRule::Clip,
    OverlayRule::Intersect,
    OverlayRule::Union,
    OverlayRule::Difference,
    OverlayRule::InverseDifference,
    OverlayRule::Xor,
];

// Twice the signed area of all contours.
fn area_of(shapes: &IntShapes<i32>) -> Option<i128> {
    let mut sum = 0_i128;
    for shape in &shapes.shapes {
        for contour in &shape.contours {
            if !all_in_range(&contour.points) {
                return None;
            }
            sum = sum.checked_add(doubled_area(&contour.points))?;
        }
    }
    Some(sum)
}

fn add(
    overlay: &mut Overlay<i32>,
    contours: &[IntPath<i32>],
    shape_type: ShapeType,
) -> Result<(), Fault> {
    for contour in contours {
        add_points(overlay, &contour.points, shape_type)?;
    }
    Ok(())
}

// Whether one builder, asked by each rule, answers shapes of these areas.
fn has_areas(overlay: &mut Overlay<i32>, fill: FillRule, areas: &[i128]) -> Result<bool, Fault> {
    if areas.len() != RULES.len() {
        return Ok(false);
    }
    for place in 0..RULES.len() {
        let shapes = overlay.overlay(RULES[place], fill)?;
        if area_of(&shapes) != Some(areas[place]) {
            return Ok(false);
        }
    }
    Ok(true)
}

// The same by each strategy.
fn are_areas(
    alloc: Global,
    fill: FillRule,
    subjects: &[IntPath<i32>],
    clips: &[IntPath<i32>],
    areas: &[i128],
) -> Result<bool, Fault> {
    for solver in SOLVERS {
        let mut overlay = Overlay::new(alloc, 0)?;
        overlay.solver = solver;
        add(&mut overlay, subjects, ShapeType::Subject)?;
        add(&mut overlay, clips, ShapeType::Clip)?;
        if !has_areas(&mut overlay, fill, areas)? {
            return Ok(false);
        }
    }
    Ok(true)
}

// Whether a row is answered as it says.
fn is_answered(alloc: Global, row: &str) -> bool {
    let mut words = Words::of(alloc, row);
    let fill = fill_from(&mut words);
    let subjects = contours_from(&mut words);
    let clips = contours_from(&mut words);
    let areas = words.list(Words::wide);
    words.are_read() && are_areas(alloc, fill, &subjects, &clips, &areas) == Ok(true)
}

// A row has a fill rule, subjects, clips, and the doubled areas of subject, clip, intersection, union, both differences and the symmetric
// difference. A list stands behind the number of its members. Crossings off the grid change areas: the first triangle has 35 as it is given.
const ROWS: &str = "\
NonZero 1 3 0 0 7 3 0 5 1 3 3 -1 5 6 1 4 7 31 24 13 42 18 11 29
Positive 1 4 0 0 3 3 3 0 0 3 1 4 0 0 3 0 3 3 0 3 7 6 18 6 18 0 12 12
NonZero 1 4 0 0 10 0 10 10 0 10 1 4 3 3 7 3 7 7 3 7 7 200 32 32 200 168 0 168
NonZero 1 4 0 0 10 0 10 10 0 10 1 4 10 0 20 0 20 10 10 10 7 200 200 0 400 200 200 400
NonZero 0 0 7 0 0 0 0 0 0 0
";

#[test]
fn adds_areas_up(rt: HostRuntime) {
    for line in ROWS.lines() {
        assert!(rt; is_answered(rt.alloc(), line), "{line}");
    }
}
