//! A closed string of twelve lines, of which growths are refused: the lines before the one that was refused stay.

use plane_base::fault::Fault;
use plane_base::point::IntPoint;
use plane_base::range::all_in_range;
use polygon_strings::string::overlay::StringOverlay;
use segment_arrangement::fill_rule::FillRule::NonZero;
use segment_arrangement::link::OverlayLink;
use std::alloc::Global;

// A convex polygon of twelve sides.
const TWELVE: [IntPoint<i32>; 12] = [
    IntPoint { x: 0, y: 0 },
    IntPoint { x: 30, y: 0 },
    IntPoint { x: 50, y: 10 },
    IntPoint { x: 60, y: 30 },
    IntPoint { x: 60, y: 60 },
    IntPoint { x: 50, y: 80 },
    IntPoint { x: 30, y: 90 },
    IntPoint { x: 0, y: 90 },
    IntPoint { x: -20, y: 80 },
    IntPoint { x: -30, y: 60 },
    IntPoint { x: -30, y: 30 },
    IntPoint { x: -20, y: 10 },
];

// Whether there is a link along the line from a point to another, with this line alone: 8 from its lesser end, 4 from its greater one.
fn has_line(links: &[OverlayLink<i32, ()>], from: IntPoint<i32>, to: IntPoint<i32>) -> bool {
    for link in links {
        let runs_ahead = link.a.point == from && link.b.point == to;
        let runs_back = link.a.point == to && link.b.point == from;
        if (runs_ahead && link.fill == 8) || (runs_back && link.fill == 4) {
            return true;
        }
    }
    false
}

// Whether the links are those of the first lines of the string and no others, so many at least.
fn are_first(links: &[OverlayLink<i32, ()>], least: usize) -> bool {
    for place in 0..TWELVE.len() {
        let next = if place + 1 < TWELVE.len() {
            place + 1
        } else {
            0
        };
        if place < links.len() && !has_line(links, TWELVE[place], TWELVE[next]) {
            return false;
        }
    }
    least <= links.len() && links.len() <= TWELVE.len()
}

// Adds the string.
fn add_twelve(overlay: &mut StringOverlay<i32>) -> Result<(), Fault> {
    if all_in_range(&TWELVE) {
        overlay.add_string_contour(&TWELVE)?;
    }
    Ok(())
}

// Whether what is held are the first lines of the string, so many at least.
fn holds_first(overlay: &mut StringOverlay<i32>, least: usize) -> Result<bool, Fault> {
    match overlay.build_graph_view(NonZero)? {
        Some(graph) => Ok(are_first(graph.links(), least)),
        None => Ok(false),
    }
}

// Whether the string is held; or, where a line was refused, those before it: there is room for one at least.
fn holds_lines(alloc: Global) -> Result<bool, Fault> {
    let mut overlay = StringOverlay::new(alloc, 1)?;
    match add_twelve(&mut overlay) {
        Ok(()) => holds_first(&mut overlay, TWELVE.len()),
        Err(fault) => Ok(fault == Fault::Memory && holds_first(&mut overlay, 1)?),
    }
}

// As it runs here nothing is refused. A run that refuses one allocation passes it too.
#[test]
fn growth_of_closed_strings_refused(rt: HostRuntime) {
    let is_right = holds_lines(rt.alloc());
    assert!(rt; is_right == Ok(true) || is_right == Err(Fault::Memory));
}
