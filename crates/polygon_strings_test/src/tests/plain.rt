//! A slow program that slices: of each half the next is looked for among all, and a loop is cut where a point comes again.

ghost use Rattle.std.specs.Prelude.{◌<◌, IfSome, length};

use contour_walk::contour_direction::ContourDirection::{self, Clockwise};
use plane_base::fault::Fault;
use plane_base::path::IntPath;
use plane_base::point::IntPoint;
use segment_arrangement::fill::{CLIP_BOTTOM, CLIP_TOP, SUBJ_BOTTOM, SUBJ_TOP, SegmentFill};
use segment_arrangement::link::OverlayLink;
use std::alloc::Global;

// A step along a half, and whether it was passed.
#[derive(Clone, Copy)]
struct Step {
    from: IntPoint<i32>,
    to: IntPoint<i32>,
    is_passed: bool,
}

fn step_between(from: IntPoint<i32>, to: IntPoint<i32>) -> Step {
    Step {
        from,
        to,
        is_passed: false,
    }
}

fn has(fill: SegmentFill, bit: SegmentFill) -> bool {
    fill & bit != 0
}

// The steps of all halves: the filled side on the left, or on the right where the output is clockwise.
fn steps_of(
    alloc: Global,
    output: ContourDirection,
    links: &[OverlayLink<i32, ()>],
) -> Result<Vec<Step>, Fault> {
    let mut steps = Vec::new(alloc);
    for link in links {
        let (a, b) = if output == Clockwise {
            (link.b.point, link.a.point)
        } else {
            (link.a.point, link.b.point)
        };
        let above = has(link.fill, SUBJ_TOP);
        let below = has(link.fill, SUBJ_BOTTOM);
        let has_line = has(link.fill, CLIP_TOP) || has(link.fill, CLIP_BOTTOM);
        if above && (has_line || !below) {
            steps.push(step_between(a, b))?;
        }
        if below && (has_line || !above) {
            steps.push(step_between(b, a))?;
        }
    }
    Ok(steps)
}

// From one point to another.
type Way = (i64, i64);

fn way(from: IntPoint<i32>, to: IntPoint<i32>) -> Way {
    let x = i64::from(to.x).wrapping_sub(i64::from(from.x));
    let y = i64::from(to.y).wrapping_sub(i64::from(from.y));
    (x, y)
}

// Above 0 where the second way lies to the left of the first.
fn cross(first: Way, second: Way) -> i64 {
    first
        .0
        .wrapping_mul(second.1)
        .wrapping_sub(first.1.wrapping_mul(second.0))
}

fn dot(first: Way, second: Way) -> i64 {
    first
        .0
        .wrapping_mul(second.0)
        .wrapping_add(first.1.wrapping_mul(second.1))
}

// On turning from the way back, to the right or to the left: 0 where another way is met in the first half of the turn, 1 in its middle, 2 in the
// second half, and 3 at its end.
fn quarter(to_left: bool, back: Way, ahead: Way) -> u8 {
    let side = cross(back, ahead);
    if side == 0 {
        return if dot(back, ahead) < 0 { 1 } else { 3 };
    }
    if (0 < side) == to_left { 0 } else { 2 }
}

// Whether one way is met before another on turning from the way back.
fn is_met_first(to_left: bool, back: Way, one: Way, other: Way) -> bool {
    let first = quarter(to_left, back, one);
    let second = quarter(to_left, back, other);
    if first == second {
        return cross(one, other) != 0 && (0 < cross(one, other)) == to_left;
    }
    first < second
}

// The place of the step that goes on from this one: it is met first on turning from the way back through the filled side.
fn next_place(output: ContourDirection, steps: &[Step], last: Step) -> Option<usize> {
    let back = way(last.to, last.from);
    let to_left = output == Clockwise;
    let mut found: Option<(usize, Way)> = None;
    for place in 0..steps.len() {
        if steps[place].from == last.to {
            let ahead = way(steps[place].from, steps[place].to);
            let is_nearer = match found {
                Some((_, nearest)) => is_met_first(to_left, back, ahead, nearest),
                None => true,
            };
            if is_nearer {
                found = Some((place, ahead));
            }
        }
    }
    match found {
        Some((place, _)) => Some(place),
        None => None,
    }
}

// A list of points as a contour, if it has three.
fn add_loop(
    alloc: Global,
    loops: &mut Vec<IntPath<i32>>,
    points: &[IntPoint<i32>],
) -> Result<(), Fault> {
    if 2 < points.len() {
        let points = Vec::from_slice(alloc, points)?;
        loops.push(IntPath { points })?;
    }
    Ok(())
}

// Where a point is kept.
fn place_of(kept: &[IntPoint<i32>], point: IntPoint<i32>) -> Option<usize>
    ensures { IfSome result (λ place. place < length kept.now) }
{
    for place in 0..kept.len() {
        if kept[place] == point {
            return Some(place);
        }
    }
    None
}

// Keeps a point. Where it is kept already, what came behind it goes as a loop.
fn keep(
    alloc: Global,
    loops: &mut Vec<IntPath<i32>>,
    kept: &mut Vec<IntPoint<i32>>,
    point: IntPoint<i32>,
) -> Result<(), Fault> {
    if let Some(place) = place_of(kept, point) {
        add_loop(alloc, loops, &kept[place..])?;
        kept.truncate(place);
    }
    kept.push(point)?;
    Ok(())
}

// Adds the loops of the walk that begins with this step. Answers whether it came back.
fn add_loops(
    alloc: Global,
    output: ContourDirection,
    loops: &mut Vec<IntPath<i32>>,
    steps: &mut Vec<Step>,
    first: usize,
) -> Result<bool, Fault> {
    let mut kept = Vec::new(alloc);
    let mut place = first;
    for _ in 0..steps.len() {
        let Some(step) = steps.get_mut(place) else {
            return Ok(false);
        };
        step.is_passed = true;
        let step = *step;
        keep(alloc, loops, &mut kept, step.from)?;
        let Some(next) = next_place(output, steps, step) else {
            return Ok(false);
        };
        if next == first {
            add_loop(alloc, loops, &kept)?;
            return Ok(true);
        }
        place = next;
    }
    Ok(false)
}

/// The loops of the walks along the halves of a graph, or none where a walk does not come back.
pub fn loops_slowly(
    alloc: Global,
    output: ContourDirection,
    links: &[OverlayLink<i32, ()>],
) -> Result<Option<Vec<IntPath<i32>>>, Fault> {
    let mut steps = steps_of(alloc, output, links)?;
    let mut loops = Vec::new(alloc);
    for first in 0..steps.len() {
        let is_passed = match steps.get(first) {
            Some(step) => step.is_passed,
            None => true,
        };
        if !is_passed && !add_loops(alloc, output, &mut loops, &mut steps, first)? {
            return Ok(None);
        }
    }
    Ok(Some(loops))
}
