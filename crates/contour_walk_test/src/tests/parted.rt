//! Contours that touch themselves, parted or not, and shapes that reach a least area: rows worked out by hand, and drawn maps.

use super::overlays::{
    Query, arrangement_of, counted, drawn, new_extraction, nth_query, shapes_of, wind_rightly,
};
use super::words::{contours_from, direction_from, shapes_from};
use contour_walk::options::IntOverlayOptions;
use plane_base::fault::Fault;
use plane_base::path::{IntPath, IntShapes};
use row_words::Words;
use segment_arrangement::fill_rule::FillRule;
use segment_arrangement::overlay_rule::OverlayRule;
use segment_split::solver::Solver;
use std::alloc::Global;
use std::test::Fail;

fn options_from(words: &mut Words<'_>) -> IntOverlayOptions {
    let output_direction = direction_from(words);
    let kept = words.next();
    words.note(kept == "points" || kept == "corners");
    let preserve_output_collinear = kept == "points";
    let parts = words.next();
    words.note(parts == "parted" || parts == "plain");
    let ogc = parts == "parted";
    let least = u64::try_from(words.wide()).ok();
    IntOverlayOptions {
        preserve_input_collinear: false,
        output_direction,
        preserve_output_collinear,
        min_output_area: words.read(least, 0),
        ogc,
    }
}

// The shapes of contours by the even-odd rule. There are none where the contours are out of range.
fn answer(
    alloc: Global,
    options: IntOverlayOptions,
    subjects: &[IntPath<i32>],
) -> Result<Option<IntShapes<i32>>, Fault> {
    let query = Query {
        rule: OverlayRule::Subject,
        fill: FillRule::EvenOdd,
        solver: Solver::AUTO,
        options,
    };
    let Some(segments) = arrangement_of(alloc, &query, subjects, &[])? else {
        return Ok(None);
    };
    let mut extraction = new_extraction(alloc)?;
    Ok(Some(shapes_of(alloc, &mut extraction, &query, &segments)?))
}

// Whether a row is answered as it says, in all its words.
fn is_answered(alloc: Global, row: &str) -> bool {
    let mut words = Words::of(alloc, row);
    let options = options_from(&mut words);
    let subjects = contours_from(&mut words);
    let wanted = shapes_from(&mut words);
    words.are_read() && answer(alloc, options, &subjects) == Ok(Some(wanted))
}

// A row has a direction, whether corners alone or all points are answered, whether contours are parted, the least area, contours, and the shapes
// of the answer. A list stands behind the number of its members.
const ROWS: &str = "\
# an island that touches the wall of its hole
CounterClockwise points plain 0 3 4 0 0 20 0 20 20 0 20 4 4 4 16 4 16 16 4 16 3 4 10 10 7 10 13 1 2 4 0 20 0 0 20 0 20 20 8 4 4 4 10 10 7 10 \
13 4 10 4 16 16 16 16 4
CounterClockwise points parted 0 3 4 0 0 20 0 20 20 0 20 4 4 4 16 4 16 16 4 16 3 4 10 10 7 10 13 2 2 4 0 20 0 0 20 0 20 20 5 4 4 4 10 4 16 \
16 16 16 4 1 3 10 13 4 10 10 7
# two holes that share two points
CounterClockwise points plain 0 3 4 -2 -2 20 -2 20 20 -2 20 4 2 6 6 2 10 6 6 10 4 8 6 12 2 16 6 12 10 1 3 4 -2 20 -2 -2 20 -2 20 20 6 2 6 6 \
10 9 7 8 6 9 5 6 2 6 9 5 10 6 9 7 12 10 16 6 12 2
CounterClockwise points parted 0 3 4 -2 -2 20 -2 20 20 -2 20 4 2 6 6 2 10 6 6 10 4 8 6 12 2 16 6 12 10 2 2 4 -2 20 -2 -2 20 -2 20 20 8 2 6 6 \
10 9 7 12 10 16 6 12 2 9 5 6 2 1 4 9 7 8 6 9 5 10 6
# two squares that share a corner
CounterClockwise points plain 0 2 4 0 0 4 0 4 4 0 4 4 4 4 8 4 8 8 4 8 2 1 4 0 4 0 0 4 0 4 4 1 4 4 8 4 4 8 4 8 8
CounterClockwise points parted 0 2 4 0 0 4 0 4 4 0 4 4 4 4 8 4 8 8 4 8 2 1 4 0 4 0 0 4 0 4 4 1 4 4 8 4 4 8 4 8 8
# a hole at a corner
CounterClockwise points plain 0 2 4 0 0 20 0 20 20 0 20 3 0 0 8 4 8 8 1 1 7 0 20 0 0 8 8 8 4 0 0 20 0 20 20
CounterClockwise points parted 0 2 4 0 0 20 0 20 20 0 20 3 0 0 8 4 8 8 1 2 4 0 20 0 0 20 0 20 20 3 0 0 8 8 8 4
Clockwise points parted 0 2 4 0 0 20 0 20 20 0 20 3 0 0 8 4 8 8 1 2 4 0 0 0 20 20 20 20 0 3 8 8 0 0 8 4
# an island that touches four walls
CounterClockwise points parted 0 3 4 0 0 24 0 24 24 0 24 4 3 3 21 3 21 21 3 21 4 3 12 12 3 21 12 12 21 2 2 4 0 24 0 0 24 0 24 24 8 3 3 3 12 \
3 21 12 21 21 21 21 12 21 3 12 3 1 4 12 21 3 12 12 3 21 12
# two holes that share a point
CounterClockwise points plain 0 3 4 0 0 12 0 12 12 0 12 3 3 3 6 6 3 9 3 9 3 6 6 9 9 1 3 4 0 12 0 0 12 0 12 12 3 3 3 3 9 6 6 3 6 6 9 9 9 3
CounterClockwise points parted 0 3 4 0 0 12 0 12 12 0 12 3 3 3 6 6 3 9 3 9 3 6 6 9 9 1 3 4 0 12 0 0 12 0 12 12 3 3 3 3 9 6 6 3 6 6 9 9 9 3
# a hole at a side
CounterClockwise points parted 0 2 4 0 0 12 0 12 12 0 12 3 0 6 6 3 6 9 1 2 5 0 6 0 0 12 0 12 12 0 12 3 0 6 6 9 6 3
CounterClockwise corners parted 0 2 4 0 0 12 0 12 12 0 12 3 0 6 6 3 6 9 1 2 4 0 0 12 0 12 12 0 12 3 0 6 6 9 6 3
# one unit and a half
CounterClockwise points plain 1 1 3 0 0 3 0 0 1 1 1 3 0 1 0 0 3 0
CounterClockwise points plain 2 1 3 0 0 3 0 0 1 0
# squares of 400, 4, 100 and 9 units
CounterClockwise points plain 5 4 4 0 0 20 0 20 20 0 20 4 2 2 4 2 4 4 2 4 4 6 6 16 6 16 16 6 16 4 30 30 33 30 33 33 30 33 2 2 4 0 20 0 0 20 \
0 20 20 4 6 6 6 16 16 16 16 6 1 4 30 33 30 30 33 30 33 33
CounterClockwise points parted 100 4 4 0 0 20 0 20 20 0 20 4 2 2 4 2 4 4 2 4 4 6 6 16 6 16 16 6 16 4 30 30 33 30 33 33 30 33 1 2 4 0 20 0 0 \
20 0 20 20 4 6 6 6 16 16 16 16 6
CounterClockwise points plain 101 4 4 0 0 20 0 20 20 0 20 4 2 2 4 2 4 4 2 4 4 6 6 16 6 16 16 6 16 4 30 30 33 30 33 33 30 33 1 1 4 0 20 0 0 20 0 20 20
CounterClockwise points plain 401 4 4 0 0 20 0 20 20 0 20 4 2 2 4 2 4 4 2 4 4 6 6 16 6 16 16 6 16 4 30 30 33 30 33 33 30 33 0
";

#[test]
fn parts_rows(rt: HostRuntime) {
    for line in ROWS.lines() {
        if !line.starts_with("#") {
            assert!(rt; is_answered(rt.alloc(), line), "{line}");
        }
    }
}

// Whether a point stands twice in a contour.
fn repeats_a_point(contour: &IntPath<i32>) -> bool {
    let points = &contour.points;
    for i in 0..points.len() {
        for j in 0..i {
            if points[i] == points[j] {
                return true;
            }
        }
    }
    false
}

fn touches_itself(shapes: &IntShapes<i32>) -> bool {
    shapes.shapes.iter().any(|shape| shape
        .contours
        .iter()
        .any(|contour| repeats_a_point(contour)))
}

// How many of the answers to a map have contours that touch themselves, where the parted ones have none, and wind as the region says.
fn touching(alloc: Global, map: usize, seed: &mut u64) -> Result<Option<usize>, Fault> {
    let subjects = drawn(alloc, 1 + map % 3, seed)?;
    let clips = drawn(alloc, 1 + map % 5, seed)?;
    let plain = nth_query(map);
    let parted = Query {
        options: IntOverlayOptions {
            ogc: true,
            ..plain.options
        },
        ..plain
    };
    let Some(segments) = arrangement_of(alloc, &plain, &subjects, &clips)? else {
        return Ok(None);
    };
    let mut extraction = new_extraction(alloc)?;
    let as_walked = shapes_of(alloc, &mut extraction, &plain, &segments)?;
    let answered = shapes_of(alloc, &mut extraction, &parted, &segments)?;
    let edges = counted(alloc, &segments)?;
    if touches_itself(&answered) || (map % 9 == 0 && !wind_rightly(&parted, &edges, &answered)) {
        return Ok(None);
    }
    Ok(Some(if touches_itself(&as_walked) { 1 } else { 0 }))
}

// So many of the drawn maps are answered with contours that touch themselves.
fn all_touching(alloc: Global) -> Result<Option<usize>, Fault> {
    let mut seed = 29;
    let mut many = 0_usize;
    for map in 0..2000 {
        let Some(more) = touching(alloc, map, &mut seed)? else {
            return Ok(None);
        };
        many = many.wrapping_add(more);
    }
    Ok(Some(many))
}

#[test]
fn parted_contours_of_small_maps(rt: HostRuntime) -> Result<(), Fail> {
    let many = all_touching(rt.alloc())?;
    assert!(rt; many.is_some());
    assert!(rt; many > Some(100));
    Ok(())
}
