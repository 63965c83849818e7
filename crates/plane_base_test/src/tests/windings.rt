//! The map that contours give, how often contours and maps wind round a place, and whether it lies on an edge.

use super::all_answered;
use super::words::{contours_from, segment_from};
use plane_base::path::IntPath;
use plane_base::range::all_contours_in_range;
use reference::maps::{CountedEdge, EdgeCount, given_slowly};
use reference::windings::{all_edges_in_range, contour_winding_at, is_off, winding_at};
use row_words::Words;

// A place, by its numerators and their denominator.
#[derive(Clone, Copy)]
struct Place {
    x: i64,
    y: i64,
    q: u32,
}

fn place_from(words: &mut Words<'_>) -> Place {
    let x = words.number();
    let y = words.number();
    let q = u32::try_from(words.wide()).ok();
    Place {
        x,
        y,
        q: words.read(q, 1),
    }
}

// Edges, each with how often subject and clip contours run along it.
fn edges_from(words: &mut Words<'_>) -> Vec<CountedEdge<i32>> {
    let mut edges = Vec::new(words.alloc());
    for _ in 0..words.count() {
        let edge = segment_from(words);
        let subject = words.wide();
        let clip = words.wide();
        let count = EdgeCount { subject, clip };
        words.note(edges.push(CountedEdge { edge, count }).is_ok());
    }
    edges
}

// The map that the row's subject and clip contours give.
fn map_from(words: &mut Words<'_>) -> Vec<CountedEdge<i32>> {
    let subjects = contours_from(words);
    let clips = contours_from(words);
    match given_slowly(words.alloc(), &subjects, &clips) {
        Ok(map) => map,
        Err(_) => {
            words.note(false);
            Vec::new(words.alloc())
        }
    }
}

// A winding, or `none`.
fn winding_from(words: &mut Words<'_>) -> Option<EdgeCount> {
    let word = words.next();
    if word == "none" {
        return None;
    }
    let subject = words.read(word.parse().ok(), 0);
    let clip = words.wide();
    Some(EdgeCount { subject, clip })
}

// Whether a row of contours or of the map that they give is answered as it says.
fn is_answered(words: &mut Words<'_>) -> bool {
    match words.next() {
        "contours" => contours_wind_round(words),
        "winding" => contours_give_winding(words),
        "counts" => map_winds_round(words),
        "off" => place_lies_off(words),
        "map" => map_from(words) == edges_from(words),
        _ => false,
    }
}

fn contours_wind_round(words: &mut Words<'_>) -> bool {
    let place = place_from(words);
    let contours = contours_from(words);
    wind_round(&contours, place, words.wide())
}

fn wind_round(contours: &[IntPath<i32>], place: Place, wanted: i128) -> bool {
    let Place { x, y, q } = place;
    all_contours_in_range(contours) && contour_winding_at(contours, x, y, q) == wanted
}

fn contours_give_winding(words: &mut Words<'_>) -> bool {
    let place = place_from(words);
    let map = map_from(words);
    winds_round(&map, place, winding_from(words))
}

fn map_winds_round(words: &mut Words<'_>) -> bool {
    let place = place_from(words);
    let map = edges_from(words);
    winds_round(&map, place, winding_from(words))
}

fn winds_round(map: &[CountedEdge<i32>], place: Place, wanted: Option<EdgeCount>) -> bool {
    let Place { x, y, q } = place;
    all_edges_in_range(map) && winding_at(map, x, y, q) == wanted
}

fn place_lies_off(words: &mut Words<'_>) -> bool {
    let place = place_from(words);
    let map = map_from(words);
    lies_off(&map, place, words.flag())
}

fn lies_off(map: &[CountedEdge<i32>], place: Place, wanted: bool) -> bool {
    let Place { x, y, q } = place;
    all_edges_in_range(map) && is_off(map, x, y, q) == wanted
}

// A place is x/q y/q.
const ROWS: &str = "\
# how often contours wind round a place
contours 5 5 1 1 4 0 0 10 0 10 10 0 10 1
contours 15 5 1 1 4 0 0 10 0 10 10 0 10 0
contours -1 5 1 1 4 0 0 10 0 10 10 0 10 0
contours 1 21 2 1 4 0 0 10 0 10 10 0 10 0
contours 1 19 2 1 4 0 0 10 0 10 10 0 10 1
# the column of a corner belongs to the edge that begins there
contours 0 20 1 1 4 0 0 10 0 10 10 0 10 0
contours 0 5 1 1 4 0 0 10 0 10 10 0 10 1
contours 10 5 1 1 4 0 0 10 0 10 10 0 10 0
contours 5 5 1 1 4 0 0 0 10 10 10 10 0 -1
contours 5 15 1 1 4 0 0 0 10 10 10 10 0 0
# the left loop runs counterclockwise, the right one clockwise
contours 1 5 1 1 4 0 0 10 10 10 0 0 10 1
contours 9 5 1 1 4 0 0 10 10 10 0 0 10 -1
contours 5 9 1 1 4 0 0 10 10 10 0 0 10 0
contours 10 1 3 1 4 0 0 10 10 10 0 0 10 0
contours 5 5 1 2 4 0 0 10 0 10 10 0 10 4 0 0 10 0 10 10 0 10 2
contours 5 5 1 2 4 0 0 10 0 10 10 0 10 4 0 0 0 10 10 10 10 0 0
# two squares, one over a corner of the other
contours 7 7 1 2 4 0 0 10 0 10 10 0 10 4 5 5 15 5 15 15 5 15 2
contours 2 2 1 2 4 0 0 10 0 10 10 0 10 4 5 5 15 5 15 15 5 15 1
contours 12 12 1 2 4 0 0 10 0 10 10 0 10 4 5 5 15 5 15 15 5 15 1
contours 5 7 1 2 4 0 0 10 0 10 10 0 10 4 5 5 15 5 15 15 5 15 2
contours 7 8 1 2 1 7 7 0 0
contours 0 0 1 0 0

# how often subjects and clips wind round a place
winding 7 7 1 1 4 0 0 10 0 10 10 0 10 1 4 5 5 15 5 15 15 5 15 1 1
winding 2 2 1 1 4 0 0 10 0 10 10 0 10 1 4 5 5 15 5 15 15 5 15 1 0
winding 12 12 1 1 4 0 0 10 0 10 10 0 10 1 4 5 5 15 5 15 15 5 15 0 1
winding 20 7 1 1 4 0 0 10 0 10 10 0 10 1 4 5 5 15 5 15 15 5 15 0 0
# above the subject's northern edge
winding 7 12 1 1 4 0 0 10 0 10 10 0 10 1 4 5 5 15 5 15 15 5 15 0 1
winding 5 5 1 2 4 0 0 10 0 10 10 0 10 4 0 0 10 0 10 10 0 10 1 4 0 0 0 10 10 10 10 0 2 -1
winding 5 12 1 2 4 0 0 10 0 10 10 0 10 4 0 0 10 0 10 10 0 10 1 4 0 0 0 10 10 10 10 0 0 0
winding 19 19 2 2 4 0 0 10 0 10 10 0 10 4 0 0 10 0 10 10 0 10 1 4 0 0 0 10 10 10 10 0 2 -1
winding 21 5 2 2 4 0 0 10 0 10 10 0 10 4 0 0 10 0 10 10 0 10 1 4 0 0 0 10 10 10 10 0 0 0

# how often maps wind round 5 5, above all their edges; 4611686018427387904 is 2^62, and beyond it there is no answer
counts 5 5 1 1 0 0 10 0 4611686018427387904 -4611686018427387904 4611686018427387904 -4611686018427387904
counts 5 5 1 3 0 0 10 0 4611686018427387904 -1 0 1 10 1 4611686018427387904 0 0 2 10 2 4611686018427387904 3 13835058055282163712 2
counts 5 5 1 1 0 0 10 0 4611686018427387905 0 none
counts 5 5 1 1 0 0 10 0 -4611686018427387905 0 none
counts 5 5 1 1 0 0 10 0 0 4611686018427387905 none
counts 5 5 1 2 0 0 10 0 1 0 0 9 10 9 0 -4611686018427387905 none

# whether a place lies off all edges
off 5 5 1 1 4 0 0 10 0 10 10 0 10 0 true
# on an edge, and on a corner
off 5 0 1 1 4 0 0 10 0 10 10 0 10 0 false
off 0 5 1 1 4 0 0 10 0 10 10 0 10 0 false
off 1 0 2 1 4 0 0 10 0 10 10 0 10 0 false
off 20 19 2 1 4 0 0 10 0 10 10 0 10 0 false
off 10 10 1 1 4 0 0 10 0 10 10 0 10 0 false
off 0 0 1 1 4 0 0 10 0 10 10 0 10 0 false
# beside an edge
off 1 1 2 1 4 0 0 10 0 10 10 0 10 0 true
off 10 21 2 1 4 0 0 10 0 10 10 0 10 0 true
# on the line of an edge, beyond its ends
off 15 0 1 1 4 0 0 10 0 10 10 0 10 0 true
off -1 0 1 1 4 0 0 10 0 10 10 0 10 0 true
off 0 11 1 1 4 0 0 10 0 10 10 0 10 0 true
off 20 21 2 1 4 0 0 10 0 10 10 0 10 0 true
off 10 -1 1 1 4 0 0 10 0 10 10 0 10 0 true
# on both diagonals, on one, on none
off 5 5 1 1 4 0 0 10 10 10 0 0 10 0 false
off 7 7 2 1 4 0 0 10 10 10 0 0 10 0 false
off 5 4 1 1 4 0 0 10 10 10 0 0 10 0 true
off 11 11 1 1 4 0 0 10 10 10 0 0 10 0 true
# a common edge that vanishes
off 5 0 1 2 4 0 0 10 0 10 10 0 10 4 0 0 0 10 10 10 10 0 0 true
off 0 0 1 0 0 true

# the map that contours give
# the western and the northern edge are turned
map 1 4 0 0 10 0 10 10 0 10 0 4 0 0 0 10 -1 0 0 0 10 0 1 0 0 10 10 10 -1 0 10 0 10 10 1 0
# the common edge runs up in one square and down in the other, and vanishes
map 2 4 0 0 10 0 10 10 0 10 4 10 0 20 0 20 10 10 10 0 6 0 0 0 10 -1 0 0 0 10 0 1 0 0 10 10 10 -1 0 10 0 20 0 1 0 10 10 20 10 -1 0 20 0 20 10 1 0
# the clip runs twice round its square, and shares an edge with the subject
map 1 4 0 0 10 0 10 10 0 10 2 4 10 0 20 0 20 10 10 10 4 20 10 10 10 10 0 20 0 7 0 0 0 10 -1 0 0 0 10 0 1 0 0 10 10 10 -1 0 10 0 10 10 1 -2 \
10 0 20 0 0 2 10 10 20 10 0 -2 20 0 20 10 0 2
# steps of no length, a way there and back, and once round and once back
map 3 0 1 7 7 3 3 3 3 3 3 3 3 2 0 0 3 4 3 0 0 10 0 10 10 3 10 10 10 0 0 0 0
";

#[test]
fn answers_rows_of_windings(rt: HostRuntime) {
    all_answered(&rt, ROWS, is_answered);
}
