//! Edges with their sides: turned, in paths, and from the graph of a square.

ghost use Rattle.std.specs.Prelude.{◌<◌, ◌^◌, length, IfSome, IfOk};
ghost use Rattle.segment_split.specs.SegmentViews.{entries_of, AreWithin};
ghost use Rattle.segment_arrangement.specs.SideLaws.{IsArrangement};

use super::{contour_from, contours_from};
use contour_walk::vector::edge::{
    DataVectorEdge, DataVectorPath, DataVectorShape, SideFill, ToPath, reverse,
};
use contour_walk::vector::extract::{
    extract_separate_vectors, extract_vectors, extract_vectors_with_store,
};
use plane_base::fault::Fault;
use plane_base::int::OverlayInt;
use plane_base::path::IntPath;
use plane_base::point::IntPoint;
use reference::arrangements::{BooleanSegment, arrangement_slowly};
use segment_arrangement::builder::GraphBuilder;
use segment_arrangement::fill_rule::FillRule;
use segment_split::solver::Solver;
use std::alloc::Global;

// What each fill is turned: 1 and 2 change places, and 4 and 8.
const TURNED: [SideFill; 16] = [0, 2, 1, 3, 8, 10, 9, 11, 4, 6, 5, 7, 12, 14, 13, 15];

// Higher bits go.
#[test]
fn turns_fills(rt: HostRuntime) {
    for fill in 0..16 {
        assert!(rt; reverse(fill as SideFill) == TURNED[fill]);
    }
    assert!(rt; reverse(0b1111_0110) == 9 && reverse(16) == 0);
}

// The edges that these points bound, with a fill for each.
fn edges_from(
    alloc: Global,
    rows: &[[(i32, i32); 2]],
    fills: &[SideFill; 4],
) -> Result<Vec<DataVectorEdge<i32, ()>>, Fault> {
    let mut edges = Vec::new(alloc);
    for number in 0..4 {
        if number < rows.len() {
            let [(x, y), (u, v)] = rows[number];
            edges.push(DataVectorEdge {
                a: IntPoint::new(x, y),
                b: IntPoint::new(u, v),
                fill: fills[number],
                datum: (),
            })?;
        }
    }
    Ok(edges)
}

// A path of a triangle's edges.
fn triangle(alloc: Global) -> Result<DataVectorPath<i32, ()>, Fault> {
    let rows = [[(0, 0), (4, 0)], [(4, 0), (4, 3)], [(4, 3), (0, 0)]];
    let edges = edges_from(alloc, &rows, &[1, 1, 2, 0])?;
    Ok(DataVectorPath { edges })
}

// Whether the path of a triangle's edges has the points at which they begin.
fn begins_edges(alloc: Global) -> Result<bool, Fault> {
    let path = triangle(alloc)?;
    Ok(path.to_path(alloc)? == contour_from(alloc, &[(0, 0), (4, 0), (4, 3)])?)
}

#[test]
fn paths_begin_edges(rt: HostRuntime) {
    assert!(rt; begins_edges(rt.alloc()) == Ok(true));
}

// A shape of a triangle and of a path without edges.
fn shape_of_triangle(alloc: Global) -> Result<DataVectorShape<i32, ()>, Fault> {
    let mut paths = Vec::new(alloc);
    paths.push(triangle(alloc)?)?;
    paths.push(DataVectorPath {
        edges: Vec::new(alloc),
    })?;
    Ok(DataVectorShape { paths })
}

// Whether a copy of the path is like it, and stays as it is where the path loses an edge.
fn is_path_copied(alloc: Global) -> Result<bool, Fault> {
    let mut path = triangle(alloc)?;
    let wanted = triangle(alloc)?;
    let copy = path.clone()?;
    let is_like = path == wanted && copy == wanted;
    path.edges.pop();
    Ok(is_like && copy == wanted && path != copy)
}

// The same of a shape that loses its paths.
fn is_shape_copied(alloc: Global) -> Result<bool, Fault> {
    let mut shape = shape_of_triangle(alloc)?;
    let wanted = shape_of_triangle(alloc)?;
    let copy = shape.clone()?;
    let is_like = shape == wanted && copy == wanted;
    shape.paths.clear();
    Ok(is_like && copy == wanted && shape != copy)
}

#[test]
fn copies_paths_and_shapes(rt: HostRuntime) {
    assert!(rt; is_path_copied(rt.alloc()) == Ok(true));
    assert!(rt; is_shape_copied(rt.alloc()) == Ok(true));
}

// The links of a square from 0 to 10, each from its lesser end to its greater one: left, bottom, top and right.
const SIDES: [[(i32, i32); 2]; 4] = [
    [(0, 0), (0, 10)],
    [(0, 0), (10, 0)],
    [(0, 10), (10, 10)],
    [(10, 0), (10, 10)],
];

// The segments that contours are split into, where coordinates and counts are in range.
fn arrangement_of(
    alloc: Global,
    subjects: &[IntPath<i32>],
    clips: &[IntPath<i32>],
) -> Result<Option<Vec<BooleanSegment<i32>>>, Fault>
    ensures arrangement { IfOk result (λ found. IfSome found (λ segments. IsArrangement (entries_of ⟦<i32 as OverlayInt>⟧.value segments.items))) }
    ensures in_range { IfOk result (λ found. IfSome found (λ segments.
        AreWithin ⟦<i32 as OverlayInt>⟧.least ⟦<i32 as OverlayInt>⟧.greatest (entries_of ⟦<i32 as OverlayInt>⟧.value segments.items))) }
    ensures few { IfOk result (λ found. IfSome found (λ segments. length segments.items < 2 ^ 31)) }
{
    arrangement_slowly(alloc, subjects, clips, &Solver::AUTO)
}

// Whether the lists of edges of these contours are the sides of a square with these fills.
fn are_sides(
    alloc: Global,
    subjects: &[IntPath<i32>],
    clips: &[IntPath<i32>],
    fills: &[SideFill; 4],
) -> Result<bool, Fault> {
    let Some(segments) = arrangement_of(alloc, subjects, clips)? else {
        return Ok(false);
    };
    let mut builder = GraphBuilder::new(alloc)?;
    let graph = builder.build_boolean_all(FillRule::NonZero, &Solver::AUTO, &segments)?;
    let wanted = edges_from(alloc, &SIDES, fills)?;
    let edges = extract_vectors(alloc, &graph)?;
    let separate = extract_separate_vectors(alloc, &graph)?;
    let stored = extract_vectors_with_store(alloc, &graph, &mut ())?;
    Ok(edges == wanted && separate == wanted && stored == wanted)
}

// A square as subject, as clip, and as both.
fn lists_squares(alloc: Global) -> Result<[bool; 3], Fault> {
    let square = contours_from(alloc, &[&[(0, 0), (10, 0), (10, 10), (0, 10)]])?;
    Ok([
        are_sides(alloc, &square, &[], &[2, 1, 2, 1])?,
        are_sides(alloc, &[], &square, &[8, 4, 8, 4])?,
        are_sides(alloc, &square, &square, &[10, 5, 10, 5])?,
    ])
}

// The square is above the bottom, and on the right of its left side, which counts as below it.
#[test]
fn lists_links_with_fills(rt: HostRuntime) {
    assert!(rt; lists_squares(rt.alloc()) == Ok([true; 3]));
}
