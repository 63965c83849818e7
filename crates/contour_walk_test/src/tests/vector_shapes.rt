//! Shapes of edges with their sides, from the graphs of small maps.

ghost use Rattle.std.specs.Prelude.{◌<◌, ◌^◌, length, IfSome, IfOk};
ghost use Rattle.segment_split.specs.SegmentViews.{entries_of, AreWithin};
ghost use Rattle.segment_arrangement.specs.SideLaws.{IsArrangement};

use super::contours_from;
use contour_walk::extract::BooleanExtractionBuffer;
use contour_walk::options::IntOverlayOptions;
use contour_walk::vector::edge::{DataVectorEdge, DataVectorPath, DataVectorShape, SideFill};
use contour_walk::vector::extract::{extract_vector_shapes, extract_vector_shapes_with_store};
use plane_base::fault::Fault;
use plane_base::int::OverlayInt;
use plane_base::path::IntPath;
use plane_base::point::IntPoint;
use reference::arrangements::{BooleanSegment, arrangement_slowly};
use segment_arrangement::builder::GraphBuilder;
use segment_arrangement::fill_rule::FillRule;
use segment_arrangement::overlay_rule::OverlayRule;
use segment_split::solver::Solver;
use std::alloc::Global;

type Point = (i32, i32);

// Where an edge begins, and its fill. It ends where the next begins.
type Start = (i32, i32, SideFill);

// Shapes of paths.
type Shapes<'a> = &'a [&'a [&'a [Start]]];

// The segments that contours are split into, where coordinates and counts are in range.
fn arrangement_of(
    alloc: Global,
    subjects: &[IntPath<i32>],
    clips: &[IntPath<i32>],
) -> Result<Option<Vec<BooleanSegment<i32>>>, Fault>
    ensures arrangement { IfOk result (λ found. IfSome found (λ segments. IsArrangement (entries_of ⟦<i32 as OverlayInt>⟧.value segments.items))) }
    ensures in_range { IfOk result (λ found. IfSome found (λ segments.
        AreWithin ⟦<i32 as OverlayInt>⟧.least ⟦<i32 as OverlayInt>⟧.greatest (entries_of ⟦<i32 as OverlayInt>⟧.value segments.items))) }
    ensures few { IfOk result (λ found. IfSome found (λ segments. length segments.items < 2 ^ 31)) }
{
    arrangement_slowly(alloc, subjects, clips, &Solver::AUTO)
}

fn path_from(alloc: Global, starts: &[Start]) -> Result<DataVectorPath<i32, ()>, Fault> {
    let mut edges = Vec::new(alloc);
    for number in 0..starts.len() {
        let next = if number + 1 < starts.len() {
            number + 1
        } else {
            0
        };
        let (x, y, fill) = starts[number];
        let (u, v, _fill) = starts[next];
        edges.push(DataVectorEdge {
            a: IntPoint::new(x, y),
            b: IntPoint::new(u, v),
            fill,
            datum: (),
        })?;
    }
    Ok(DataVectorPath { edges })
}

fn shapes_from(alloc: Global, shapes: Shapes<'_>) -> Result<Vec<DataVectorShape<i32, ()>>, Fault> {
    let mut all = Vec::new(alloc);
    for shape in shapes {
        let mut paths = Vec::new(alloc);
        for starts in *shape {
            paths.push(path_from(alloc, starts)?)?;
        }
        all.push(DataVectorShape { paths })?;
    }
    Ok(all)
}

// Whether these shapes are extracted, from the graph of all segments and from that of the boundary.
fn are_extracted(
    alloc: Global,
    rows: (&[&[Point]], &[&[Point]]),
    rule: OverlayRule,
    options: IntOverlayOptions,
    wanted: Shapes<'_>,
) -> Result<bool, Fault> {
    let subjects = contours_from(alloc, rows.0)?;
    let clips = contours_from(alloc, rows.1)?;
    let Some(segments) = arrangement_of(alloc, &subjects, &clips)? else {
        return Ok(false);
    };
    let wanted = shapes_from(alloc, wanted)?;
    let mut buffer = BooleanExtractionBuffer::new(alloc);
    let mut builder = GraphBuilder::new(alloc)?;
    let graph = builder.build_boolean_all(FillRule::NonZero, &Solver::AUTO, &segments)?;
    let of_all = extract_vector_shapes(alloc, &graph, options, rule, &mut buffer)?;
    let graph = builder.build_boolean_overlay(FillRule::NonZero, rule, &Solver::AUTO, &segments)?;
    let of_boundary = extract_vector_shapes_with_store(
        alloc,
        &graph,
        options,
        rule,
        &mut buffer,
        &mut (),
    )?;
    Ok(of_all == wanted && of_boundary == wanted)
}

// Two squares side by side are one shape: with all points, and without the two at which they meet.
fn joins_squares(alloc: Global) -> Result<[bool; 2], Fault> {
    let squares: (&[&[Point]], &[&[Point]]) = (
        &[
            &[(0, 0), (2, 0), (2, 2), (0, 2)],
            &[(2, 0), (4, 0), (4, 2), (2, 2)],
        ],
        &[],
    );
    Ok([
        are_extracted(
            alloc,
            squares,
            OverlayRule::Subject,
            IntOverlayOptions::keep_all_points(),
            &[&[&[
                (0, 2, 1),
                (0, 0, 1),
                (2, 0, 1),
                (4, 0, 1),
                (4, 2, 1),
                (2, 2, 1),
            ]]],
        )?,
        are_extracted(
            alloc,
            squares,
            OverlayRule::Subject,
            IntOverlayOptions::default(),
            &[&[&[(0, 0, 1), (4, 0, 1), (4, 2, 1), (0, 2, 1)]]],
        )?,
    ])
}

#[test]
fn joins_neighbours_that_are_filled_alike(rt: HostRuntime) {
    assert!(rt; joins_squares(rt.alloc()) == Ok([true; 2]));
}

// Two squares, one of them a clip: the same is filled nowhere beside both, so all points stay.
fn overlaps_squares(alloc: Global) -> Result<[bool; 2], Fault> {
    let squares: (&[&[Point]], &[&[Point]]) = (
        &[&[(0, 0), (4, 0), (4, 4), (0, 4)]],
        &[&[(2, 0), (6, 0), (6, 4), (2, 4)]],
    );
    Ok([
        are_extracted(
            alloc,
            squares,
            OverlayRule::Union,
            IntOverlayOptions::default(),
            &[&[&[
                (0, 4, 1),
                (0, 0, 1),
                (2, 0, 5),
                (4, 0, 4),
                (6, 0, 4),
                (6, 4, 4),
                (4, 4, 5),
                (2, 4, 1),
            ]]],
        )?,
        are_extracted(
            alloc,
            squares,
            OverlayRule::Intersect,
            IntOverlayOptions::default(),
            &[&[&[(2, 4, 7), (2, 0, 5), (4, 0, 13), (4, 4, 5)]]],
        )?,
    ])
}

#[test]
fn keeps_points_where_fills_change(rt: HostRuntime) {
    assert!(rt; overlaps_squares(rt.alloc()) == Ok([true; 2]));
}

// A square less one within it has a hole, and equal squares leave nothing.
fn takes_squares_away(alloc: Global) -> Result<[bool; 2], Fault> {
    let large: &[Point] = &[(0, 0), (9, 0), (9, 9), (0, 9)];
    Ok([
        are_extracted(
            alloc,
            (&[large], &[&[(3, 3), (6, 3), (6, 6), (3, 6)]]),
            OverlayRule::Difference,
            IntOverlayOptions::default(),
            &[&[
                &[(0, 9, 1), (0, 0, 1), (9, 0, 1), (9, 9, 1)],
                &[(3, 3, 11), (3, 6, 11), (6, 6, 11), (6, 3, 11)],
            ]],
        )?,
        are_extracted(
            alloc,
            (&[large], &[large]),
            OverlayRule::Difference,
            IntOverlayOptions::default(),
            &[],
        )?,
    ])
}

#[test]
fn extracts_what_is_left(rt: HostRuntime) {
    assert!(rt; takes_squares_away(rt.alloc()) == Ok([true; 2]));
}
