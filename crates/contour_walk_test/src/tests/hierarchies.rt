//! Hierarchies of drawn maps, against shapes that are extracted and links that are sought slowly; and a hierarchy of which growths are refused.

ghost use Rattle.std.specs.Prelude.{◌<◌, ◌^◌, length};
ghost use Rattle.segment_split.specs.SegmentViews.{entries_of, AreWithin};
ghost use Rattle.segment_arrangement.specs.SideLaws.{IsArrangement};

use super::contours_from;
use super::overlays::{Extraction, Query, arrangement_of, new_extraction, nth_query, shapes_of};
use contour_walk::contour_direction::ContourDirection;
use contour_walk::extract::extract_shape_hierarchy;
use contour_walk::hierarchy::{ChildLink, FlatShapeHierarchy};
use contour_walk::options::IntOverlayOptions;
use plane_base::fault::Fault;
use plane_base::int::OverlayInt;
use plane_base::path::{IntPath, IntShapes};
use plane_base::point::IntPoint;
use reference::arrangements::BooleanSegment;
use segment_arrangement::fill_rule::FillRule;
use segment_arrangement::overlay_rule::OverlayRule;
use segment_split::solver::Solver;
use std::alloc::Global;

// The hierarchy of an arrangement, by its graph.
fn hierarchy_of(
    alloc: Global,
    extraction: &mut Extraction,
    query: &Query,
    segments: &[BooleanSegment<i32>],
) -> Result<FlatShapeHierarchy<i32>, Fault>
    requires in_range { AreWithin ⟦<i32 as OverlayInt>⟧.least ⟦<i32 as OverlayInt>⟧.greatest (entries_of ⟦<i32 as OverlayInt>⟧.value segments.now) }
    requires arrangement { IsArrangement (entries_of ⟦<i32 as OverlayInt>⟧.value segments.now) }
    requires few { length segments.now < 2 ^ 31 }
{
    let Extraction { builder, buffer } = extraction;
    let graph = builder.build_boolean_overlay(query.fill, query.rule, &query.solver, segments)?;
    extract_shape_hierarchy(alloc, &graph, query.options, query.rule, buffer)
}

// An edge of an answer, its lesser end first: whether the region is below it, and its contour with its shape.
#[derive(Clone, Copy)]
struct Edge {
    a: IntPoint<i32>,
    b: IntPoint<i32>,
    is_filled_below: bool,
    shape: usize,
    contour: usize,
    is_hole: bool,
}

impl Edge {
    fn width(&self) -> i64 {
        i64::from(self.b.x).wrapping_sub(i64::from(self.a.x))
    }

    fn rise(&self) -> i64 {
        i64::from(self.b.y).wrapping_sub(i64::from(self.a.y))
    }

    // The height at a column, times the width.
    fn height(&self, x: i32) -> i64 {
        let along = i64::from(x).wrapping_sub(i64::from(self.a.x));
        i64::from(self.a.y)
            .wrapping_mul(self.width())
            .wrapping_add(along.wrapping_mul(self.rise()))
    }

    // Whether it passes below another just right of a column over which both reach.
    fn is_below(&self, other: &Edge, x: i32) -> bool {
        let height = self.height(x).wrapping_mul(other.width());
        let other_height = other.height(x).wrapping_mul(self.width());
        let rise = self.rise().wrapping_mul(other.width());
        let other_rise = other.rise().wrapping_mul(self.width());
        height < other_height || height == other_height && rise < other_rise
    }

    fn reaches_over(&self, x: i32) -> bool {
        self.a.x <= x && x < self.b.x
    }
}

// The edges of all contours. The region is to the left of a step, or to the right where outlines run clockwise.
fn edges_of(
    alloc: Global,
    is_clockwise: bool,
    shapes: &IntShapes<i32>,
) -> Result<Vec<Edge>, Fault> {
    let mut edges = Vec::new(alloc);
    let mut contour = 0_usize;
    for shape in 0..shapes.shapes.len() {
        let contours = &shapes.shapes[shape].contours;
        for number in 0..contours.len() {
            let points = &contours[number].points;
            for place in 0..points.len() {
                let from = points[place];
                let to = if place + 1 < points.len() {
                    points[place + 1]
                } else {
                    points[0]
                };
                let is_forward = from < to;
                edges.push(Edge {
                    a: if is_forward { from } else { to },
                    b: if is_forward { to } else { from },
                    is_filled_below: is_forward == is_clockwise,
                    shape,
                    contour,
                    is_hole: number > 0,
                })?;
            }
            contour = contour.wrapping_add(1);
        }
    }
    Ok(edges)
}

// The lowest edge at the least point of a contour.
fn anchor(edges: &[Edge], contour: usize) -> Option<Edge> {
    let mut found: Option<Edge> = None;
    for edge in edges {
        if edge.contour == contour {
            found = match found {
                Some(other)
                    if other.a < edge.a || other.a == edge.a && !edge.is_below(&other, edge.a.x) =>
                    Some(other),
                _ => Some(*edge),
            };
        }
    }
    found
}

// The highest edge with the region below it that passes below an anchor.
fn below(edges: &[Edge], anchor: &Edge) -> Option<Edge> {
    let x = anchor.a.x;
    let mut found: Option<Edge> = None;
    for edge in edges {
        if edge.is_filled_below && edge.reaches_over(x) && edge.is_below(anchor, x) {
            found = match found {
                Some(other) if edge.is_below(&other, x) => Some(other),
                _ => Some(*edge),
            };
        }
    }
    found
}

// The edge of the hole in which an outline lies.
fn parent(edges: &[Edge], outline: usize) -> Option<Edge> {
    let mut at = outline;
    for _ in 0..edges.len() {
        let met = below(edges, &anchor(edges, at)?)?;
        if met.is_hole {
            return Some(met);
        }
        at = met.contour;
    }
    None
}

// The links of shapes with all their points, in order.
fn links_slowly(
    alloc: Global,
    is_clockwise: bool,
    shapes: &IntShapes<i32>,
) -> Result<Vec<ChildLink>, Fault> {
    let edges = edges_of(alloc, is_clockwise, shapes)?;
    let mut links = Vec::new(alloc);
    let mut outline = 0_usize;
    for child in 0..shapes.shapes.len() {
        if let Some(hole) = parent(&edges, outline) {
            links.push(ChildLink {
                parent_shape_index: hole.shape,
                parent_contour_index: hole.contour,
                child_shape_index: child,
            })?;
        }
        outline = outline.wrapping_add(shapes.shapes[child].contours.len());
    }
    links.sort_unstable();
    Ok(links)
}

// How many links the hierarchy of contours has, where its shapes are those that are extracted, and its links those that are sought slowly.
fn agreed(
    alloc: Global,
    extraction: &mut Extraction,
    query: &Query,
    subjects: &[IntPath<i32>],
    clips: &[IntPath<i32>],
) -> Result<Option<usize>, Fault> {
    let Some(segments) = arrangement_of(alloc, query, subjects, clips)? else {
        return Ok(None);
    };
    let found = hierarchy_of(alloc, extraction, query, &segments)?;
    let shapes = shapes_of(alloc, extraction, query, &segments)?;
    let all_points = Query {
        options: IntOverlayOptions {
            preserve_output_collinear: true,
            ..query.options
        },
        ..*query
    };
    let whole = shapes_of(alloc, extraction, &all_points, &segments)?;
    let is_clockwise = query.options.output_direction == ContourDirection::Clockwise;
    let links = links_slowly(alloc, is_clockwise, &whole)?;
    if !found.shapes.is_well_formed() {
        return Ok(None);
    }
    if found.shapes.to_shapes(alloc)? == shapes && found.links == links {
        return Ok(Some(links.len()));
    }
    Ok(None)
}

// A number below 4, as if drawn.
fn draw(seed: &mut u64) -> i32 {
    *seed = seed
        .wrapping_mul(6364136223846793005)
        .wrapping_add(1442695040888963407);
    ((*seed >> 33) % 4) as i32
}

// So many rectangles, each in the one before but where they touch or overlap, and small triangles between them.
fn drawn_rings(alloc: Global, number: u8, seed: &mut u64) -> Result<Vec<IntPath<i32>>, Fault> {
    let mut contours = Vec::new(alloc);
    for ring in 0..number {
        let inset = 3 * i32::from(ring);
        let (low, high) = (inset, 50 - inset);
        let (left, bottom) = (low.wrapping_add(draw(seed)), low.wrapping_add(draw(seed)));
        let (right, top) = (high.wrapping_sub(draw(seed)), high.wrapping_sub(draw(seed)));
        let row = [(left, bottom), (right, bottom), (right, top), (left, top)];
        super::add_contour(&mut contours, &row)?;
        let (x, y) = (
            left.wrapping_add(2),
            bottom.wrapping_mul(draw(seed)).wrapping_add(2),
        );
        let triangle = [(x, y), (x.wrapping_add(1), y), (x, y.wrapping_add(1))];
        super::add_contour(&mut contours, &triangle)?;
    }
    Ok(contours)
}

// The number of links of drawn maps, where all of them agree.
fn links_of_drawn_maps(alloc: Global) -> Result<Option<usize>, Fault> {
    let mut extraction = new_extraction(alloc)?;
    let mut seed = 29;
    let mut sum = 0_usize;
    for map in 0..200_u8 {
        let subjects = drawn_rings(alloc, 2 + map % 7, &mut seed)?;
        let clips = drawn_rings(alloc, map % 4, &mut seed)?;
        let query = Query {
            fill: FillRule::EvenOdd,
            ..nth_query(usize::from(map))
        };
        match agreed(alloc, &mut extraction, &query, &subjects, &clips)? {
            Some(links) => sum = sum.wrapping_add(links),
            None => return Ok(None),
        }
    }
    Ok(Some(sum))
}

#[test]
fn hierarchies_of_drawn_maps(rt: HostRuntime) {
    let found = links_of_drawn_maps(rt.alloc());
    assert!(rt; found.map(|links| links.is_some_and(|many| many > 200)) == Ok(true));
}
