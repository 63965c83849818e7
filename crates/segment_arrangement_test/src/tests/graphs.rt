//! Graphs: links, nodes and states, against lists by hand and plain programs.
ghost use Rattle.std.specs.Prelude.{◌<◌, ◌^◌, length};
ghost use Rattle.segment_split.specs.SegmentViews.{entries_of, AreWithin};
ghost use Rattle.segment_arrangement.specs.SideLaws.{IsArrangement};

use super::RULES;
use super::arrangements::{BooleanSegment, arrangement_of_squares, drawn_arrangement};
use plane_base::fault::Fault;
use plane_base::int::OverlayInt;
use plane_base::point::IntPoint;
use segment_arrangement::builder::GraphBuilder;
use segment_arrangement::fill::SegmentFill;
use segment_arrangement::fill_rule::FillRule;
use segment_arrangement::graph::{OverlayGraph, VisitState};
use segment_arrangement::link::OverlayLink;
use segment_arrangement::node::OverlayNode;
use segment_arrangement::overlay_rule::OverlayRule;
use segment_split::solver::Solver;
use std::alloc::Global;

// A link: its ends, their nodes, and its fill.
pub(super) type Row = ((i32, i32), (i32, i32), (usize, usize), SegmentFill);

// A square from 0 to 10 as subject, and one from 5 to 15 as clip: all links by non-zero.
const LINKS: [Row; 12] = [
    ((0, 0), (0, 10), (0, 1), 2),
    ((0, 0), (10, 0), (0, 5), 1),
    ((0, 10), (5, 10), (1, 3), 2),
    ((5, 5), (5, 10), (2, 3), 11),
    ((5, 5), (10, 5), (2, 6), 7),
    ((5, 10), (5, 15), (3, 4), 8),
    ((5, 10), (10, 10), (3, 7), 14),
    ((5, 15), (15, 15), (4, 9), 8),
    ((10, 0), (10, 5), (5, 6), 1),
    ((10, 5), (10, 10), (6, 7), 13),
    ((10, 5), (15, 5), (6, 8), 4),
    ((15, 5), (15, 15), (8, 9), 4),
];

// Their nodes, from 0 0 to 15 15: what starts there, then what ends there.
const NODES: [&[usize]; 10] = [
    &[0, 1],
    &[2, 0],
    &[3, 4],
    &[5, 6, 2, 3],
    &[7, 5],
    &[8, 1],
    &[9, 10, 4, 8],
    &[6, 9],
    &[11, 10],
    &[7, 11],
];

// The links on the boundary of what both fill, and their nodes.
const COMMON_LINKS: [Row; 4] = [
    ((5, 5), (5, 10), (0, 1), 11),
    ((5, 5), (10, 5), (0, 2), 7),
    ((5, 10), (10, 10), (1, 3), 14),
    ((10, 5), (10, 10), (2, 3), 13),
];

const COMMON_NODES: [&[usize]; 4] = [&[0, 1], &[2, 0], &[3, 1], &[2, 3]];

// The links on the boundary of what either fills, by their places among all.
const EITHER: [usize; 8] = [0, 1, 2, 5, 7, 8, 10, 11];

fn row_of(link: &OverlayLink<i32, ()>) -> Row {
    let a = link.a.point;
    let b = link.b.point;
    ((a.x, a.y), (b.x, b.y), (link.a.id, link.b.id), link.fill)
}

pub(super) fn are_links(links: &[OverlayLink<i32, ()>], rows: &[Row]) -> bool {
    if links.len() != rows.len() {
        return false;
    }
    for (link, row) in links.iter().zip(rows) {
        if row_of(link) != *row {
            return false;
        }
    }
    true
}

fn places_of(node: &OverlayNode) -> &[usize] {
    match node {
        OverlayNode::Bridge(places) => places.as_slice(),
        OverlayNode::Cross(places) => places.as_slice(),
    }
}

// Whether a node that has so many places is of the right kind.
fn is_of_kind(node: &OverlayNode, places: usize) -> bool {
    matches!(node, OverlayNode::Bridge(_)) == (places == 2)
}

fn are_nodes(nodes: &[OverlayNode], rows: &[&[usize]]) -> bool {
    if nodes.len() != rows.len() {
        return false;
    }
    for (node, row) in nodes.iter().zip(rows) {
        if places_of(node) != *row || !is_of_kind(node, row.len()) {
            return false;
        }
    }
    true
}

// Whether the states are those of a union: the links on its boundary are not visited, and the others are skipped.
fn are_of_a_union(states: &[VisitState]) -> bool {
    for place in 0..states.len() {
        let wanted = if EITHER.contains(&place) {
            VisitState::Unvisited
        } else {
            VisitState::Skipped
        };
        if states[place] != wanted {
            return false;
        }
    }
    states.len() == 12
}

// Whether a graph of all links and its copy are right, and so are the states of a union.
fn builds_all(
    builder: &mut GraphBuilder<i32, ()>,
    segments: &[BooleanSegment<i32>],
    states: &mut Vec<VisitState>,
) -> Result<bool, Fault>
    requires in_range { AreWithin ⟦<i32 as OverlayInt>⟧.least ⟦<i32 as OverlayInt>⟧.greatest (entries_of ⟦<i32 as OverlayInt>⟧.value segments.now) }
    requires arrangement { IsArrangement (entries_of ⟦<i32 as OverlayInt>⟧.value segments.now) }
    requires few { length segments.now < 2 ^ 31 }
{
    let all = builder.build_boolean_all(FillRule::NonZero, &Solver::LIST, segments)?;
    let copy = all.clone()?;
    let is_right = are_links(all.links(), &LINKS)
        && are_nodes(copy.nodes(), &NODES)
        && copy.validate();
    match copy.filter_by_overlay_into(OverlayRule::Union, states) {
        Ok(()) => Ok(is_right && are_of_a_union(states)),
        Err(fault) if states.is_empty() => Err(fault),
        Err(_) => Ok(false),
    }
}

// Whether a graph of what both fill is right.
fn builds_common(
    builder: &mut GraphBuilder<i32, ()>,
    segments: &[BooleanSegment<i32>],
) -> Result<bool, Fault>
    requires in_range { AreWithin ⟦<i32 as OverlayInt>⟧.least ⟦<i32 as OverlayInt>⟧.greatest (entries_of ⟦<i32 as OverlayInt>⟧.value segments.now) }
    requires arrangement { IsArrangement (entries_of ⟦<i32 as OverlayInt>⟧.value segments.now) }
    requires few { length segments.now < 2 ^ 31 }
{
    let common = builder.build_boolean_overlay(
        FillRule::NonZero,
        OverlayRule::Intersect,
        &Solver::LIST,
        segments,
    )?;
    Ok(
        are_links(common.links(), &COMMON_LINKS)
            && are_nodes(common.nodes(), &COMMON_NODES)
            && common.validate(),
    )
}

// Whether all links are collected and are right. Where that is refused none are left.
fn collects_all(
    builder: &mut GraphBuilder<i32, ()>,
    segments: &[BooleanSegment<i32>],
) -> Result<bool, Fault>
    requires in_range { AreWithin ⟦<i32 as OverlayInt>⟧.least ⟦<i32 as OverlayInt>⟧.greatest (entries_of ⟦<i32 as OverlayInt>⟧.value segments.now) }
    requires arrangement { IsArrangement (entries_of ⟦<i32 as OverlayInt>⟧.value segments.now) }
    requires few { length segments.now < 2 ^ 31 }
{
    match builder.collect_boolean_all(FillRule::NonZero, &Solver::LIST, segments) {
        Ok(()) => Ok(
            are_links(builder.graph().links(), &LINKS)
                && are_nodes(builder.graph().nodes(), &NODES),
        ),
        Err(fault) if builder.graph().links().is_empty() => Err(fault),
        Err(_) => Ok(false),
    }
}

// What is built three times over from two squares by one builder, nothing at first: whether each graph is right, or why it was refused.
fn graphs_of_squares(alloc: Global) -> Result<[[Result<bool, Fault>; 3]; 3], Fault> {
    let mut built = [[Ok(false); 3]; 3];
    let Some(segments) = arrangement_of_squares(alloc, 5, 15)? else {
        return Ok(built);
    };
    let mut builder = GraphBuilder::new(alloc)?;
    let is_empty = builder.graph().links().is_empty();
    if !is_empty || segments.len() != 12 {
        return Ok(built);
    }
    let mut states = Vec::new(alloc);
    for time in 0..3 {
        built[time] = [
            builds_all(&mut builder, &segments, &mut states),
            builds_common(&mut builder, &segments),
            collects_all(&mut builder, &segments),
        ];
    }
    Ok(built)
}

#[test]
fn graphs_of_two_squares(rt: HostRuntime) {
    assert!(rt; graphs_of_squares(rt.alloc()) == Ok([[Ok(true); 3]; 3]));
}

// As it runs here nothing is refused. A run that refuses the first allocation, or the second and so on, passes it too: a graph that is refused
// says so, and the next one is right.
#[test]
fn growth_of_graphs_refused(rt: HostRuntime) {
    match graphs_of_squares(rt.alloc()) {
        Ok(built) => {
            for i in 0..9 {
                let is_right = built[i / 3][i % 3];
                assert!(rt; is_right == Ok(true) || is_right == Err(Fault::Memory));
            }
        }
        Err(fault) => assert!(rt; fault == Fault::Memory),
    }
}

// The distinct ends of links, in order.
fn ends_of(alloc: Global, links: &[OverlayLink<i32, ()>]) -> Result<Vec<IntPoint<i32>>, Fault> {
    let mut points = Vec::new(alloc);
    for link in links {
        points.push(link.a.point)?;
        points.push(link.b.point)?;
    }
    points.sort_unstable();
    points.dedup();
    Ok(points)
}

// Whether each end of a link has its number among all.
fn are_numbered(links: &[OverlayLink<i32, ()>], points: &[IntPoint<i32>]) -> bool {
    for link in links {
        if points.get(link.a.id) != Some(&link.a.point)
            || points.get(link.b.id) != Some(&link.b.point)
        {
            return false;
        }
    }
    true
}

// Whether a node has the places of the links that start there, then of those that end there.
fn is_joined(node: &OverlayNode, number: usize, links: &[OverlayLink<i32, ()>]) -> bool {
    let places = places_of(node);
    let mut count = 0_usize;
    for place in 0..links.len() {
        if links[place].a.id == number {
            if places.get(count) != Some(&place) {
                return false;
            }
            count = count.wrapping_add(1);
        }
    }
    for place in 0..links.len() {
        if links[place].b.id == number {
            if places.get(count) != Some(&place) {
                return false;
            }
            count = count.wrapping_add(1);
        }
    }
    places.len() == count && is_of_kind(node, count)
}

fn are_joined(nodes: &[OverlayNode], links: &[OverlayLink<i32, ()>]) -> bool {
    for number in 0..nodes.len() {
        if !is_joined(&nodes[number], number, links) {
            return false;
        }
    }
    true
}

// Whether a graph is valid and has the nodes of its links by their definition, slowly: the distinct ends in order, each with what starts there,
// then what ends there.
fn has_nodes(alloc: Global, graph: &OverlayGraph<'_, i32, ()>) -> bool {
    match ends_of(alloc, graph.links()) {
        Ok(points) => graph.nodes().len() == points.len()
            && are_numbered(graph.links(), &points)
            && are_joined(graph.nodes(), graph.links())
            && graph.validate(),
        Err(_) => false,
    }
}

// Keeps the rows of the links that a rule tells apart.
fn keep_boundary(
    rule: OverlayRule,
    graph: &OverlayGraph<'_, i32, ()>,
    states: &mut Vec<VisitState>,
    rows: &mut Vec<Row>,
) -> Result<(), Fault> {
    rows.clear();
    graph.filter_by_overlay_into(rule, states)?;
    for (link, state) in graph.links().iter().zip(&*states) {
        if *state == VisitState::Unvisited {
            rows.push(row_of(link))?;
        }
    }
    Ok(())
}

fn same_but_nodes(links: &[OverlayLink<i32, ()>], rows: &[Row]) -> bool {
    if links.len() != rows.len() {
        return false;
    }
    for (link, row) in links.iter().zip(rows) {
        let (a, b, _, fill) = row_of(link);
        if a != row.0 || b != row.1 || fill != row.3 {
            return false;
        }
    }
    true
}

// What a check of a map needs again for the next one.
#[derive(Drop)]
struct Kept {
    builder: GraphBuilder<i32, ()>,
    states: Vec<VisitState>,
    rows: Vec<Row>,
}

// Whether the graph of all links and that of a rule's boundary have the nodes of plain lists, and whether the second has the links that a filter
// of the first leaves.
fn agree_with_plain_lists(
    alloc: Global,
    kept: &mut Kept,
    rule: OverlayRule,
    segments: &[BooleanSegment<i32>],
) -> Result<bool, Fault>
    requires in_range { AreWithin ⟦<i32 as OverlayInt>⟧.least ⟦<i32 as OverlayInt>⟧.greatest (entries_of ⟦<i32 as OverlayInt>⟧.value segments.now) }
    requires arrangement { IsArrangement (entries_of ⟦<i32 as OverlayInt>⟧.value segments.now) }
    requires few { length segments.now < 2 ^ 31 }
{
    let all = kept
        .builder
        .build_boolean_all(FillRule::EvenOdd, &Solver::LIST, segments)?;
    let has_all = all.links().len() == segments.len() && has_nodes(alloc, &all);
    keep_boundary(rule, &all, &mut kept.states, &mut kept.rows)?;
    let boundary = kept
        .builder
        .build_boolean_overlay(FillRule::EvenOdd, rule, &Solver::LIST, segments)?;
    Ok(has_all && same_but_nodes(boundary.links(), &kept.rows) && has_nodes(alloc, &boundary))
}

// Whether the graphs of the next map, drawn after the seed, agree with plain lists.
fn agree_on_map(alloc: Global, kept: &mut Kept, rule: OverlayRule, seed: &mut u64) -> bool {
    match drawn_arrangement(alloc, 1, 1, false, seed) {
        Ok(Some(segments)) => {
            segments.len() < 1000
                && agree_with_plain_lists(alloc, kept, rule, &segments) == Ok(true)
        }
        _ => false,
    }
}

// The number of the first drawn map whose graphs differ from plain lists.
fn first_unlike(alloc: Global) -> Option<usize> {
    let Ok(builder) = GraphBuilder::new(alloc) else {
        return Some(0);
    };
    let mut kept = Kept {
        builder,
        states: Vec::new(alloc),
        rows: Vec::new(alloc),
    };
    let mut seed = 11;
    for map in 0..2000 {
        if !agree_on_map(alloc, &mut kept, RULES[map % 7], &mut seed) {
            return Some(map);
        }
    }
    None
}

#[test]
fn graphs_of_drawn_maps(rt: HostRuntime) {
    assert!(rt; first_unlike(rt.alloc()) == None);
}
