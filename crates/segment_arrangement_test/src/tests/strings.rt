//! Graphs of string maps, all of their segments and what clips keep of them, against lists by hand.
ghost use Rattle.std.specs.Prelude.{◌<◌, ◌^◌, length, IfOk};
ghost use Rattle.segment_split.specs.SegmentViews.{entries_of, AreWithin};
ghost use Rattle.segment_arrangement.specs.SideLaws.{IsArrangement};
ghost use Rattle.segment_arrangement.specs.Strings.{subject_of};

use super::arrangements::{BooleanSegment, arrangement_of_squares};
use super::graphs::{Row, are_links};
use plane_base::fault::Fault;
use plane_base::int::OverlayInt;
use segment_arrangement::builder::GraphBuilder;
use segment_arrangement::clip_rule::ClipRule;
use segment_arrangement::fill_rule::FillRule;
use segment_split::count::{ShapeCountString, WindingCount};
use segment_split::segment::Segment;
use segment_split::solver::Solver;
use std::alloc::Global;

type StringSegment = Segment<ShapeCountString, i32, ()>;

// A square from 0 to 10 as subject, and a line along one from 5 to 15, both counterclockwise: all links by non-zero.
const LINKS: [Row; 12] = [
    ((0, 0), (0, 10), (0, 1), 2),
    ((0, 0), (10, 0), (0, 5), 1),
    ((0, 10), (5, 10), (1, 3), 2),
    ((5, 5), (5, 10), (2, 3), 7),
    ((5, 5), (10, 5), (2, 6), 11),
    ((5, 10), (5, 15), (3, 4), 4),
    ((5, 10), (10, 10), (3, 7), 2),
    ((5, 15), (15, 15), (4, 9), 4),
    ((10, 0), (10, 5), (5, 6), 1),
    ((10, 5), (10, 10), (6, 7), 1),
    ((10, 5), (15, 5), (6, 8), 8),
    ((15, 5), (15, 15), (8, 9), 8),
];

// Their nodes, from 0 0 to 15 15: what starts there, then what ends there.
const NODES: [&[usize]; 10] = [
    &[0, 1],
    &[2, 0],
    &[3, 4],
    &[5, 6, 2, 3],
    &[7, 5],
    &[8, 1],
    &[9, 10, 4, 8],
    &[6, 9],
    &[11, 10],
    &[7, 11],
];

// What is kept inside the square, and its nodes.
const INSIDE: [Row; 2] = [((5, 5), (5, 10), (0, 1), 7), ((5, 5), (10, 5), (0, 2), 11)];

const INSIDE_NODES: [&[usize]; 3] = [&[0, 1], &[0], &[1]];

// What is kept outside of it, and its nodes.
const OUTSIDE: [Row; 4] = [
    ((5, 10), (5, 15), (0, 1), 4),
    ((5, 15), (15, 15), (1, 4), 4),
    ((10, 5), (15, 5), (2, 3), 8),
    ((15, 5), (15, 15), (3, 4), 8),
];

const OUTSIDE_NODES: [&[usize]; 5] = [&[0], &[1, 0], &[2], &[3, 2], &[1, 3]];

fn are_lists(nodes: &[Vec<usize>], rows: &[&[usize]]) -> bool {
    if nodes.len() != rows.len() {
        return false;
    }
    for (node, row) in nodes.iter().zip(rows) {
        if node.as_slice() != *row {
            return false;
        }
    }
    true
}

// The same edges as segments of a string map, in which lines run along the clip.
fn strings_of(alloc: Global, segments: &[BooleanSegment<i32>]) -> Result<Vec<StringSegment>, Fault>
    requires in_range { AreWithin ⟦<i32 as OverlayInt>⟧.least ⟦<i32 as OverlayInt>⟧.greatest (entries_of ⟦<i32 as OverlayInt>⟧.value segments.now) }
    requires arrangement { IsArrangement (entries_of ⟦<i32 as OverlayInt>⟧.value segments.now) }
    requires few { length segments.now < 2 ^ 31 }
    ensures in_range { IfOk result (λ strings. AreWithin ⟦<i32 as OverlayInt>⟧.least ⟦<i32 as OverlayInt>⟧.greatest (entries_of ⟦<i32 as OverlayInt>⟧.value strings.items)) }
    ensures arrangement { IfOk result (λ strings. IsArrangement (subject_of (entries_of ⟦<i32 as OverlayInt>⟧.value strings.items))) }
    ensures few { IfOk result (λ strings. length strings.items < 2 ^ 31) }
{
    let mut strings = Vec::new(alloc);
    for segment in segments {
        let count = segment.count;
        strings.push(Segment {
            x_segment: segment.x_segment,
            count: ShapeCountString::new(count.subj, count.clip),
            datum: (),
        })?;
    }
    Ok(strings)
}

const RULES: [ClipRule; 4] = [
    ClipRule {
        invert: false,
        boundary_included: false,
    },
    ClipRule {
        invert: false,
        boundary_included: true,
    },
    ClipRule {
        invert: true,
        boundary_included: false,
    },
    ClipRule {
        invert: true,
        boundary_included: true,
    },
];

// Whether the graph of all segments is right, answered and lent again, and copied.
fn builds_all(
    builder: &mut GraphBuilder<i32, ()>,
    segments: &[StringSegment],
) -> Result<bool, Fault>
    requires in_range { AreWithin ⟦<i32 as OverlayInt>⟧.least ⟦<i32 as OverlayInt>⟧.greatest (entries_of ⟦<i32 as OverlayInt>⟧.value segments.now) }
    requires arrangement { IsArrangement (subject_of (entries_of ⟦<i32 as OverlayInt>⟧.value segments.now)) }
    requires few { length segments.now < 2 ^ 31 }
{
    let all = builder.build_string_all(FillRule::NonZero, &Solver::LIST, segments)?;
    let is_right = are_links(all.links(), &LINKS) && are_lists(all.nodes(), &NODES);
    match builder.collect_string_all(FillRule::NonZero, &Solver::TREE, segments) {
        Ok(()) => {
            let again = builder.string_graph().clone()?;
            Ok(is_right && are_links(again.links(), &LINKS) && are_lists(again.nodes(), &NODES))
        }
        Err(fault) if builder.string_graph().links().is_empty() => Err(fault),
        Err(_) => Ok(false),
    }
}

// Whether what each rule keeps is right. The square's edges are in the way of no line, so the boundary makes no difference.
fn builds_clips(
    builder: &mut GraphBuilder<i32, ()>,
    segments: &[StringSegment],
) -> Result<bool, Fault>
    requires in_range { AreWithin ⟦<i32 as OverlayInt>⟧.least ⟦<i32 as OverlayInt>⟧.greatest (entries_of ⟦<i32 as OverlayInt>⟧.value segments.now) }
    requires arrangement { IsArrangement (subject_of (entries_of ⟦<i32 as OverlayInt>⟧.value segments.now)) }
    requires few { length segments.now < 2 ^ 31 }
{
    let mut is_right = true;
    for rule in RULES {
        let clip = builder.build_string_clip(FillRule::NonZero, rule, &Solver::LIST, segments)?;
        let is_kept = if rule.invert {
            are_links(clip.links(), &OUTSIDE) && are_lists(clip.nodes(), &OUTSIDE_NODES)
        } else {
            are_links(clip.links(), &INSIDE) && are_lists(clip.nodes(), &INSIDE_NODES)
        };
        is_right = is_right && is_kept;
    }
    Ok(is_right)
}

// All graphs of two squares: whether they are right, or why one was refused.
fn graphs_of_squares(alloc: Global) -> Result<bool, Fault> {
    let Some(segments) = arrangement_of_squares(alloc, 5, 15)? else {
        return Ok(false);
    };
    let strings = strings_of(alloc, &segments)?;
    let mut builder = GraphBuilder::new(alloc)?;
    let is_empty = builder.string_graph().links().is_empty();
    let has_all = builds_all(&mut builder, &strings)?;
    let has_clips = builds_clips(&mut builder, &strings)?;
    Ok(is_empty && has_all && has_clips)
}

#[test]
fn string_graphs_of_two_squares(rt: HostRuntime) {
    assert!(rt; graphs_of_squares(rt.alloc()) == Ok(true));
}

// Passed too by a run that refuses the first allocation, or the second and so on.
#[test]
fn growth_of_string_graphs_refused(rt: HostRuntime) {
    let built = graphs_of_squares(rt.alloc());
    assert!(rt; built == Ok(true) || built == Err(Fault::Memory));
}
