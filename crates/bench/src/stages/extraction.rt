//! Extraction, timed.

ghost use Rattle.std.specs.Prelude.{◌<◌, ◌^◌, length};
ghost use Rattle.segment_split.specs.SegmentViews.{entries_of, AreWithin};
ghost use Rattle.segment_arrangement.specs.SideLaws.{IsArrangement};

use crate::contours::Contours;
use contour_walk::extract::{BooleanExtractionBuffer, extract_shapes};
use contour_walk::options::IntOverlayOptions;
use plane_base::fault::Fault;
use plane_base::int::OverlayInt;
use reference::arrangements::{BooleanSegment, arrangement_slowly};
use segment_arrangement::builder::GraphBuilder;
use segment_arrangement::fill_rule::FillRule;
use segment_arrangement::overlay_rule::OverlayRule;
use segment_split::solver::Solver;
use std::io;
use std::rt::Clock;
use std::time::Instant;

// How often shapes are extracted.
const RUNS: u32 = 20;

/// Extracts the shapes of contours some times over, by even-odd and xor, and tells how many there are. The time is the least of all runs.
pub(crate) fn time_extraction(
    rt: &(impl Print + Eprint + Clock + AllocGlobal),
    name: &str,
    contours: Result<Contours, Fault>,
) -> io::Result<()> {
    let Ok(contours) = contours else {
        return println!(rt; "{name}: no memory");
    };
    let arranged = arrangement_slowly(
        rt.alloc(),
        &contours.subjects,
        &contours.clips,
        &Solver::AUTO,
    );
    let found = match arranged {
        Ok(found) => found,
        Err(fault) => return println!(rt; "{name}: {fault}"),
    };
    let Some(segments) = found else {
        return println!(rt; "{name}: out of range");
    };
    time_runs(rt, name, &segments)
}

// Extracts shapes from the graph of an arrangement.
fn time_runs(
    rt: &(impl Print + Eprint + Clock + AllocGlobal),
    name: &str,
    segments: &[BooleanSegment<i32>],
) -> io::Result<()>
    requires in_range { AreWithin ⟦<i32 as OverlayInt>⟧.least ⟦<i32 as OverlayInt>⟧.greatest (entries_of ⟦<i32 as OverlayInt>⟧.value segments.now) }
    requires arrangement { IsArrangement (entries_of ⟦<i32 as OverlayInt>⟧.value segments.now) }
    requires few { length segments.now < 2 ^ 31 }
{
    let alloc = rt.alloc();
    let rule = OverlayRule::Xor;
    let Ok(mut builder) = GraphBuilder::new(alloc) else {
        return println!(rt; "{name}: no memory");
    };
    let Ok(graph) = builder.build_boolean_overlay(FillRule::EvenOdd, rule, &Solver::TREE, segments)
    else {
        return println!(rt; "{name}: refused");
    };
    let links = graph.links().len();
    let mut buffer = BooleanExtractionBuffer::new(alloc);
    let mut shapes = 0;
    let mut least = u128::MAX;
    for _ in 0..RUNS {
        let start = Instant::now(rt)?;
        let Ok(found) = extract_shapes(
            alloc,
            &graph,
            IntOverlayOptions::default(),
            rule,
            &mut buffer,
        ) else {
            return println!(rt; "{name}: no memory");
        };
        least = least.min(start.elapsed(rt)?.as_nanos());
        shapes = found.shapes.len();
    }
    eprintln!(rt; "extraction from {links} links of {name}: {least} ns")?;
    println!(rt; "extraction from {links} links of {name}: {shapes} shapes")
}
