//! Arrangements for tests, split by the list.
ghost use Rattle.std.specs.Prelude.{◌<◌, ◌^◌, length, IfSome, IfOk};
ghost use Rattle.segment_split.specs.SegmentViews.{entries_of, AreWithin};
ghost use Rattle.segment_arrangement.specs.SideLaws.{IsArrangement};

use super::{add_contour, alone};
use plane_base::fault::Fault;
use plane_base::int::OverlayInt;
use plane_base::path::IntPath;
pub(super) use reference::arrangements::BooleanSegment;
use reference::arrangements::arrangement_slowly;
use reference::maps::{CountedEdge, EdgeCount};
use segment_split::solver::Solver;
use std::alloc::Global;

// What a square from 0 to 10 as subject and one between these numbers as clip are split into.
pub(super) fn arrangement_of_squares(
    alloc: Global,
    low: i32,
    high: i32,
) -> Result<Option<Vec<BooleanSegment<i32>>>, Fault>
    ensures arrangement { IfOk result (λ found. IfSome found (λ segments. IsArrangement (entries_of ⟦<i32 as OverlayInt>⟧.value segments.items))) }
    ensures in_range { IfOk result (λ found. IfSome found (λ segments.
        AreWithin ⟦<i32 as OverlayInt>⟧.least ⟦<i32 as OverlayInt>⟧.greatest (entries_of ⟦<i32 as OverlayInt>⟧.value segments.items))) }
    ensures few { IfOk result (λ found. IfSome found (λ segments. length segments.items < 2 ^ 31)) }
{
    let subject = alone(alloc, &[(0, 0), (10, 0), (10, 10), (0, 10)])?;
    let clip = alone(alloc, &[(low, low), (high, low), (high, high), (low, high)])?;
    arrangement_slowly(alloc, &subject, &clip, &Solver::LIST)
}

// A number after this one, as if drawn.
fn next(seed: u64) -> u64 {
    seed.wrapping_mul(6364136223846793005)
        .wrapping_add(1442695040888963407)
}

// Six points of which each is level with the next one or right below or above it, from the first three of these.
fn squared(points: [(i32, i32); 6]) -> [(i32, i32); 6] {
    let [(x, y), (next_x, next_y), (last_x, last_y), _, _, _] = points;
    [
        (x, y),
        (next_x, y),
        (next_x, next_y),
        (last_x, next_y),
        (last_x, last_y),
        (x, last_y),
    ]
}

// Contours of three to six points of a small grid, or of six points with horizontal and vertical edges.
fn drawn(
    alloc: Global,
    number: usize,
    is_square: bool,
    seed: &mut u64,
) -> Result<Vec<IntPath<i32>>, Fault> {
    let mut contours = Vec::new(alloc);
    for _ in 0..number {
        *seed = next(*seed);
        let corners = 3 + (*seed >> 40) as usize % 4;
        let mut row = [(0, 0); 6];
        for corner in 0..corners {
            *seed = next(*seed);
            let x = (*seed >> 33) % 9;
            let y = (*seed >> 48) % 9;
            row[corner] = (x as i32, y as i32);
        }
        if is_square {
            add_contour(&mut contours, &squared(row))?;
        } else {
            add_contour(&mut contours, &row[..corners])?;
        }
    }
    Ok(contours)
}

// What so many drawn subjects and clips are split into, with horizontal and vertical edges alone or with any.
pub(super) fn drawn_arrangement(
    alloc: Global,
    subjects: usize,
    clips: usize,
    is_square: bool,
    seed: &mut u64,
) -> Result<Option<Vec<BooleanSegment<i32>>>, Fault>
    ensures arrangement { IfOk result (λ found. IfSome found (λ segments. IsArrangement (entries_of ⟦<i32 as OverlayInt>⟧.value segments.items))) }
    ensures in_range { IfOk result (λ found. IfSome found (λ segments.
        AreWithin ⟦<i32 as OverlayInt>⟧.least ⟦<i32 as OverlayInt>⟧.greatest (entries_of ⟦<i32 as OverlayInt>⟧.value segments.items))) }
    ensures few { IfOk result (λ found. IfSome found (λ segments. length segments.items < 2 ^ 31)) }
{
    let subjects = drawn(alloc, subjects, is_square, seed)?;
    let clips = drawn(alloc, clips, is_square, seed)?;
    arrangement_slowly(alloc, &subjects, &clips, &Solver::LIST)
}

// The same edges with wide counts, as the slow programs take them.
pub(super) fn counted(
    alloc: Global,
    segments: &[BooleanSegment<i32>],
) -> Result<Vec<CountedEdge<i32>>, Fault> {
    let mut edges = Vec::new(alloc);
    for segment in segments {
        let count = EdgeCount {
            subject: i128::from(segment.count.subj),
            clip: i128::from(segment.count.clip),
        };
        edges.push(CountedEdge {
            edge: segment.x_segment,
            count,
        })?;
    }
    Ok(edges)
}
