//! Fills that a sweep tells, against those of the slow program.
ghost use Rattle.std.specs.Prelude.{◌≡◌, ◌<◌, ◌^◌, length, All, ⊤};
ghost use Rattle.reference.specs.MapViews.{entries_of as counted_entries};
ghost use Rattle.plane_base.specs.Segments.{IsEdgeWithin};
ghost use Rattle.segment_split.specs.SegmentViews.{entries_of, AreWithin};
ghost use Rattle.segment_arrangement.specs.SideLaws.{IsArrangement};

use super::arrangements::{BooleanSegment, arrangement_of_squares, counted, drawn_arrangement};
use super::fill_rules;
use i_tree::Steps;
use plane_base::fault::Fault;
use plane_base::int::OverlayInt;
use reference::maps::{CountedEdge, EdgeCount};
use reference::regions::{fill_of_sides, lower_side_slowly};
use reference::windings::all_edges_in_range;
use segment_arrangement::count::FilledCount;
use segment_arrangement::fill::{CLIP_TOP, SUBJ_BOTTOM, SegmentFill};
use segment_arrangement::fill_rule::FillRule;
use segment_arrangement::handler::FillHandler;
use segment_arrangement::sweep::SweepRunner;
use segment_split::count::{
    STRING_BACK_CLIP, STRING_FORWARD_CLIP, ShapeCountBoolean, ShapeCountString, WindingCount,
};
use segment_split::segment::Segment;
use segment_split::solver::Solver;
use std::alloc::Global;
use std::marker::Brand;
use std::mem;
use std::ops::ControlFlow;
use std::sync::ledger::{Blank, Ledger};

// Keeps the fills in order, and breaks off at a number of them. A place out of order is kept as 16.
#[derive(Drop)]
struct Fills {
    told: Vec<SegmentFill>,
    most: usize,
}

impl FillHandler<ShapeCountBoolean, i32, ()> for Fills {
    type Output = Vec<SegmentFill>;

    ghost handles = { λ _ _ _ _ _ _ _ _. ⊤ };

    ghost refuses = { λ _ _ _ _ _ _ _. ⊤ };

    ghost finishes = { λ _ _. ⊤ };

    fn handle(
        &mut self,
        index: usize,
        _segment: &Segment<ShapeCountBoolean, i32, ()>,
        fill: SegmentFill,
    ) -> Result<ControlFlow<Vec<SegmentFill>>, Fault> {
        let is_next = index == self.told.len();
        self.told.push(if is_next { fill } else { 16 })?;
        if self.told.len() < self.most {
            Ok(ControlFlow::Continue(()))
        } else {
            let rest = Vec::new(*self.told.allocator());
            Ok(ControlFlow::Break(mem::replace(&mut self.told, rest)))
        }
    }

    fn finish(self) -> Vec<SegmentFill> {
        self.told
    }
}

// Refuses the segment at a place.
#[derive(Drop)]
struct RefusesAt(usize);

impl FillHandler<ShapeCountBoolean, i32, ()> for RefusesAt {
    type Output = usize;

    ghost handles = { λ _ _ _ _ _ _ _ _. ⊤ };

    ghost refuses = { λ _ _ _ _ _ _ _. ⊤ };

    ghost finishes = { λ _ _. ⊤ };

    fn handle(
        &mut self,
        index: usize,
        _segment: &Segment<ShapeCountBoolean, i32, ()>,
        _fill: SegmentFill,
    ) -> Result<ControlFlow<usize>, Fault> {
        if index == self.0 {
            return Err(Fault::Edges);
        }
        Ok(ControlFlow::Continue(()))
    }

    fn finish(self) -> usize {
        self.0
    }
}

// The fill of a segment by the slow program; 16 where that has no answer.
fn slow_fill(rule: FillRule, edges: &[CountedEdge<i32>], at: usize) -> SegmentFill
    requires within { at < length edges.now }
    requires in_range { All (λ e. IsEdgeWithin ⟦<i32 as OverlayInt>⟧.least ⟦<i32 as OverlayInt>⟧.greatest e.edge)
        (counted_entries ⟦<i32 as OverlayInt>⟧.value edges.now) }
{
    match lower_side_slowly(edges, at) {
        Some(bottom) => {
            let top = EdgeCount {
                subject: bottom.subject.wrapping_add(edges[at].count.subject),
                clip: bottom.clip.wrapping_add(edges[at].count.clip),
            };
            fill_of_sides(rule, bottom, top)
        }
        None => 16,
    }
}

// The fills of segments by the slow program; none where an edge is out of range.
pub(super) fn slow_fills(
    alloc: Global,
    rule: FillRule,
    edges: &[CountedEdge<i32>],
) -> Result<Vec<SegmentFill>, Fault> {
    let mut fills = Vec::new(alloc);
    if all_edges_in_range(edges) {
        for at in 0..edges.len() {
            fills.push(slow_fill(rule, edges, at))?;
        }
    }
    Ok(fills)
}

// How segments are swept, and at how many fills a sweep is broken off.
#[derive(Clone, Copy)]
struct Sweep {
    rule: FillRule,
    solver: Solver,
    most: usize,
}

// Whether a sweep tells these fills.
fn tells(
    alloc: Global,
    runner: &mut SweepRunner<i32>,
    sweep: Sweep,
    segments: &[BooleanSegment<i32>],
    wanted: &[SegmentFill],
) -> Result<bool, Fault>
    requires in_range { AreWithin ⟦<i32 as OverlayInt>⟧.least ⟦<i32 as OverlayInt>⟧.greatest (entries_of ⟦<i32 as OverlayInt>⟧.value segments.now) }
    requires arrangement { IsArrangement (entries_of ⟦<i32 as OverlayInt>⟧.value segments.now) }
    requires few { length segments.now < 2 ^ 31 }
{
    tells_counted::<Brand>(alloc, runner, sweep, segments, wanted, Blank::new(2))
}

fn tells_counted<L: Ledger>(
    alloc: Global,
    runner: &mut SweepRunner<i32>,
    sweep: Sweep,
    segments: &[BooleanSegment<i32>],
    wanted: &[SegmentFill],
    blank: Blank,
) -> Result<bool, Fault>
    requires in_range { AreWithin ⟦<i32 as OverlayInt>⟧.least ⟦<i32 as OverlayInt>⟧.greatest (entries_of ⟦<i32 as OverlayInt>⟧.value segments.now) }
    requires arrangement { IsArrangement (entries_of ⟦<i32 as OverlayInt>⟧.value segments.now) }
    requires few { length segments.now < 2 ^ 31 }
    requires name { blank.name ≡ L.name }
    requires parts { blank.parts ≡ L.parts }
    requires two { blank.parts ≡ 2 }
{
    let mut steps = Steps::<L>::new(blank);
    let told = Vec::new(alloc);
    let most = sweep.most;
    let handler = Fills { told, most };
    let fills = runner.run_with_fill_rule(
        sweep.rule,
        &sweep.solver,
        segments,
        handler,
        &mut steps,
    )?;
    Ok(*fills == *wanted)
}

// The fills of a square from 0 to 10 as subject and one from 3 to 7 as clip.
const SQUARES: [SegmentFill; 8] = [2, 1, 2, 11, 7, 11, 7, 1];

// Three sweeps of the squares, the second of which is broken off: whether each tells the fills, or why it was refused.
fn told_of_squares(alloc: Global) -> Result<[Result<bool, Fault>; 3], Fault> {
    let mut told = [Ok(false); 3];
    let Some(segments) = arrangement_of_squares(alloc, 3, 7)? else {
        return Ok(told);
    };
    let mut runner = SweepRunner::new(alloc)?;
    let most = [9, 4, 9];
    for i in 0..3 {
        let sweep = Sweep {
            rule: FillRule::EvenOdd,
            solver: Solver::LIST,
            most: most[i],
        };
        let wanted = &SQUARES[..most[i].min(8)];
        told[i] = tells(alloc, &mut runner, sweep, &segments, wanted);
    }
    Ok(told)
}

#[test]
fn fills_of_two_squares(rt: HostRuntime) {
    assert!(rt; told_of_squares(rt.alloc()) == Ok([Ok(true); 3]));
}

// What comes of a sweep whose handler refuses the segment at a place.
fn refused_at<L: Ledger>(
    alloc: Global,
    place: usize,
    segments: &[BooleanSegment<i32>],
    blank: Blank,
) -> Result<usize, Fault>
    requires in_range { AreWithin ⟦<i32 as OverlayInt>⟧.least ⟦<i32 as OverlayInt>⟧.greatest (entries_of ⟦<i32 as OverlayInt>⟧.value segments.now) }
    requires arrangement { IsArrangement (entries_of ⟦<i32 as OverlayInt>⟧.value segments.now) }
    requires few { length segments.now < 2 ^ 31 }
    requires name { blank.name ≡ L.name }
    requires parts { blank.parts ≡ L.parts }
    requires two { blank.parts ≡ 2 }
{
    let mut steps = Steps::<L>::new(blank);
    let handler = RefusesAt(place);
    SweepRunner::new(alloc)?.run_with_fill_rule(
        FillRule::NonZero,
        &Solver::LIST,
        segments,
        handler,
        &mut steps,
    )
}

// What comes of sweeps of the two squares whose handlers refuse their first segment, the last one and none.
fn refusals_of_squares(alloc: Global) -> Result<[Result<usize, Fault>; 3], Fault> {
    let mut refusals = [Ok(0); 3];
    let Some(segments) = arrangement_of_squares(alloc, 3, 7)? else {
        return Ok(refusals);
    };
    let places = [0, 7, 8];
    for i in 0..3 {
        refusals[i] = refused_at::<Brand>(alloc, places[i], &segments, Blank::new(2));
    }
    Ok(refusals)
}

#[test]
fn refusals_of_handlers(rt: HostRuntime) {
    let wanted = Ok([Err(Fault::Edges), Err(Fault::Edges), Ok(8)]);
    assert!(rt; refusals_of_squares(rt.alloc()) == wanted);
}

// The fill of a segment with this count, and with this below it; 16 where what lies above leaves the range.
fn fill_over<C: FilledCount>(rule: FillRule, bottom: ShapeCountBoolean, count: C) -> SegmentFill {
    match bottom.add(count.sides()) {
        Ok(top) => count.fill(rule, bottom, top),
        Err(_) => 16,
    }
}

// An edge at which a subject ends and a clip begins.
#[test]
fn fills_of_two_kinds(rt: HostRuntime) {
    let below = ShapeCountBoolean { subj: 1, clip: 0 };
    let count = ShapeCountBoolean { subj: -1, clip: 1 };
    assert!(rt; count.sides() == count);
    assert!(rt; fill_over(FillRule::NonZero, below, count) == SUBJ_BOTTOM | CLIP_TOP);
}

// Lines outside a subject and inside it, forward, back and both, alone and along the subject's edges.
#[test]
fn fills_of_strings(rt: HostRuntime) {
    let none = ShapeCountBoolean { subj: 0, clip: 0 };
    let one = ShapeCountBoolean { subj: 1, clip: 0 };
    let forward = ShapeCountString {
        subj: 0,
        clip: STRING_FORWARD_CLIP,
    };
    let back = ShapeCountString {
        subj: 0,
        clip: STRING_BACK_CLIP,
    };
    let start = ShapeCountString { subj: 1, clip: 3 };
    let end = ShapeCountString { subj: -1, clip: 0 };
    let again = ShapeCountString { subj: 1, clip: 2 };
    assert!(rt; fill_over(FillRule::NonZero, none, forward) == 4);
    assert!(rt; fill_over(FillRule::NonZero, none, back) == 8);
    assert!(rt; fill_over(FillRule::NonZero, one, forward) == 7);
    assert!(rt; fill_over(FillRule::NonZero, none, start) == 13);
    assert!(rt; fill_over(FillRule::NonZero, one, end) == 2);
    assert!(rt; fill_over(FillRule::EvenOdd, one, again) == 10);
    assert!(rt; fill_over(FillRule::NonZero, one, again) == 11);
    assert!(rt; fill_over(FillRule::Positive, none, end) == 0);
    assert!(rt; fill_over(FillRule::Negative, none, end) == 1);
}

// As it runs here nothing is refused. A run that refuses the first allocation, or the second and so on, passes it too: a sweep that is refused
// says so, and the next one tells all fills.
#[test]
fn growth_of_sweeps_refused(rt: HostRuntime) {
    match told_of_squares(rt.alloc()) {
        Ok(told) => {
            for i in 0..3 {
                assert!(rt; told[i] == Ok(true) || told[i] == Err(Fault::Memory));
            }
        }
        Err(fault) => assert!(rt; fault == Fault::Memory),
    }
}

const SOLVERS: [Solver; 4] = [Solver::LIST, Solver::TREE, Solver::FRAG, Solver::AUTO];

// Whether the sweep in one of 24 ways, by each rule with each strategy, tells the fills of the slow program.
fn agrees_in_way(
    alloc: Global,
    runner: &mut SweepRunner<i32>,
    way: usize,
    segments: &[BooleanSegment<i32>],
    edges: &[CountedEdge<i32>],
) -> bool
    requires in_range { AreWithin ⟦<i32 as OverlayInt>⟧.least ⟦<i32 as OverlayInt>⟧.greatest (entries_of ⟦<i32 as OverlayInt>⟧.value segments.now) }
    requires arrangement { IsArrangement (entries_of ⟦<i32 as OverlayInt>⟧.value segments.now) }
    requires few { length segments.now < 2 ^ 31 }
{
    let sweep = Sweep {
        rule: fill_rules()[way % 6],
        solver: SOLVERS[way / 6 % 4],
        most: segments.len() + 1,
    };
    match slow_fills(alloc, sweep.rule, edges) {
        Ok(wanted) => tells(alloc, runner, sweep, segments, &wanted) == Ok(true),
        Err(_) => false,
    }
}

// How many maps are drawn, of how many contours, whether with horizontal and vertical edges alone, and whether each is swept in all ways
// or in one of these after another.
#[derive(Clone, Copy)]
struct Maps {
    number: usize,
    subjects: usize,
    clips: usize,
    are_square: bool,
    in_all_ways: bool,
}

// Whether sweeps of the next map, drawn after the seed, tell the fills of the slow program.
fn agree_on_map(
    alloc: Global,
    runner: &mut SweepRunner<i32>,
    maps: Maps,
    map: usize,
    seed: &mut u64,
) -> bool {
    let Ok(Some(segments)) = drawn_arrangement(
        alloc,
        maps.subjects,
        maps.clips,
        maps.are_square,
        seed,
    ) else {
        return false;
    };
    let Ok(edges) = counted(alloc, &segments) else {
        return false;
    };
    let mut agree = segments.len() < 1000;
    for way in 0..24 {
        if maps.in_all_ways || way == map % 24 {
            agree &= agrees_in_way(alloc, runner, way, &segments, &edges);
        }
    }
    agree
}

// The number of the first drawn map on which sweeps and the slow program differ.
fn first_unlike(alloc: Global, maps: Maps) -> Option<usize> {
    let Ok(mut runner) = SweepRunner::new(alloc) else {
        return Some(0);
    };
    let mut seed = 7;
    for map in 0..maps.number {
        if !agree_on_map(alloc, &mut runner, maps, map, &mut seed) {
            return Some(map);
        }
    }
    None
}

// By turns by each rule and with each strategy.
#[test]
fn fills_of_small_maps(rt: HostRuntime) {
    let maps = Maps {
        number: 2000,
        subjects: 1,
        clips: 1,
        are_square: false,
        in_all_ways: false,
    };
    assert!(rt; first_unlike(rt.alloc(), maps) == None);
}

// By each rule with each strategy.
#[test]
fn fills_of_drawn_maps(rt: HostRuntime) {
    let maps = Maps {
        number: 50,
        subjects: 2,
        clips: 1,
        are_square: false,
        in_all_ways: true,
    };
    assert!(rt; first_unlike(rt.alloc(), maps) == None);
}

// With so many contours `Auto` finds more than 64 segments.
#[test]
fn fills_of_larger_maps(rt: HostRuntime) {
    let maps = Maps {
        number: 5,
        subjects: 8,
        clips: 4,
        are_square: false,
        in_all_ways: true,
    };
    assert!(rt; first_unlike(rt.alloc(), maps) == None);
}

// With horizontal and vertical edges alone, from a few to more than 64.
#[test]
fn fills_of_square_maps(rt: HostRuntime) {
    for contours in 1..6 {
        let maps = Maps {
            number: 1 + 4 / contours,
            subjects: contours,
            clips: contours,
            are_square: true,
            in_all_ways: true,
        };
        assert!(rt; first_unlike(rt.alloc(), maps) == None);
    }
}
