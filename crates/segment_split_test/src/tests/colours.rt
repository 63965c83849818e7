//! Drawn maps of five colours, redrawn as a plain program of the map with data does.

ghost use Rattle.std.specs.Prelude.{◌≡◌, true, bit_or};

use super::drawn::next;
use i_tree::Steps;
use plane_base::fault::Fault;
use plane_base::point::IntPoint;
use plane_base::segment::XSegment;
use reference::passes::pass_slowly;
use segment_split::count::{ShapeCountBoolean, WindingCount};
use segment_split::data::{EdgeDataMerge, OverlayEdgeData};
use segment_split::segment::Segment;
use segment_split::solver::{Precision, Solver, Strategy};
use segment_split::split::{SplitSolver, can_be_split};
use std::alloc::Global;
use std::marker::Brand;
use std::sync::ledger::{Blank, Ledger};
use std::test::Fail;

// Some of five colours.
#[derive(Clone, Copy, Debug, PartialEq, Eq)]
struct Colours {
    mask: u8,
}

impl OverlayEdgeData<ShapeCountBoolean> for Colours {
    type Store = ();

    const JOINS: bool = true;

    ghost JOINS = { true };

    ghost use Rattle.std.specs.Int.Bits.{or_comm, or_self};
    ghost use Rattle.segment_split_test.specs.Masks.{or_assoc};

    ghost join = { λ c d. record { mask = bit_or c.mask d.mask } };

    ghost lawful = { λ _. record {
      commutes = λ c d i. record { mask = or_comm c.mask d.mask i };
      regroups = λ c d e i. record { mask = or_assoc c.mask d.mask e.mask i };
      repeats = λ c i. record { mask = or_self c.mask i };
    } };

    fn new_store(_alloc: Global) -> Result<(), Fault> {
        Ok(())
    }

    fn merge(joined: EdgeDataMerge<ShapeCountBoolean, Colours>, _store: &mut ()) -> Colours
        ensures { result ≡ record { mask = bit_or joined.lhs_data.mask joined.rhs_data.mask } }
    {
        both(joined.lhs_data, joined.rhs_data)
    }
}

// The colours of either.
fn both(one: Colours, other: Colours) -> Colours
    ensures { result ≡ record { mask = bit_or one.mask other.mask } }
{
    Colours {
        mask: one.mask | other.mask,
    }
}

// What lies on an edge.
#[derive(Clone, Copy)]
struct Laid {
    edge: XSegment<i32>,
    count: ShapeCountBoolean,
    colours: Colours,
}

// ---- the plain program

// The edges of a map, one of them as a subject edge and all others as clips.
fn with_subject(
    alloc: Global,
    map: &[Laid],
    own: XSegment<i32>,
) -> Result<Vec<Segment<ShapeCountBoolean, i32, ()>>, Fault> {
    let mut edges = Vec::new(alloc);
    for laid in map {
        let XSegment { a, b } = laid.edge;
        if a == b {
            return Err(Fault::Failed);
        }
        edges.push(Segment::new(a, b, role_of(laid.edge, own), (), &mut ()))?;
    }
    Ok(edges)
}

fn role_of(edge: XSegment<i32>, own: XSegment<i32>) -> ShapeCountBoolean {
    if edge == own {
        ShapeCountBoolean::new(1, 0)
    } else {
        ShapeCountBoolean::new(0, 1)
    }
}

// The steps that one edge of a map becomes in the pass: where it is laid as a subject edge and all others as clips, what has a subject
// is a step of it.
fn steps_of(
    alloc: Global,
    map: &[Laid],
    own: &Laid,
    precision: Precision,
    pass: usize,
) -> Result<Vec<Laid>, Fault> {
    let edges = with_subject(alloc, map, own.edge)?;
    if !can_be_split(&edges) {
        return Err(Fault::Failed);
    }
    let laid = pass_slowly(alloc, &edges, precision, pass)?;
    let mut steps = Vec::new(alloc);
    for step in &laid {
        keep_step(&mut steps, step.x_segment, step.count.subj, own)?;
    }
    Ok(steps)
}

// Keeps what has so many subjects, unless that is none.
fn keep_step(
    steps: &mut Vec<Laid>,
    edge: XSegment<i32>,
    subjects: i32,
    own: &Laid,
) -> Result<(), Fault> {
    if subjects != 0 {
        steps.push(Laid {
            edge,
            count: turned_by(own.count, subjects),
            colours: own.colours,
        })?;
    }
    Ok(())
}

// The count, turned where the number is below zero.
fn turned_by(count: ShapeCountBoolean, number: i32) -> ShapeCountBoolean {
    if number < 0 { count.invert() } else { count }
}

// What lies on an edge, if it is in the list.
fn laid_on(map: &[Laid], edge: XSegment<i32>) -> Option<Laid> {
    for laid in map {
        if laid.edge == edge {
            return Some(*laid);
        }
    }
    None
}

// All that lies on an edge, joined to what lies there before.
fn joined_to(before: Laid, steps: &[Laid]) -> Result<Laid, Fault> {
    let mut sum = before;
    for step in steps {
        if step.edge == before.edge {
            sum = Laid {
                edge: before.edge,
                count: sum.count.add(step.count)?,
                colours: both(sum.colours, step.colours),
            };
        }
    }
    Ok(sum)
}

// All that lies on one edge joined, and what then counts for nothing left out.
fn joined(alloc: Global, steps: &[Laid]) -> Result<Vec<Laid>, Fault> {
    let mut map = Vec::new(alloc);
    for step in steps {
        let nothing = Laid {
            edge: step.edge,
            count: ShapeCountBoolean::new(0, 0),
            colours: Colours { mask: 0 },
        };
        let sum = joined_to(nothing, steps)?;
        if !sum.count.is_empty() && laid_on(&map, step.edge).is_none() {
            map.push(sum)?;
        }
    }
    Ok(map)
}

// The map after the pass.
fn passed(
    alloc: Global,
    map: &[Laid],
    precision: Precision,
    pass: usize,
) -> Result<Vec<Laid>, Fault> {
    let mut steps = Vec::new(alloc);
    for own in map {
        steps.extend_from_slice(&steps_of(alloc, map, own, precision, pass)?)?;
    }
    joined(alloc, &steps)
}

// Whether each of the first list stands in the second.
fn are_among(some: &[Laid], all: &[Laid]) -> bool {
    for laid in some {
        match laid_on(all, laid.edge) {
            Some(found) => {
                if found.count != laid.count || found.colours != laid.colours {
                    return false;
                }
            }
            None => return false,
        }
    }
    true
}

// Whether two maps have the same edges, with the same counts and colours.
fn are_alike(one: &[Laid], other: &[Laid]) -> bool {
    one.len() == other.len() && are_among(one, other)
}

// Passes until one leaves the map as it is.
fn redrawn_slowly(alloc: Global, given: &[Laid], precision: Precision) -> Result<Vec<Laid>, Fault> {
    let mut map = joined(alloc, given)?;
    for k in 0..100 {
        let next = passed(alloc, &map, precision, k)?;
        if are_alike(&map, &next) {
            return Ok(map);
        }
        map = next;
    }
    Err(Fault::Failed)
}

// ---- what is tested

// The segments with what they have, split.
fn split_by(alloc: Global, given: &[Laid], solver: &Solver) -> Result<Vec<Laid>, Fault> {
    split_counted::<Brand>(alloc, given, solver, Blank::new(2))
}

fn split_counted<L: Ledger>(
    alloc: Global,
    given: &[Laid],
    solver: &Solver,
    blank: Blank,
) -> Result<Vec<Laid>, Fault>
    requires name { blank.name ≡ L.name }
    requires parts { blank.parts ≡ L.parts }
    requires two { blank.parts ≡ 2 }
{
    let mut segments = Vec::new(alloc);
    for laid in given {
        let XSegment { a, b } = laid.edge;
        if a == b {
            return Err(Fault::Failed);
        }
        segments.push(Segment::new(a, b, laid.count, laid.colours, &mut ()))?;
    }
    if !can_be_split(&segments) {
        return Err(Fault::Failed);
    }
    let mut steps = Steps::<L>::new(blank);
    let _ = SplitSolver::new(alloc).split_segments_with_store(
        &mut segments,
        solver,
        &mut (),
        &mut steps,
    )?;
    let mut map = Vec::new(alloc);
    for segment in &segments {
        map.push(Laid {
            edge: segment.x_segment,
            count: segment.count,
            colours: segment.datum,
        })?;
    }
    Ok(map)
}

// ---- drawn maps

// A coordinate from -2 to 2.
fn coordinate(seed: u64) -> i32 {
    (seed >> 33) as i32 % 5 - 2
}

// One subject edge or one clip edge, there or back.
fn count_of(seed: u64) -> ShapeCountBoolean {
    match (seed >> 33) % 4 {
        0 => ShapeCountBoolean::new(1, 0),
        1 => ShapeCountBoolean::new(-1, 0),
        2 => ShapeCountBoolean::new(0, 1),
        _ => ShapeCountBoolean::new(0, -1),
    }
}

// One of five.
fn colour(seed: u64) -> Colours {
    let masks = [1, 2, 4, 8, 16];
    Colours {
        mask: masks[(seed >> 33) as usize % 5],
    }
}

// So many edges, or fewer, with few coordinates and counts of one, so that much falls together, and much of it cancels.
fn drawn(alloc: Global, seed: u64, count: usize) -> Result<Vec<Laid>, Fault> {
    let mut map = Vec::new(alloc);
    let mut seed = seed;
    for _ in 0..count {
        let second = next(seed);
        let third = next(second);
        let fourth = next(third);
        let fifth = next(fourth);
        let sixth = next(fifth);
        seed = next(sixth);
        let a = IntPoint::new(coordinate(second), coordinate(third));
        let b = IntPoint::new(coordinate(fourth), coordinate(fifth));
        if a < b {
            map.push(Laid {
                edge: XSegment { a, b },
                count: count_of(sixth),
                colours: colour(seed),
            })?;
        }
    }
    Ok(map)
}

#[test]
fn joins_colours_as_the_plain_program(rt: HostRuntime) -> Result<(), Fail> {
    let alloc = rt.alloc();
    let precisions = [
        Precision::ABSOLUTE,
        Precision::HIGH,
        Precision::MEDIUM_HIGH,
        Precision::MEDIUM,
        Precision::MEDIUM_LOW,
        Precision::LOW,
    ];
    let strategies = [
        Strategy::List,
        Strategy::Tree,
        Strategy::Frag,
        Strategy::Auto,
    ];
    let mut seed = 1;
    for map in 0..2000 {
        seed = next(seed);
        let precision = precisions[map % 6];
        let given = drawn(alloc, seed, 12)?;
        let wanted = redrawn_slowly(alloc, &given, precision)?;
        for strategy in strategies {
            let solver = Solver::with_strategy_and_precision(strategy, precision);
            let found = split_by(alloc, &given, &solver)?;
            assert!(rt; are_alike(&found, &wanted), "at map {map}");
        }
    }
    Ok(())
}
