//! Data joined where segments fall together, worked out by hand.

ghost use Rattle.std.specs.Prelude.{◌≡◌, ◌||◌};

use i_tree::Steps;
use plane_base::fault::Fault;
use plane_base::point::IntPoint;
use segment_split::count::{ShapeCountBoolean, WindingCount};
use segment_split::data::{EdgeDataMerge, OverlayEdgeData};
use segment_split::segment::Segment;
use segment_split::solver::Solver;
use segment_split::split::{SplitSolver, can_be_split};
use std::alloc::Global;
use std::marker::Brand;
use std::sync::ledger::{Blank, Ledger};
use std::test::Fail;

// Some of three paints.
#[derive(Clone, Copy, Debug, PartialEq, Eq)]
struct Paints {
    red: bool,
    green: bool,
    blue: bool,
}

const RED: Paints = Paints {
    red: true,
    green: false,
    blue: false,
};

const GREEN: Paints = Paints {
    red: false,
    green: true,
    blue: false,
};

const BLUE: Paints = Paints {
    red: false,
    green: false,
    blue: true,
};

const RED_AND_GREEN: Paints = Paints {
    red: true,
    green: true,
    blue: false,
};

const ALL: Paints = Paints {
    red: true,
    green: true,
    blue: true,
};

impl OverlayEdgeData<ShapeCountBoolean> for Paints {
    type Store = ();

    const JOINS: bool = true;

    ghost JOINS = { true };

    ghost join = { λ d e. record { red = d.red || e.red; green = d.green || e.green; blue = d.blue || e.blue } };

    ghost use Rattle.std.specs.Prelude.{true};
    ghost use Rattle.std.proofs.Math.Bool.{or_assoc, or_comm, or_self};

    ghost lawful = { λ _. record {
      commutes = λ d e i. record { red = or_comm d.red e.red i; green = or_comm d.green e.green i; blue = or_comm d.blue e.blue i };
      regroups = λ d e f i. record { red = or_assoc d.red e.red f.red i; green = or_assoc d.green e.green f.green i; blue = or_assoc d.blue e.blue f.blue i };
      repeats = λ d i. record { red = or_self d.red i; green = or_self d.green i; blue = or_self d.blue i };
    } };

    fn new_store(_alloc: Global) -> Result<(), Fault> {
        Ok(())
    }

    fn merge(joined: EdgeDataMerge<ShapeCountBoolean, Paints>, _store: &mut ()) -> Paints
        ensures { result ≡ record {
          red = joined.lhs_data.red || joined.rhs_data.red;
          green = joined.lhs_data.green || joined.rhs_data.green;
          blue = joined.lhs_data.blue || joined.rhs_data.blue;
        } }
    {
        let EdgeDataMerge {
            lhs_data,
            rhs_data,
            ..
        } = joined;
        Paints {
            red: lhs_data.red | rhs_data.red,
            green: lhs_data.green | rhs_data.green,
            blue: lhs_data.blue | rhs_data.blue,
        }
    }
}

// A step, how often subject and clip run along it, and its paints.
type Row = ((i32, i32), (i32, i32), i32, i32, Paints);

// A segment of two different points.
fn painted(row: Row) -> Option<Segment<ShapeCountBoolean, i32, Paints>> {
    let (a, b, subj, clip, paints) = row;
    if a == b || subj == i32::MIN || clip == i32::MIN {
        return None;
    }
    let from = IntPoint::new(a.0, a.1);
    let to = IntPoint::new(b.0, b.1);
    Some(Segment::new(
        from,
        to,
        ShapeCountBoolean::new(subj, clip),
        paints,
        &mut (),
    ))
}

// Steps without length are left out.
fn all_painted(
    alloc: Global,
    rows: &[Row],
) -> Result<Vec<Segment<ShapeCountBoolean, i32, Paints>>, Fault> {
    let mut segments = Vec::new(alloc);
    for row in rows {
        if let Some(segment) = painted(*row) {
            segments.push(segment)?;
        }
    }
    Ok(segments)
}

fn split_by(
    alloc: Global,
    rows: &[Row],
    solver: &Solver,
) -> Result<Vec<Segment<ShapeCountBoolean, i32, Paints>>, Fault> {
    split_counted::<Brand>(alloc, rows, solver, Blank::new(2))
}

fn split_counted<L: Ledger>(
    alloc: Global,
    rows: &[Row],
    solver: &Solver,
    blank: Blank,
) -> Result<Vec<Segment<ShapeCountBoolean, i32, Paints>>, Fault>
    requires name { blank.name ≡ L.name }
    requires parts { blank.parts ≡ L.parts }
    requires two { blank.parts ≡ 2 }
{
    let mut segments = all_painted(alloc, rows)?;
    if !can_be_split(&segments) {
        return Err(Fault::Failed);
    }
    let mut steps = Steps::<L>::new(blank);
    let _ = SplitSolver::new(alloc).split_segments_with_store(
        &mut segments,
        solver,
        &mut (),
        &mut steps,
    )?;
    Ok(segments)
}

// Whether the segment stands in a list, with its count and its paints.
fn is_among(
    all: &[Segment<ShapeCountBoolean, i32, Paints>],
    segment: Segment<ShapeCountBoolean, i32, Paints>,
) -> bool {
    all.iter().any(|s| *s == segment && s.count == segment.count && s.datum == segment.datum)
}

const SOLVERS: [Solver; 4] = [Solver::LIST, Solver::TREE, Solver::FRAG, Solver::AUTO];

// Whether each segment of the first list stands in the second.
fn are_among(
    some: &[Segment<ShapeCountBoolean, i32, Paints>],
    all: &[Segment<ShapeCountBoolean, i32, Paints>],
) -> bool {
    some.iter().all(|segment| is_among(all, *segment))
}

// Whether each of these rows is left of the given ones, by each strategy.
fn are_left(alloc: Global, given: &[Row], wanted: &[Row]) -> Result<bool, Fault> {
    let wanted = all_painted(alloc, wanted)?;
    for solver in SOLVERS {
        let found = split_by(alloc, given, &solver)?;
        if !are_among(&wanted, &found) {
            return Ok(false);
        }
    }
    Ok(true)
}

// Whether these rows are all that is left, by each strategy.
fn leaves(alloc: Global, given: &[Row], wanted: &[Row]) -> Result<bool, Fault> {
    let wanted = all_painted(alloc, wanted)?;
    for solver in SOLVERS {
        let found = split_by(alloc, given, &solver)?;
        if found.len() != wanted.len() || !are_among(&wanted, &found) {
            return Ok(false);
        }
    }
    Ok(true)
}

#[test]
fn joins_the_datum_of_pieces_that_cancel(rt: HostRuntime) -> Result<(), Fail> {
    let given = [
        ((0, 0), (2, 0), 1, 0, RED),
        ((0, 0), (4, 0), 0, 1, GREEN),
        ((-2, 0), (2, 0), 0, -1, GREEN),
    ];
    let wanted = [
        ((-2, 0), (0, 0), 0, -1, GREEN),
        ((0, 0), (2, 0), 1, 0, RED_AND_GREEN),
        ((2, 0), (4, 0), 0, 1, GREEN),
    ];
    assert!(rt; leaves(rt.alloc(), &given, &wanted)?);
    Ok(())
}

#[test]
fn paints_the_side_on_which_two_triangles_cancel(rt: HostRuntime) -> Result<(), Fail> {
    let given = [
        ((0, 0), (2, 0), 1, 0, RED),
        ((2, 0), (2, 2), 1, 0, RED),
        ((2, 2), (0, 2), 1, 0, RED),
        ((0, 2), (0, 0), 1, 0, RED),
        ((0, 0), (4, 0), 0, 1, GREEN),
        ((4, 0), (2, -4), 0, 1, GREEN),
        ((2, -4), (0, 0), 0, 1, GREEN),
        ((2, 0), (-2, 0), 0, 1, GREEN),
        ((-2, 0), (0, -4), 0, 1, GREEN),
        ((0, -4), (2, 0), 0, 1, GREEN),
    ];
    let wanted = [
        ((0, 0), (2, 0), 1, 0, RED_AND_GREEN),
        ((2, 0), (2, 2), 1, 0, RED),
        ((0, 2), (2, 2), -1, 0, RED),
        ((0, 0), (0, 2), -1, 0, RED),
    ];
    assert!(rt; are_left(rt.alloc(), &given, &wanted)?);
    Ok(())
}

#[test]
fn joins_the_data_of_given_segments_before_any_goes(rt: HostRuntime) -> Result<(), Fail> {
    let given = [
        ((0, 0), (1, 0), 1, 0, RED),
        ((0, 0), (1, 0), -1, 0, GREEN),
        ((0, 0), (1, 0), 1, 0, BLUE),
    ];
    assert!(rt; leaves(rt.alloc(), &given, &[((0, 0), (1, 0), 1, 0, ALL)])?);
    Ok(())
}

#[test]
fn joins_the_data_of_a_square_given_twice(rt: HostRuntime) -> Result<(), Fail> {
    let alloc = rt.alloc();
    let there = [
        ((0, 0), (2, 0), 1, 0, RED),
        ((2, 0), (2, 2), 1, 0, RED),
        ((2, 2), (0, 2), 1, 0, RED),
        ((0, 2), (0, 0), 1, 0, RED),
        ((0, 0), (2, 0), 1, 0, GREEN),
        ((2, 0), (2, 2), 1, 0, GREEN),
        ((2, 2), (0, 2), 1, 0, GREEN),
        ((0, 2), (0, 0), 1, 0, GREEN),
    ];
    let wanted = [
        ((0, 0), (0, 2), -2, 0, RED_AND_GREEN),
        ((0, 0), (2, 0), 2, 0, RED_AND_GREEN),
        ((0, 2), (2, 2), -2, 0, RED_AND_GREEN),
        ((2, 0), (2, 2), 2, 0, RED_AND_GREEN),
    ];
    assert!(rt; leaves(alloc, &there, &wanted)?);
    let back = [
        ((0, 0), (2, 0), 1, 0, RED),
        ((2, 0), (2, 2), 1, 0, RED),
        ((2, 2), (0, 2), 1, 0, RED),
        ((0, 2), (0, 0), 1, 0, RED),
        ((0, 0), (0, 2), 1, 0, GREEN),
        ((0, 2), (2, 2), 1, 0, GREEN),
        ((2, 2), (2, 0), 1, 0, GREEN),
        ((2, 0), (0, 0), 1, 0, GREEN),
    ];
    assert!(rt; leaves(alloc, &back, &[])?);
    Ok(())
}

#[test]
fn joins_data_where_segments_overlap(rt: HostRuntime) -> Result<(), Fail> {
    let given = [
        ((0, 0), (6, 0), 1, 0, RED),
        ((2, 0), (8, 0), 1, 0, GREEN),
        ((9, 0), (4, 0), 1, 0, BLUE),
    ];
    let wanted = [
        ((0, 0), (2, 0), 1, 0, RED),
        ((2, 0), (4, 0), 2, 0, RED_AND_GREEN),
        ((4, 0), (6, 0), 1, 0, ALL),
        ((8, 0), (9, 0), -1, 0, BLUE),
    ];
    assert!(rt; leaves(rt.alloc(), &given, &wanted)?);
    Ok(())
}

#[test]
fn keeps_the_datum_of_a_turned_step(rt: HostRuntime) -> Result<(), Fail> {
    let given = [((0, 0), (10, 1), 1, 0, RED), ((1, -8), (1, 8), 1, 0, GREEN)];
    let wanted = [
        ((0, 0), (1, -8), -1, 0, GREEN),
        ((0, 0), (1, 8), 1, 0, GREEN),
        ((0, 0), (10, 1), 1, 0, RED),
    ];
    assert!(rt; leaves(rt.alloc(), &given, &wanted)?);
    Ok(())
}
