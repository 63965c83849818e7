//! Which edges are held before and after each query, by each strategy, and what two queries of one builder answer.

use super::squares::{GIVEN, LISTED, PATH, REDRAWN, SIDES};
use super::{are_held, are_rows, at, only_path};
use plane_base::fault::Fault;
use plane_base::range::is_in_range;
use polygon_overlay::edge_overlay::{EdgeOverlay, InputEdge};
use segment_arrangement::fill_rule::FillRule::NonZero;
use segment_arrangement::overlay_rule::OverlayRule::Union;
use segment_split::count::{ShapeCountBoolean, ShapeType};
use segment_split::data::OverlayEdgeData;
use segment_split::solver::Solver;
use std::alloc::Global;

pub(super) const SOLVERS: [Solver; 4] = [Solver::LIST, Solver::TREE, Solver::FRAG, Solver::AUTO];

// Adds an edge whose ends are in range.
fn add<D: OverlayEdgeData<ShapeCountBoolean>>(
    overlay: &mut EdgeOverlay<i32, D>,
    edge: InputEdge<i32, D>,
    shape_type: ShapeType,
) -> Result<(), Fault> {
    if !is_in_range(edge.a) || !is_in_range(edge.b) {
        return Err(Fault::Failed);
    }
    overlay.add_edge(edge, shape_type)
}

// A builder by this solver, with nothing in it.
fn empty<D: OverlayEdgeData<ShapeCountBoolean>>(
    alloc: Global,
    solver: Solver,
) -> Result<EdgeOverlay<i32, D>, Fault> {
    let mut overlay = EdgeOverlay::<i32, D>::new(alloc, 0)?;
    overlay.solver = solver;
    Ok(overlay)
}

// Adds the sides of both squares, all with one datum.
fn add_sides<D: OverlayEdgeData<ShapeCountBoolean>>(
    overlay: &mut EdgeOverlay<i32, D>,
    datum: D,
) -> Result<(), Fault> {
    for side in SIDES {
        let (shape_type, a, b) = side;
        let edge = InputEdge {
            a: at(a),
            b: at(b),
            datum,
        };
        add(overlay, edge, shape_type)?;
    }
    Ok(())
}

// A builder of both squares, all of whose sides have one datum.
pub(super) fn overlay_of<D: OverlayEdgeData<ShapeCountBoolean>>(
    alloc: Global,
    solver: Solver,
    datum: D,
) -> Result<EdgeOverlay<i32, D>, Fault> {
    let mut overlay = empty(alloc, solver)?;
    add_sides(&mut overlay, datum)?;
    Ok(overlay)
}

// Whether the edges that bound both squares are listed with their fills.
pub(super) fn lists_border<D: OverlayEdgeData<ShapeCountBoolean>>(
    overlay: &mut EdgeOverlay<i32, D>,
) -> Result<bool, Fault> {
    if !overlay.is_balanced() {
        return Ok(false);
    }
    let edges = overlay.build_vectors(Union, NonZero)?;
    Ok(are_rows(&edges, &LISTED))
}

// Whether both squares are one shape, of one path.
pub(super) fn lists_path<D: OverlayEdgeData<ShapeCountBoolean>>(
    overlay: &mut EdgeOverlay<i32, D>,
) -> Result<bool, Fault> {
    if !overlay.is_balanced() {
        return Ok(false);
    }
    let shapes = overlay.build_vector_shapes(Union, NonZero)?;
    Ok(are_rows(only_path(&shapes), &PATH))
}

// Whether the sides are held, and after a list of edges what is redrawn, and so after shapes.
fn holds_after_edges(alloc: Global, solver: Solver) -> Result<[bool; 5], Fault> {
    let mut overlay = overlay_of(alloc, solver, ())?;
    let are_given = are_held(&overlay, &GIVEN);
    let is_listed = lists_border(&mut overlay)?;
    let are_redrawn = are_held(&overlay, &REDRAWN);
    let is_path = lists_path(&mut overlay)?;
    Ok([
        are_given,
        is_listed,
        are_redrawn,
        is_path,
        are_held(&overlay, &REDRAWN),
    ])
}

// The same where shapes are asked first.
fn holds_after_shapes(alloc: Global, solver: Solver) -> Result<[bool; 5], Fault> {
    let mut overlay = overlay_of(alloc, solver, ())?;
    let are_given = are_held(&overlay, &GIVEN);
    let is_path = lists_path(&mut overlay)?;
    let are_redrawn = are_held(&overlay, &REDRAWN);
    let is_listed = lists_border(&mut overlay)?;
    Ok([
        are_given,
        is_path,
        are_redrawn,
        is_listed,
        are_held(&overlay, &REDRAWN),
    ])
}

#[test]
fn holds_what_is_redrawn(rt: HostRuntime) {
    for solver in SOLVERS {
        assert!(rt; holds_after_edges(rt.alloc(), solver) == Ok([true; 5]));
        assert!(rt; holds_after_shapes(rt.alloc(), solver) == Ok([true; 5]));
    }
}
