//! Data that are turned with their edges: a colour on either side. A turned edge that kept them would have its colours on the wrong sides.

ghost use Rattle.std.specs.Prelude.{◌≡◌, bit_or};

use super::held::SOLVERS;
use super::squares::{LISTED, PATH};
use super::{Point, are_rows, at, only_path};
use contour_walk::vector::edge::DataVectorEdge;
use plane_base::fault::Fault;
use plane_base::range::is_in_range;
use polygon_overlay::edge_overlay::{EdgeOverlay, InputEdge};
use segment_arrangement::fill_rule::FillRule::NonZero;
use segment_arrangement::overlay_rule::OverlayRule::Union;
use segment_split::count::ShapeCountBoolean;
use segment_split::count::ShapeType::{self, Clip, Subject};
use segment_split::data::{EdgeDataMerge, OverlayEdgeData};
use segment_split::solver::Solver;
use std::alloc::Global;

const NONE: u8 = 0;

const RED: u8 = 1;

const GREEN: u8 = 2;

const BOTH: u8 = 3;

// The colours of both sides.
#[derive(Clone, Copy, Debug, PartialEq, Eq)]
struct Sided {
    left: u8,
    right: u8,
}

impl OverlayEdgeData<ShapeCountBoolean> for Sided {
    type Store = ();

    const JOINS: bool = false;

    ghost turns_to = { λ d e. e ≡ record { left = d.right; right = d.left } };

    ghost use Rattle.std.proofs.Common.{rules};

    ghost lawful = { Prim.search rules };

    fn new_store(_alloc: Global) -> Result<(), Fault> {
        Ok(())
    }

    fn reversed(self, _store: &mut ()) -> Sided {
        with_sides(self.right, self.left)
    }

    fn merge(joined: EdgeDataMerge<ShapeCountBoolean, Sided>, _store: &mut ()) -> Sided
        ensures { result ≡ record {
          left = bit_or joined.lhs_data.left joined.rhs_data.left;
          right = bit_or joined.lhs_data.right joined.rhs_data.right;
        } }
    {
        let EdgeDataMerge {
            lhs_data,
            rhs_data,
            ..
        } = joined;
        with_sides(
            lhs_data.left | rhs_data.left,
            lhs_data.right | rhs_data.right,
        )
    }
}

fn with_sides(left: u8, right: u8) -> Sided
    ensures { result ≡ record { left = left; right = right } }
{
    Sided { left, right }
}

// The sides of a red square as subject, and of a green one as clip that is given clockwise.
const SIDES: [(ShapeType, Point, Point); 8] = [
    (Subject, (0, 0), (4, 0)),
    (Subject, (4, 0), (4, 4)),
    (Subject, (4, 4), (0, 4)),
    (Subject, (0, 4), (0, 0)),
    (Clip, (2, 0), (2, 4)),
    (Clip, (2, 4), (6, 4)),
    (Clip, (6, 4), (6, 0)),
    (Clip, (6, 0), (2, 0)),
];

// The colours left and right of the edges as they are listed: of each square inside alone.
const LISTED_SIDES: [(u8, u8); 8] = [
    (NONE, RED),
    (RED, NONE),
    (NONE, RED),
    (BOTH, NONE),
    (NONE, BOTH),
    (GREEN, NONE),
    (NONE, GREEN),
    (GREEN, NONE),
];

// The same of the path's edges.
const PATH_SIDES: [(u8, u8); 8] = [
    (RED, NONE),
    (RED, NONE),
    (BOTH, NONE),
    (GREEN, NONE),
    (GREEN, NONE),
    (GREEN, NONE),
    (BOTH, NONE),
    (RED, NONE),
];

// Red left of the subject's sides, and green right of the clip's.
fn colours_of(shape_type: ShapeType) -> Sided {
    match shape_type {
        Subject => with_sides(RED, NONE),
        Clip => with_sides(NONE, GREEN),
    }
}

fn add_side(
    overlay: &mut EdgeOverlay<i32, Sided>,
    shape_type: ShapeType,
    from: Point,
    to: Point,
) -> Result<(), Fault> {
    let edge = InputEdge {
        a: at(from),
        b: at(to),
        datum: colours_of(shape_type),
    };
    if !is_in_range(edge.a) || !is_in_range(edge.b) {
        return Err(Fault::Failed);
    }
    overlay.add_edge(edge, shape_type)
}

fn add_sides(overlay: &mut EdgeOverlay<i32, Sided>) -> Result<(), Fault> {
    for side in SIDES {
        let (shape_type, from, to) = side;
        add_side(overlay, shape_type, from, to)?;
    }
    Ok(())
}

fn squares(alloc: Global, solver: Solver) -> Result<EdgeOverlay<i32, Sided>, Fault> {
    let mut overlay = EdgeOverlay::<i32, Sided>::new(alloc, 0)?;
    overlay.solver = solver;
    add_sides(&mut overlay)?;
    Ok(overlay)
}

// Whether edges have these colours left and right.
fn are_sided(edges: &[DataVectorEdge<i32, Sided>], sides: &[(u8, u8)]) -> bool {
    if edges.len() != sides.len() {
        return false;
    }
    for (edge, side) in edges.iter().zip(sides.iter()) {
        let (left, right) = *side;
        if edge.datum != with_sides(left, right) {
            return false;
        }
    }
    true
}

fn are_listed(overlay: &mut EdgeOverlay<i32, Sided>) -> Result<bool, Fault> {
    if !overlay.is_balanced() {
        return Ok(false);
    }
    let edges = overlay.build_vectors(Union, NonZero)?;
    Ok(are_rows(&edges, &LISTED) && are_sided(&edges, &LISTED_SIDES))
}

fn are_a_path(overlay: &mut EdgeOverlay<i32, Sided>) -> Result<bool, Fault> {
    if !overlay.is_balanced() {
        return Ok(false);
    }
    let shapes = overlay.build_vector_shapes(Union, NonZero)?;
    let path = only_path(&shapes);
    Ok(are_rows(path, &PATH) && are_sided(path, &PATH_SIDES))
}

// Whether colours are on their sides in the list and, of another builder, in the path.
fn keep_their_sides(alloc: Global, solver: Solver) -> Result<[bool; 2], Fault> {
    let mut listed = squares(alloc, solver)?;
    let mut shaped = squares(alloc, solver)?;
    Ok([are_listed(&mut listed)?, are_a_path(&mut shaped)?])
}

#[test]
fn colours_keep_their_sides(rt: HostRuntime) {
    for solver in SOLVERS {
        assert!(rt; keep_their_sides(rt.alloc(), solver) == Ok([true; 2]));
    }
}
