//! Edges with their sides, of overlays of contours.

use super::{Point, Row, are_rows, at, only_path};
use contour_walk::options::IntOverlayOptions;
use plane_base::fault::Fault;
use plane_base::point::IntPoint;
use plane_base::range::all_in_range;
use polygon_overlay::overlay::Overlay;
use segment_arrangement::fill_rule::FillRule::NonZero;
use segment_arrangement::overlay_rule::OverlayRule::Subject;
use segment_split::count::ShapeType;
use segment_split::solver::Solver;
use std::alloc::Global;

const SOLVERS: [Solver; 4] = [Solver::LIST, Solver::TREE, Solver::FRAG, Solver::AUTO];

// A square or another contour of four points.
type Corners = [Point; 4];

// Adds a contour whose coordinates are in range.
fn add_corners(
    overlay: &mut Overlay<i32>,
    corners: Corners,
    shape_type: ShapeType,
) -> Result<(), Fault> {
    let [first, second, third, fourth] = corners;
    let points: [IntPoint<i32>; 4] = [at(first), at(second), at(third), at(fourth)];
    if all_in_range(&points) {
        overlay.add_contour(&points, shape_type)?;
    }
    Ok(())
}

// All edges of a square, and of one within it as clip.
fn lists_frame(alloc: Global, solver: Solver) -> Result<bool, Fault> {
    let mut overlay = Overlay::new(alloc, 0)?;
    overlay.solver = solver;
    add_corners(
        &mut overlay,
        [(0, 0), (10, 0), (10, 10), (0, 10)],
        ShapeType::Subject,
    )?;
    add_corners(
        &mut overlay,
        [(3, 3), (7, 3), (7, 7), (3, 7)],
        ShapeType::Clip,
    )?;
    let edges = overlay.build_separate_vectors(NonZero)?;
    let wanted = [
        ((0, 0), (0, 10), 2),
        ((0, 0), (10, 0), 1),
        ((0, 10), (10, 10), 2),
        ((3, 3), (3, 7), 11),
        ((3, 3), (7, 3), 7),
        ((3, 7), (7, 7), 11),
        ((7, 3), (7, 7), 7),
        ((10, 0), (10, 10), 1),
    ];
    let again = overlay.build_separate_vectors(NonZero)?;
    overlay.clear();
    let none = overlay.build_separate_vectors(NonZero)?;
    Ok(are_rows(&edges, &wanted) && are_rows(&again, &wanted) && none.is_empty())
}

#[test]
fn lists_all_edges(rt: HostRuntime) {
    for solver in SOLVERS {
        assert!(rt; lists_frame(rt.alloc(), solver) == Ok(true));
    }
}

// Whether two subjects are one shape, of one path of these edges.
fn is_joined_by(
    alloc: Global,
    solver: Solver,
    options: IntOverlayOptions,
    subjects: [Corners; 2],
    rows: &[Row],
) -> Result<bool, Fault> {
    let mut overlay = Overlay::new_custom(alloc, 0, options, solver)?;
    for corners in subjects {
        add_corners(&mut overlay, corners, ShapeType::Subject)?;
    }
    let shapes = overlay.build_shape_vectors(NonZero, Subject)?;
    let again = overlay.build_shape_vectors(NonZero, Subject)?;
    overlay.clear();
    let none = overlay.build_shape_vectors(NonZero, Subject)?;
    Ok(are_rows(only_path(&shapes), rows) && are_rows(only_path(&again), rows) && none.is_empty())
}

// The same by each strategy.
fn is_joined(
    alloc: Global,
    options: IntOverlayOptions,
    subjects: [Corners; 2],
    rows: &[Row],
) -> Result<bool, Fault> {
    for solver in SOLVERS {
        if !is_joined_by(alloc, solver, options, subjects, rows)? {
            return Ok(false);
        }
    }
    Ok(true)
}

const NEIGHBOURS: [Corners; 2] = [
    [(0, 0), (2, 0), (2, 2), (0, 2)],
    [(2, 0), (4, 0), (4, 2), (2, 2)],
];

// Two squares side by side, with all points and with corners alone.
fn joins_neighbours(alloc: Global) -> Result<[bool; 2], Fault> {
    let all = [
        ((0, 2), (0, 0), 1),
        ((0, 0), (2, 0), 1),
        ((2, 0), (4, 0), 1),
        ((4, 0), (4, 2), 1),
        ((4, 2), (2, 2), 1),
        ((2, 2), (0, 2), 1),
    ];
    let corners = [
        ((0, 0), (4, 0), 1),
        ((4, 0), (4, 2), 1),
        ((4, 2), (0, 2), 1),
        ((0, 2), (0, 0), 1),
    ];
    Ok([
        is_joined(
            alloc,
            IntOverlayOptions::keep_all_points(),
            NEIGHBOURS,
            &all,
        )?,
        is_joined(alloc, IntOverlayOptions::default(), NEIGHBOURS, &corners)?,
    ])
}

#[test]
fn answers_neighbours_as_one_shape(rt: HostRuntime) {
    assert!(rt; joins_neighbours(rt.alloc()) == Ok([true; 2]));
}

// Two squares side by side, one of which runs the other way.
fn joins_turned_neighbour(alloc: Global) -> Result<bool, Fault> {
    let squares = [
        [(2, 3), (3, 3), (3, 4), (2, 4)],
        [(1, 3), (1, 4), (2, 4), (2, 3)],
    ];
    let wanted = [
        ((1, 3), (3, 3), 1),
        ((3, 3), (3, 4), 1),
        ((3, 4), (1, 4), 1),
        ((1, 4), (1, 3), 1),
    ];
    is_joined(alloc, IntOverlayOptions::default(), squares, &wanted)
}

#[test]
fn answers_a_turned_neighbour_in_the_same_shape(rt: HostRuntime) {
    assert!(rt; joins_turned_neighbour(rt.alloc()) == Ok(true));
}
