//! Paths, shapes and lists of shapes copied: a copy is like what it was made of, and neither changes with the other.

use plane_base::fault::Fault;
use plane_base::path::{IntPath, IntShape, IntShapes};
use plane_base::point::IntPoint;
use std::alloc::Global;

const SQUARE: &[(i32, i32)] = &[(0, 0), (10, 0), (10, 10), (0, 10)];

const FIRST_HOLE: &[(i32, i32)] = &[(1, 1), (1, 4), (4, 4), (4, 1)];

const LAST_HOLE: &[(i32, i32)] = &[(6, 6), (6, 9), (9, 6)];

const TRIANGLE: &[(i32, i32)] = &[(-20, -5), (-12, 7), (-20, 9)];

fn path_of(alloc: Global, row: &[(i32, i32)]) -> Result<IntPath<i32>, Fault> {
    let mut points = Vec::new(alloc);
    for (x, y) in row {
        points.push(IntPoint::new(*x, *y))?;
    }
    Ok(IntPath { points })
}

fn shape_of(alloc: Global, rows: &[&[(i32, i32)]]) -> Result<IntShape<i32>, Fault> {
    let mut contours = Vec::new(alloc);
    for row in rows {
        contours.push(path_of(alloc, row)?)?;
    }
    Ok(IntShape { contours })
}

// A square with two holes, a shape without contours, and a triangle.
fn some_shapes(alloc: Global) -> Result<IntShapes<i32>, Fault> {
    let framed = shape_of(alloc, &[SQUARE, FIRST_HOLE, LAST_HOLE])?;
    let empty = shape_of(alloc, &[])?;
    let alone = shape_of(alloc, &[TRIANGLE])?;
    Ok(IntShapes {
        shapes: Vec::from_array(alloc, [framed, empty, alone])?,
    })
}

fn is_path_copied(alloc: Global, row: &[(i32, i32)]) -> Result<bool, Fault> {
    let mut path = path_of(alloc, row)?;
    let wanted = path_of(alloc, row)?;
    let copy = path.clone()?;
    let is_like = path == wanted && copy == wanted;
    path.points.push(IntPoint::new(7, 7))?;
    Ok(is_like && copy == wanted && path != copy)
}

#[test]
fn copies_paths(rt: HostRuntime) {
    for row in [&[], SQUARE, LAST_HOLE] {
        assert!(rt; is_path_copied(rt.alloc(), row) == Ok(true), "{row:?}");
    }
}

fn is_shape_copied(alloc: Global, rows: &[&[(i32, i32)]]) -> Result<bool, Fault> {
    let mut shape = shape_of(alloc, rows)?;
    let wanted = shape_of(alloc, rows)?;
    let copy = shape.clone()?;
    let is_like = shape == wanted && copy == wanted;
    shape.contours.push(path_of(alloc, TRIANGLE)?)?;
    Ok(is_like && copy == wanted && shape != copy)
}

#[test]
fn copies_shapes(rt: HostRuntime) {
    assert!(rt; is_shape_copied(rt.alloc(), &[]) == Ok(true));
    assert!(rt; is_shape_copied(rt.alloc(), &[SQUARE]) == Ok(true));
    assert!(rt; is_shape_copied(rt.alloc(), &[SQUARE, FIRST_HOLE, LAST_HOLE]) == Ok(true));
}

fn are_shapes_copied(alloc: Global) -> Result<bool, Fault> {
    let mut shapes = some_shapes(alloc)?;
    let wanted = some_shapes(alloc)?;
    let copy = shapes.clone()?;
    let is_like = shapes == wanted && copy == wanted;
    shapes.shapes.clear();
    Ok(is_like && copy == wanted && shapes != copy)
}

fn are_none_copied(alloc: Global) -> Result<bool, Fault> {
    let none = IntShapes::<i32> {
        shapes: Vec::new(alloc),
    };
    let copy = none.clone()?;
    Ok(copy == none && copy.shapes.is_empty())
}

#[test]
fn copies_lists_of_shapes(rt: HostRuntime) {
    assert!(rt; are_shapes_copied(rt.alloc()) == Ok(true));
    assert!(rt; are_none_copied(rt.alloc()) == Ok(true));
}
