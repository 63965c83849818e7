//! Hierarchies of shapes, and the order of their links.

use super::{CENTER, LEFT, UP};
use contour_walk::hierarchy::{ChildLink, FlatShapeHierarchy};
use plane_base::fault::Fault;
use std::alloc::Global;

fn is_empty(hierarchy: &FlatShapeHierarchy<i32>) -> bool {
    hierarchy.shapes.points.is_empty()
        && hierarchy.shapes.contour_ranges.is_empty()
        && hierarchy.shapes.shape_ranges.is_empty()
        && hierarchy.links.is_empty()
}

#[test]
fn begins_without_shapes(rt: HostRuntime) {
    assert!(rt; is_empty(&FlatShapeHierarchy::new(rt.alloc())));
}

// A hierarchy of one triangle, with a link.
fn triangle(alloc: Global) -> Result<FlatShapeHierarchy<i32>, Fault> {
    let mut hierarchy = FlatShapeHierarchy::new(alloc);
    for point in [CENTER, LEFT, UP] {
        hierarchy.shapes.points.push(point)?;
    }
    hierarchy.shapes.contour_ranges.push(0..3)?;
    hierarchy.shapes.shape_ranges.push(0..1)?;
    hierarchy.links.push(LINKS[0])?;
    Ok(hierarchy)
}

// Whether a copy is like the triangle, and stays as it is where the triangle loses its link.
fn is_copied(alloc: Global) -> Result<bool, Fault> {
    let mut hierarchy = triangle(alloc)?;
    let copy = hierarchy.clone()?;
    let is_like = copy == hierarchy;
    hierarchy.links.clear();
    Ok(is_like && !(copy == hierarchy) && copy.links.as_slice() == &LINKS[..1])
}

#[test]
fn copies_shapes_and_links(rt: HostRuntime) {
    assert!(rt; is_copied(rt.alloc()) == Ok(true));
}

// Links in their order: by parent shape, parent contour and child shape in turn.
const LINKS: [ChildLink; 5] = [
    ChildLink {
        parent_shape_index: 0,
        parent_contour_index: 1,
        child_shape_index: 2,
    },
    ChildLink {
        parent_shape_index: 0,
        parent_contour_index: 1,
        child_shape_index: 3,
    },
    ChildLink {
        parent_shape_index: 0,
        parent_contour_index: 2,
        child_shape_index: 1,
    },
    ChildLink {
        parent_shape_index: 1,
        parent_contour_index: 0,
        child_shape_index: 0,
    },
    ChildLink {
        parent_shape_index: 1,
        parent_contour_index: 0,
        child_shape_index: 5,
    },
];

#[test]
fn orders_links(rt: HostRuntime) {
    for i in 0..LINKS.len() {
        for j in 0..LINKS.len() {
            let (a, b) = (LINKS[i], LINKS[j]);
            assert!(rt; a.cmp(&b) == i.cmp(&j) && (a == b) == (i == j));
        }
    }
}
