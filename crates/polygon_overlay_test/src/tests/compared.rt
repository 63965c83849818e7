//! Builders of predicates made of sources, by each call that makes one or adds to it: all hold two squares that touch at a corner.

use super::SQUARE;
use super::made::shape_of;
use super::relations::{NEIGHBOUR, TOUCHING};
use plane_base::fault::Fault;
use plane_base::path::IntShape;
use plane_base::point::IntPoint;
use plane_base::range::{all_in_range, source_in_range};
use polygon_overlay::relate::PredicateOverlay;
use segment_arrangement::fill_rule::FillRule::NonZero;
use segment_split::count::ShapeType;
use segment_split::solver::Solver;
use std::alloc::Global;

// A builder of both shapes.
fn made_of(
    alloc: Global,
    is_custom: bool,
    subj: &IntShape<i32>,
    clip: &IntShape<i32>,
) -> Result<PredicateOverlay<i32>, Fault> {
    if !source_in_range(subj) {
        return Err(Fault::Failed);
    }
    if !source_in_range(clip) {
        return Err(Fault::Failed);
    }
    if is_custom {
        PredicateOverlay::from_subj_and_clip_custom(alloc, subj, clip, NonZero, Solver::FRAG)
    } else {
        PredicateOverlay::from_subj_and_clip(alloc, subj, clip)
    }
}

// Adds a shape, by the adder of this number.
fn add(
    overlay: &mut PredicateOverlay<i32>,
    adder: u8,
    shape: &IntShape<i32>,
    shape_type: ShapeType,
) -> Result<(), Fault> {
    if !source_in_range(shape) {
        return Err(Fault::Failed);
    }
    match adder {
        0 => overlay.add_source(shape, shape_type),
        1 => overlay.add_contours(shape, shape_type),
        2 => overlay.add_shape(shape, shape_type),
        _ => overlay.add_shapes(shape, shape_type),
    }
}

// Adds a contour whose points come one by one.
fn add_one_by_one(
    overlay: &mut PredicateOverlay<i32>,
    points: &[IntPoint<i32>],
    shape_type: ShapeType,
) -> Result<(), Fault> {
    if !all_in_range(points) {
        return Err(Fault::Failed);
    }
    overlay.add_path_iter(points.iter().copied(), shape_type)
}

// Takes all out, and the shapes in.
fn replace(
    overlay: &mut PredicateOverlay<i32>,
    subj: &IntShape<i32>,
    clip: &IntShape<i32>,
) -> Result<(), Fault> {
    if !source_in_range(subj) {
        return Err(Fault::Failed);
    }
    if !source_in_range(clip) {
        return Err(Fault::Failed);
    }
    overlay.reinit_with_subj_and_clip(subj, clip)
}

fn is_touching(overlay: &mut PredicateOverlay<i32>) -> Result<bool, Fault> {
    Ok(overlay.relations()? == TOUCHING)
}

fn are_made(alloc: Global) -> Result<bool, Fault> {
    let square = shape_of(alloc, &SQUARE)?;
    let neighbour = shape_of(alloc, &NEIGHBOUR)?;
    let mut plain = made_of(alloc, false, &square, &neighbour)?;
    let mut custom = made_of(alloc, true, &square, &neighbour)?;
    Ok(is_touching(&mut plain)? && is_touching(&mut custom)?)
}

fn are_added(alloc: Global) -> Result<bool, Fault> {
    let square = shape_of(alloc, &SQUARE)?;
    let neighbour = shape_of(alloc, &NEIGHBOUR)?;
    let mut are_right = true;
    for adder in 0..4_u8 {
        let mut overlay = PredicateOverlay::new(alloc, 0)?;
        add(&mut overlay, adder, &square, ShapeType::Subject)?;
        add(&mut overlay, adder, &neighbour, ShapeType::Clip)?;
        are_right = are_right && is_touching(&mut overlay)?;
    }
    let mut overlay = PredicateOverlay::new(alloc, 0)?;
    add_one_by_one(&mut overlay, &SQUARE, ShapeType::Subject)?;
    add_one_by_one(&mut overlay, &NEIGHBOUR, ShapeType::Clip)?;
    Ok(are_right && is_touching(&mut overlay)?)
}

fn are_replaced(alloc: Global) -> Result<bool, Fault> {
    let square = shape_of(alloc, &SQUARE)?;
    let neighbour = shape_of(alloc, &NEIGHBOUR)?;
    let mut overlay = made_of(alloc, false, &square, &square)?;
    let is_other = !is_touching(&mut overlay)?;
    replace(&mut overlay, &square, &neighbour)?;
    Ok(is_other && is_touching(&mut overlay)?)
}

#[test]
fn makes_builders_of_sources(rt: HostRuntime) {
    assert!(rt; are_made(rt.alloc()) == Ok(true));
}

#[test]
fn adds_sources(rt: HostRuntime) {
    assert!(rt; are_added(rt.alloc()) == Ok(true));
}

#[test]
fn takes_sources_in_anew(rt: HostRuntime) {
    assert!(rt; are_replaced(rt.alloc()) == Ok(true));
}
