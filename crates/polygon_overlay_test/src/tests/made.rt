//! Builders made of sources, by each call that makes one or adds to it: all hold the same two squares, or the first of them alone.

use super::{OTHER, SQUARE, is_contour};
use contour_walk::contour_direction::ContourDirection;
use contour_walk::options::IntOverlayOptions;
use plane_base::fault::Fault;
use plane_base::flat::FlatContoursBuffer;
use plane_base::path::{IntPath, IntShape};
use plane_base::point::IntPoint;
use plane_base::range::{all_in_range, source_in_range};
use polygon_overlay::overlay::Overlay;
use segment_arrangement::fill_rule::FillRule::NonZero;
use segment_arrangement::overlay_rule::OverlayRule::{Intersect, Subject};
use segment_split::count::ShapeType;
use segment_split::solver::Solver;
use std::alloc::Global;

// What the squares have in common.
pub(super) const COMMON: [IntPoint<i32>; 4] = [
    IntPoint { x: 5, y: 10 },
    IntPoint { x: 5, y: 5 },
    IntPoint { x: 10, y: 5 },
    IntPoint { x: 10, y: 10 },
];

// The first square, as it is answered.
const WHOLE: [IntPoint<i32>; 4] = [
    IntPoint { x: 0, y: 10 },
    IntPoint { x: 0, y: 0 },
    IntPoint { x: 10, y: 0 },
    IntPoint { x: 10, y: 10 },
];

const OPTIONS: IntOverlayOptions = IntOverlayOptions {
    preserve_input_collinear: true,
    output_direction: ContourDirection::CounterClockwise,
    preserve_output_collinear: true,
    min_output_area: 0,
    ogc: false,
};

// A shape of one contour.
pub(super) fn shape_of(alloc: Global, points: &[IntPoint<i32>]) -> Result<IntShape<i32>, Fault> {
    let contour = IntPath {
        points: Vec::from_slice(alloc, points)?,
    };
    Ok(IntShape {
        contours: Vec::from_array(alloc, [contour])?,
    })
}

// A builder of both shapes, by the constructor of this number.
fn made_of_both(
    alloc: Global,
    constructor: u8,
    subj: &IntShape<i32>,
    clip: &IntShape<i32>,
) -> Result<Overlay<i32>, Fault> {
    if !source_in_range(subj) {
        return Err(Fault::Failed);
    }
    if !source_in_range(clip) {
        return Err(Fault::Failed);
    }
    match constructor {
        0 => Overlay::from_subj_and_clip(alloc, subj, clip),
        1 => Overlay::from_subj_and_clip_custom(alloc, subj, clip, OPTIONS, Solver::TREE),
        2 => Overlay::with_contour(alloc, subj, clip),
        3 => Overlay::with_contours(alloc, subj, clip),
        4 => Overlay::with_shapes(alloc, subj, clip),
        5 => Overlay::with_contour_custom(alloc, subj, clip, OPTIONS, Solver::LIST),
        6 => Overlay::with_contours_custom(alloc, subj, clip, OPTIONS, Solver::FRAG),
        _ => Overlay::with_shapes_options(alloc, subj, clip, OPTIONS, Solver::AUTO),
    }
}

// A builder of one shape.
fn made_of_one(
    alloc: Global,
    is_custom: bool,
    subj: &IntShape<i32>,
) -> Result<Overlay<i32>, Fault> {
    if !source_in_range(subj) {
        return Err(Fault::Failed);
    }
    if is_custom {
        Overlay::from_subj_custom(alloc, subj, OPTIONS, Solver::LIST)
    } else {
        Overlay::from_subj(alloc, subj)
    }
}

// Adds a shape, by the adder of this number.
fn add(
    overlay: &mut Overlay<i32>,
    adder: u8,
    shape: &IntShape<i32>,
    shape_type: ShapeType,
) -> Result<(), Fault> {
    if !source_in_range(shape) {
        return Err(Fault::Failed);
    }
    match adder {
        0 => overlay.add_source(shape, shape_type),
        1 => overlay.add_contours(shape, shape_type),
        2 => overlay.add_shape(shape, shape_type),
        _ => overlay.add_shapes(shape, shape_type),
    }
}

// Adds contours that are laid flat.
fn add_flat(
    overlay: &mut Overlay<i32>,
    buffer: &FlatContoursBuffer<i32>,
    shape_type: ShapeType,
) -> Result<(), Fault> {
    if !buffer.is_well_formed() {
        return Err(Fault::Failed);
    }
    if !source_in_range(buffer) {
        return Err(Fault::Failed);
    }
    overlay.add_flat_buffer(buffer, shape_type)
}

// Adds a contour whose points come one by one.
fn add_one_by_one(
    overlay: &mut Overlay<i32>,
    points: &[IntPoint<i32>],
    shape_type: ShapeType,
) -> Result<(), Fault> {
    if !all_in_range(points) {
        return Err(Fault::Failed);
    }
    overlay.add_path_iter(points.iter().copied(), shape_type)
}

// Takes all out, and the shapes in.
fn replace(
    overlay: &mut Overlay<i32>,
    subj: &IntShape<i32>,
    clip: &IntShape<i32>,
) -> Result<(), Fault> {
    if !source_in_range(subj) {
        return Err(Fault::Failed);
    }
    if !source_in_range(clip) {
        return Err(Fault::Failed);
    }
    overlay.reinit_with_subj_and_clip(subj, clip)
}

// Takes all out, and the subject in.
fn replace_by_one(overlay: &mut Overlay<i32>, subj: &IntShape<i32>) -> Result<(), Fault> {
    if !source_in_range(subj) {
        return Err(Fault::Failed);
    }
    overlay.reinit_with_subj(subj)
}

// Whether what is common to subject and clip is what the squares have in common.
fn has_common(overlay: &mut Overlay<i32>) -> Result<bool, Fault> {
    let shapes = overlay.overlay(Intersect, NonZero)?;
    Ok(is_contour(&shapes, &COMMON))
}

// Whether the subject is the first square, and there is no clip.
fn has_whole(overlay: &mut Overlay<i32>) -> Result<bool, Fault> {
    let shapes = overlay.overlay(Subject, NonZero)?;
    let common = overlay.overlay(Intersect, NonZero)?;
    Ok(is_contour(&shapes, &WHOLE) && common.shapes.is_empty())
}

fn are_made(alloc: Global) -> Result<bool, Fault> {
    let first = shape_of(alloc, &SQUARE)?;
    let second = shape_of(alloc, &OTHER)?;
    let mut are_right = true;
    for constructor in 0..8_u8 {
        let mut overlay = made_of_both(alloc, constructor, &first, &second)?;
        are_right = are_right && has_common(&mut overlay)?;
    }
    for is_custom in [false, true] {
        let mut overlay = made_of_one(alloc, is_custom, &first)?;
        are_right = are_right && has_whole(&mut overlay)?;
    }
    Ok(are_right)
}

fn are_added(alloc: Global) -> Result<bool, Fault> {
    let first = shape_of(alloc, &SQUARE)?;
    let second = shape_of(alloc, &OTHER)?;
    let mut are_right = true;
    for adder in 0..4_u8 {
        let mut overlay = Overlay::new(alloc, 0)?;
        add(&mut overlay, adder, &first, ShapeType::Subject)?;
        add(&mut overlay, adder, &second, ShapeType::Clip)?;
        are_right = are_right && has_common(&mut overlay)?;
    }
    let mut flat = FlatContoursBuffer::new(alloc);
    flat.add_contour(&OTHER)?;
    let mut overlay = Overlay::new(alloc, 0)?;
    add(&mut overlay, 0, &first, ShapeType::Subject)?;
    add_flat(&mut overlay, &flat, ShapeType::Clip)?;
    are_right = are_right && has_common(&mut overlay)?;
    overlay.clear();
    add_one_by_one(&mut overlay, &SQUARE, ShapeType::Subject)?;
    add_one_by_one(&mut overlay, &OTHER, ShapeType::Clip)?;
    Ok(are_right && has_common(&mut overlay)?)
}

fn are_replaced(alloc: Global) -> Result<bool, Fault> {
    let first = shape_of(alloc, &SQUARE)?;
    let second = shape_of(alloc, &OTHER)?;
    let mut overlay = made_of_both(alloc, 0, &second, &second)?;
    replace(&mut overlay, &first, &second)?;
    let has_both = has_common(&mut overlay)?;
    replace_by_one(&mut overlay, &first)?;
    Ok(has_both && has_whole(&mut overlay)?)
}

#[test]
fn makes_builders_of_sources(rt: HostRuntime) {
    assert!(rt; are_made(rt.alloc()) == Ok(true));
}

#[test]
fn adds_sources(rt: HostRuntime) {
    assert!(rt; are_added(rt.alloc()) == Ok(true));
}

#[test]
fn takes_sources_in_anew(rt: HostRuntime) {
    assert!(rt; are_replaced(rt.alloc()) == Ok(true));
}
