//! A map of horizontal and vertical edges, tile by tile.

use polygon_overlay::arrangement::fill_rule::FillRule;
use polygon_overlay::arrangement::overlay_rule::OverlayRule;
use polygon_overlay::overlay::Overlay;
use polygon_overlay::plane::fault::Fault;
use polygon_overlay::plane::path::IntShapes;
use polygon_overlay::plane::point::IntPoint;
use polygon_overlay::plane::range::{all_in_range, source_in_range};
use polygon_overlay::split::count::ShapeType;
use polygon_overlay::tile::IntTile;
use std::alloc::Global;

/// What two contours have in common in a tile; `None` where the tile reaches out of range.
pub fn common_in(
    alloc: Global,
    tile: &IntTile<i32>,
    one: &[IntPoint<i32>],
    other: &[IntPoint<i32>],
) -> Result<Option<IntShapes<i32>>, Fault> {
    let subject = tile.clamped(alloc, one)?;
    let clip = tile.clamped(alloc, other)?;
    if !all_in_range(&subject.points) {
        return Ok(None);
    }
    if !all_in_range(&clip.points) {
        return Ok(None);
    }
    let mut overlay = Overlay::new(alloc, 0)?;
    overlay.add_contour(&subject.points, ShapeType::Subject)?;
    overlay.add_contour(&clip.points, ShapeType::Clip)?;
    let common = overlay.overlay(OverlayRule::Intersect, FillRule::NonZero)?;
    Ok(Some(common))
}

/// What two tiles side by side answer, as one; `None` where either is out of range.
pub fn united(
    alloc: Global,
    left: &IntShapes<i32>,
    right: &IntShapes<i32>,
) -> Result<Option<IntShapes<i32>>, Fault> {
    if !source_in_range(left) {
        return Ok(None);
    }
    if !source_in_range(right) {
        return Ok(None);
    }
    let mut overlay = Overlay::new(alloc, 0)?;
    overlay.add_shapes(left, ShapeType::Subject)?;
    overlay.add_shapes(right, ShapeType::Subject)?;
    let both = overlay.overlay(OverlayRule::Subject, FillRule::NonZero)?;
    Ok(Some(both))
}
