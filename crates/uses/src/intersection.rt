//! What two contours have in common, as text.

use polygon_overlay::arrangement::fill_rule::FillRule;
use polygon_overlay::arrangement::overlay_rule::OverlayRule;
use polygon_overlay::overlay::Overlay;
use polygon_overlay::plane::fault::Fault;
use polygon_overlay::plane::point::IntPoint;
use polygon_overlay::plane::range::all_in_range;
use polygon_overlay::split::count::ShapeType;
use std::alloc::Global;

/// The text of the shapes that two contours have in common, or none where a point is out of range.
pub fn intersection_text(
    alloc: Global,
    one: &[IntPoint<i32>],
    other: &[IntPoint<i32>],
) -> Result<Option<String>, Fault> {
    if !all_in_range(one) {
        return Ok(None);
    }
    if !all_in_range(other) {
        return Ok(None);
    }
    let mut overlay = Overlay::new(alloc, 0)?;
    overlay.add_contour(one, ShapeType::Subject)?;
    overlay.add_contour(other, ShapeType::Clip)?;
    let shapes = overlay.overlay(OverlayRule::Intersect, FillRule::NonZero)?;
    Ok(Some(format!(in alloc; "{shapes:?}")?))
}
