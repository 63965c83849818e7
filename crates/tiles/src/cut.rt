//! What a map is cut to.

ghost use Rattle.std.specs.Prelude.{All, IfOk};
ghost use Rattle.polygon_overlay.specs.GivenViews.{contours_of};
ghost use Rattle.polygon_overlay.specs.Plane.{IsWithin};

use crate::error::TileError;
use crate::map::Map;
use polygon_overlay::arrangement::clip_rule::ClipRule;
use polygon_overlay::arrangement::fill_rule::FillRule;
use polygon_overlay::plane::int::OverlayInt;
use polygon_overlay::plane::path::{IntPath, IntShape, IntShapes};
use polygon_overlay::plane::point::IntPoint;
use polygon_overlay::plane::range::all_in_range;
use polygon_overlay::string::clip::IntClip;
use polygon_overlay::string::extract::extract_shapes;
use polygon_overlay::string::overlay::StringOverlay;
use polygon_overlay::string::rule::StringRule;
use std::alloc::Global;

/// What lies on land, the coasts too.
pub(crate) const ON_LAND: ClipRule = ClipRule {
    invert: false,
    boundary_included: true,
};

/// What lies over water.
pub(crate) const OVER_WATER: ClipRule = ClipRule {
    invert: true,
    boundary_included: true,
};

// A builder that holds the map's land.
fn overlay_of_land(alloc: Global, map: &Map) -> Result<StringOverlay<i32>, TileError> {
    let mut overlay = StringOverlay::new(alloc, 0)?;
    for contour in &map.land {
        if !all_in_range(&contour.points) {
            return Err(TileError::Range);
        }
        overlay.add_shape_contour(&contour.points)?;
    }
    Ok(overlay)
}

/// The pieces into which the tiles' borders slice the land. None goes beyond a tile, but those outside of all tiles.
pub(crate) fn pieces_of_land(alloc: Global, map: &Map) -> Result<IntShapes<i32>, TileError> {
    let mut overlay = overlay_of_land(alloc, map)?;
    for line in map.grid.lines(alloc)? {
        if !all_in_range(&line) {
            return Err(TileError::Range);
        }
        overlay.add_string_line(line)?;
    }
    let view = overlay.build_graph_view(FillRule::EvenOdd)?;
    match view {
        None => Ok(IntShapes {
            shapes: Vec::new(alloc),
        }),
        Some(graph) => Ok(extract_shapes(alloc, &graph, StringRule::Slice)?),
    }
}

/// The stretches of the map's routes that a rule keeps.
pub(crate) fn stretches(
    alloc: Global,
    map: &Map,
    rule: ClipRule,
) -> Result<Vec<IntPath<i32>>, TileError>
    ensures { IfOk result (λ paths. All (All (IsWithin ⟦<i32 as OverlayInt>⟧.least ⟦<i32 as OverlayInt>⟧.greatest))
        (contours_of ⟦<i32 as OverlayInt>⟧.value paths.items)) }
{
    let mut overlay = overlay_of_land(alloc, map)?;
    for route in &map.routes {
        if !all_in_range(&route.points) {
            return Err(TileError::Range);
        }
        overlay.add_string_path(&route.points)?;
    }
    Ok(overlay.clip_string_lines(FillRule::EvenOdd, rule)?)
}

/// What of paths lies in a tile, its border too.
pub(crate) fn paths_within(
    alloc: Global,
    tile: &IntPath<i32>,
    paths: &[IntPath<i32>],
) -> Result<Vec<IntPath<i32>>, TileError>
    requires { All (All (IsWithin ⟦<i32 as OverlayInt>⟧.least ⟦<i32 as OverlayInt>⟧.greatest))
        (contours_of ⟦<i32 as OverlayInt>⟧.value paths.now) }
{
    if !all_in_range(&tile.points) {
        return Err(TileError::Range);
    }
    Ok(tile.clip_paths(alloc, paths, FillRule::NonZero, ON_LAND)?)
}

/// Whether a piece lies in a tile, which is told by its corners.
pub(crate) fn is_within(piece: &IntShape<i32>, tile: &IntPath<i32>) -> bool {
    match (tile.points.as_slice(), piece.contours.as_slice()) {
        ([least, _, greatest, _], [outline, ..]) => {
            are_between(&outline.points, *least, *greatest)
        }
        _ => false,
    }
}

fn are_between(points: &[IntPoint<i32>], least: IntPoint<i32>, greatest: IntPoint<i32>) -> bool {
    for point in points {
        if point.x < least.x || greatest.x < point.x || point.y < least.y || greatest.y < point.y {
            return false;
        }
    }
    true
}
