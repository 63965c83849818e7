//! The text of all tiles.

use crate::cut::{ON_LAND, OVER_WATER, is_within, paths_within, pieces_of_land, stretches};
use crate::error::TileError;
use crate::map::Map;
use polygon_overlay::plane::path::{IntPath, IntShape};
use polygon_overlay::plane::point::IntPoint;
use std::alloc::{AllocError, Global};
use std::fmt::Write;

/// For each tile a line, and behind it the lines of what lies in it.
pub(crate) fn tiles_of(alloc: Global, map: &Map) -> Result<String, TileError> {
    let pieces = pieces_of_land(alloc, map)?;
    let roads = stretches(alloc, map, ON_LAND)?;
    let ferries = stretches(alloc, map, OVER_WATER)?;
    let mut text = String::new(alloc);
    for row in 0..map.grid.rows {
        for column in 0..map.grid.columns {
            let tile = map.grid.tile(alloc, column, row)?;
            writeln!(text, "tile {column} {row}")?;
            write_land(&mut text, &pieces.shapes, &tile)?;
            write_paths(&mut text, "road", &paths_within(alloc, &tile, &roads)?)?;
            write_paths(&mut text, "ferry", &paths_within(alloc, &tile, &ferries)?)?;
        }
    }
    Ok(text)
}

// The pieces of land in a tile.
fn write_land(
    text: &mut String,
    pieces: &[IntShape<i32>],
    tile: &IntPath<i32>,
) -> Result<(), AllocError> {
    for piece in pieces {
        if is_within(piece, tile) {
            write_piece(text, &piece.contours)?;
        }
    }
    Ok(())
}

// An outline, and its holes.
fn write_piece(text: &mut String, contours: &[IntPath<i32>]) -> Result<(), AllocError> {
    match contours {
        [outline, lakes @ ..] => {
            write_points(text, "land", &outline.points)?;
            write_paths(text, "lake", lakes)
        }
        _ => Ok(()),
    }
}

fn write_paths(text: &mut String, word: &str, paths: &[IntPath<i32>]) -> Result<(), AllocError> {
    for path in paths {
        write_points(text, word, &path.points)?;
    }
    Ok(())
}

fn write_points(text: &mut String, word: &str, points: &[IntPoint<i32>]) -> Result<(), AllocError> {
    write!(text, "{word}")?;
    for point in points {
        write!(text, " {} {}", point.x, point.y)?;
    }
    writeln!(text)
}
