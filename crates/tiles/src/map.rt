//! Maps as they are read.
//!
//! A line `tiles LEFT BOTTOM SIZE COLUMNS ROWS` gives the grid of tiles. Lines `land X Y ..` give contours: what lies inside an
//! odd number of them is land, so that a lake is a contour within a coast, and an island in the lake one more. Lines `route X Y
//! ..` give open paths. A line that begins with `#` is passed over.

use crate::error::TileError;
use crate::grid::Grid;
use polygon_overlay::plane::path::IntPath;
use polygon_overlay::plane::point::IntPoint;
use std::alloc::Global;
use std::str::SplitAsciiWhitespace;

/// A map: its grid of tiles, the contours of its land, and its routes.
#[derive(Drop)]
pub(crate) struct Map {
    pub(crate) grid: Grid,
    pub(crate) land: Vec<IntPath<i32>>,
    pub(crate) routes: Vec<IntPath<i32>>,
}

impl Map {
    /// A map of nothing.
    pub(crate) fn new(alloc: Global) -> Map {
        Map {
            grid: Grid::new(),
            land: Vec::new(alloc),
            routes: Vec::new(alloc),
        }
    }

    /// Takes a line.
    pub(crate) fn take_line(&mut self, alloc: Global, line: &str) -> Result<(), TileError> {
        let mut words = line.split_ascii_whitespace();
        match words.next() {
            Some("tiles") => self.grid = grid_from(&mut words)?,
            Some("land") => self.land.push(path_from(alloc, words)?)?,
            Some("route") => self.routes.push(path_from(alloc, words)?)?,
            Some(word) if !word.starts_with("#") => return Err(TileError::Line),
            _ => {}
        }
        Ok(())
    }
}

fn number_from(words: &mut SplitAsciiWhitespace<'_>) -> Result<i32, TileError> {
    match words.next() {
        Some(word) => match word.parse::<i32>() {
            Ok(number) => Ok(number),
            Err(_) => Err(TileError::Line),
        },
        None => Err(TileError::Line),
    }
}

fn count_from(words: &mut SplitAsciiWhitespace<'_>) -> Result<u8, TileError> {
    match u8::try_from(number_from(words)?) {
        Ok(count) => Ok(count),
        Err(_) => Err(TileError::Line),
    }
}

fn grid_from(words: &mut SplitAsciiWhitespace<'_>) -> Result<Grid, TileError> {
    Ok(Grid {
        left: number_from(words)?,
        bottom: number_from(words)?,
        size: number_from(words)?,
        columns: count_from(words)?,
        rows: count_from(words)?,
    })
}

// The path of these coordinates.
fn path_from(alloc: Global, words: SplitAsciiWhitespace<'_>) -> Result<IntPath<i32>, TileError> {
    let mut points = Vec::new(alloc);
    let mut before = None;
    for word in words {
        let Ok(number) = word.parse::<i32>() else {
            return Err(TileError::Line);
        };
        match before {
            Some(x) => {
                points.push(IntPoint::new(x, number))?;
                before = None;
            }
            None => before = Some(number),
        }
    }
    Ok(IntPath { points })
}
