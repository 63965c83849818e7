//! Grids of square tiles.

use crate::error::TileError;
use polygon_overlay::plane::path::IntPath;
use polygon_overlay::plane::point::IntPoint;
use polygon_overlay::string::line::IntLine;
use std::alloc::Global;

/// Columns and rows of square tiles, from the lower left corner of the first.
#[derive(Clone, Copy, Debug, PartialEq, Eq)]
pub(crate) struct Grid {
    pub(crate) left: i32,
    pub(crate) bottom: i32,
    pub(crate) size: i32,
    pub(crate) columns: u8,
    pub(crate) rows: u8,
}

impl Grid {
    /// A grid without tiles.
    pub(crate) fn new() -> Grid {
        Grid {
            left: 0,
            bottom: 0,
            size: 0,
            columns: 0,
            rows: 0,
        }
    }

    // The left border of a column. Where that is no coordinate it is the farthest one, which no map may have.
    fn x(&self, column: u16) -> i32 {
        place(self.left, self.size, column)
    }

    // The lower border of a row, likewise.
    fn y(&self, row: u16) -> i32 {
        place(self.bottom, self.size, row)
    }

    /// The lines along which tiles meet, and those round all of them.
    pub(crate) fn lines(&self, alloc: Global) -> Result<Vec<IntLine<i32>>, TileError> {
        let columns = u16::from(self.columns);
        let rows = u16::from(self.rows);
        let mut lines = Vec::new(alloc);
        for column in 0..columns + 1 {
            let x = self.x(column);
            lines.push([IntPoint::new(x, self.y(0)), IntPoint::new(x, self.y(rows))])?;
        }
        for row in 0..rows + 1 {
            let y = self.y(row);
            lines.push([
                IntPoint::new(self.x(0), y),
                IntPoint::new(self.x(columns), y),
            ])?;
        }
        Ok(lines)
    }

    /// The square of a tile, counterclockwise from its lower left corner.
    pub(crate) fn tile(
        &self,
        alloc: Global,
        column: u8,
        row: u8,
    ) -> Result<IntPath<i32>, TileError> {
        let (column, row) = (u16::from(column), u16::from(row));
        let (left, right) = (self.x(column), self.x(column + 1));
        let (bottom, top) = (self.y(row), self.y(row + 1));
        let corners = [
            IntPoint::new(left, bottom),
            IntPoint::new(right, bottom),
            IntPoint::new(right, top),
            IntPoint::new(left, top),
        ];
        Ok(IntPath {
            points: Vec::from_slice(alloc, &corners)?,
        })
    }
}

// So many sizes from the origin.
fn place(origin: i32, size: i32, count: u16) -> i32 {
    let far = i64::from(origin) + i64::from(size) * i64::from(count);
    i32::try_from(far).unwrap_or(i32::MAX)
}
