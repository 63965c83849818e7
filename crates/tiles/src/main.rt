//! Cuts a map into tiles: land is sliced along the tiles' borders, and roads and ferry lines are clipped by land and by tiles.
//!
//! The input is a map as `map` reads it. For each tile, column by column in each row, a line `tile COLUMN ROW` is written, and
//! behind it the contours and paths that lie in it, each a line of coordinates `X Y ..`: `land`, the outline of a piece of land,
//! with a `lake` for each of its holes behind it; `road`, a stretch of a route on land or along a coast, and `ferry`, one over
//! water. A stretch along a border of tiles is written with each of them. Anything that is no map ends the program with a
//! message.
#![tactic(auto)]

mod cut;
mod error;
mod grid;
mod map;
mod text;

use error::TileError;
use map::Map;
use std::io::{BufRead, BufReader, Input};
use std::process::ExitCode;

fn main(rt: HostRuntime) -> ExitCode {
    match run(&rt) {
        Ok(()) => ExitCode::SUCCESS,
        Err(error) => {
            let _ = eprintln!(rt; "{error}");
            ExitCode::FAILURE
        }
    }
}

fn run(rt: &(impl Input + Print + AllocGlobal)) -> Result<(), TileError> {
    let alloc = rt.alloc();
    let mut map = Map::new(alloc);
    for line in BufReader::new(alloc, rt.reader())?.lines(alloc) {
        map.take_line(alloc, &line?)?;
    }
    let text = text::tiles_of(alloc, &map)?;
    print!(rt; "{text}")?;
    Ok(())
}
