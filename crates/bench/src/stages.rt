//! Splits drawn triangles, checkerboards and two triangles that take hundreds of passes, sweeps over checkerboards and nested squares,
//! and extracts shapes. A line for each says what came of it; the time that it took goes to standard error.

mod extraction;
mod splitting;
mod sweeping;

use crate::contours::{
    checkerboard, nested_squares, slow_triangles, squares_with_holes, star, triangles,
};
use extraction::time_extraction;
use segment_split::solver::Precision;
use splitting::time_splitting;
use std::io;
use std::rt::Clock;
use sweeping::time_sweep;

/// Splits, sweeps and extracts.
pub(crate) fn measure(rt: &(impl Print + Eprint + Clock + AllocGlobal)) -> io::Result<()> {
    let alloc = rt.alloc();
    time_splitting(rt, "triangles", triangles(alloc, 333), Precision::HIGH)?;
    time_splitting(rt, "triangles", triangles(alloc, 3_333), Precision::HIGH)?;
    time_splitting(
        rt,
        "checkerboard",
        checkerboard(alloc, 5, 25),
        Precision::HIGH,
    )?;
    time_splitting(
        rt,
        "checkerboard",
        checkerboard(alloc, 25, 50),
        Precision::HIGH,
    )?;
    time_splitting(
        rt,
        "slow triangles",
        slow_triangles(alloc),
        Precision::ABSOLUTE,
    )?;
    time_sweep(rt, "checkerboard", checkerboard(alloc, 5, 25))?;
    time_sweep(rt, "checkerboard", checkerboard(alloc, 25, 50))?;
    time_sweep(rt, "nested squares", nested_squares(alloc, 250))?;
    time_sweep(rt, "nested squares", nested_squares(alloc, 2_500))?;
    time_extraction(rt, "checkerboard", checkerboard(alloc, 5, 9))?;
    time_extraction(rt, "checkerboard", checkerboard(alloc, 20, 21))?;
    time_extraction(rt, "nested squares", nested_squares(alloc, 250))?;
    time_extraction(rt, "nested squares", nested_squares(alloc, 2_500))?;
    time_extraction(rt, "squares with holes", squares_with_holes(alloc, 20, 25))?;
    time_extraction(rt, "squares with holes", squares_with_holes(alloc, 50, 100))?;
    time_extraction(rt, "a star", star(alloc, 75))?;
    time_extraction(rt, "a star", star(alloc, 750))
}
