//! Clips lines by a shape, or slices the shape along them, and tells how much came of it; the time that it took goes to standard
//! error.
//!
//! Lines `body X Y ..` give the contours of the shape, lines `line X Y X Y` the lines. A line `clip` clips them by NonZero,
//! without the boundary, and answers how many paths and points there are, and how long their steps are together, in x and y. A
//! line `slice` answers how many pieces, contours and points there are, and twice their area. What is out of range is left out.

mod script;
mod work;

pub(crate) use script::Script;
use std::io;
use std::rt::Clock;
use std::time::Instant;
use work::{clip, slice};

/// Takes a line of the script, or does what it asks.
pub(crate) fn answer(
    rt: &(impl Print + Eprint + Clock + AllocGlobal),
    script: &mut Script,
    line: &str,
) -> io::Result<()> {
    if line == "clip" || line == "slice" {
        return tell(rt, script, line);
    }
    match script.take_line(rt.alloc(), line) {
        Ok(()) => Ok(()),
        Err(_) => println!(rt; "no memory"),
    }
}

// Does what a line says, and tells what came of it and how long it took.
fn tell(
    rt: &(impl Print + Eprint + Clock + AllocGlobal),
    script: &Script,
    word: &str,
) -> io::Result<()> {
    let start = Instant::now(rt)?;
    let told = if word == "clip" {
        clip(rt.alloc(), script)
    } else {
        slice(rt.alloc(), script)
    };
    let microseconds = start.elapsed(rt)?.as_nanos() / 1_000;
    eprintln!(rt; "{word}: {microseconds} us")?;
    match told {
        Ok(text) => println!(rt; "{text}"),
        Err(fault) => println!(rt; "{word}: {fault}"),
    }
}
