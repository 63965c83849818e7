//! Measures parts of the engine. The first word of a line of the input says which: `thinning`, `crossing`, `trees` and `stages` have the module of
//! that name measure what it builds; other lines are those of `strings`, `locations` and `edges`, which say what they mean.
//!
//! What comes of a line goes to standard output, and is the same from run to run; times go to standard error. A line costs what it asks for, and
//! what lines give stays until the end.
#![tactic(auto)]

mod contours;
mod crossing;
mod edges;
mod locations;
mod stages;
mod strings;
mod thinning;
mod trees;

use locations::Located;
use row_words::Words;
use std::io::{self, BufRead, BufReader, Input};
use strings::Script;

fn main(rt: HostRuntime) -> io::Result<()> {
    let alloc = rt.alloc();
    let mut script = Script::new(alloc);
    let mut located = Located::new(alloc);
    for line in BufReader::new(alloc, rt.reader())?.lines(alloc) {
        let line = line?;
        let mut words = Words::of(alloc, &line);
        match words.next() {
            "thinning" => thinning::measure(&rt)?,
            "crossing" => crossing::measure(&rt)?,
            "trees" => trees::measure(&rt)?,
            "stages" => stages::measure(&rt)?,
            "body" | "line" | "clip" | "slice" => strings::answer(&rt, &mut script, &line)?,
            "contours" | "edges" | "balance" | "overlay" | "vectors" | "shapes" => {
                edges::answer(&rt, &line)?
            }
            first @ ("shape" | "contour" | "point" | "ask" | "intersects" | "in_range") => {
                locations::answer(&rt, &mut located, first, &mut words)?
            }
            other => println!(rt; "nothing is measured by {other}")?,
        }
    }
    Ok(())
}
