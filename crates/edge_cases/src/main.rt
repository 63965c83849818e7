//! Answers rows of words about edges with colours, and about contours whose overlays are answered as edges.
//!
//! Each line of the input is a row that `edge_rows` reads. Those that are not answered as they say are written, and those that ask nothing, and in
//! the end how many are answered. An independent program gave what the rows say. The first ones are wrong, one for each kind of row and for each
//! part of it, and show that a wrong row is told.
#![tactic(auto)]

use edge_rows::{Outcome, outcome_of};
use std::io::{self, BufRead, BufReader};

fn main(rt: HostRuntime) -> io::Result<()> {
    let alloc = rt.alloc();
    let mut answered = 0_u64;
    let mut at_all_widths = 0_u64;
    for line in BufReader::new(alloc, rt.reader())?.lines(alloc) {
        let line = line?;
        match outcome_of(alloc, &line) {
            Outcome::AtAllWidths => {
                answered = answered.wrapping_add(1);
                at_all_widths = at_all_widths.wrapping_add(1);
            }
            Outcome::AtSomeWidths => answered = answered.wrapping_add(1),
            Outcome::Otherwise => println!(rt; "not as it says: {line}")?,
            Outcome::NotAsked => println!(rt; "asks nothing: {line}")?,
        }
    }
    println!(rt;
        "{answered} rows are answered as they say, {at_all_widths} of them with coordinates of 16 bits too"
    )
}
