//! Answers rows of words about shapes.
//!
//! Each line of the input is a row that `shape_rows` reads. Those that can't be read or are not answered as they say are written, and in
//! the end how many are, and how many of them by coordinates of `i16` too. A row behind `wrong` is one that must be written: at least one
//! of each kind stands there. What the others say is an independent program's, or follows from that by a law.
#![tactic(auto)]

use shape_rows::{Answer, answer_to};
use std::io::{self, BufRead, BufReader};

fn main(rt: HostRuntime) -> io::Result<()> {
    let alloc = rt.alloc();
    let mut far = 0_u64;
    let mut wide = 0_u64;
    let mut both = 0_u64;
    for line in BufReader::new(alloc, rt.reader())?.lines(alloc) {
        let line = line?;
        let row = line.strip_prefix("wrong ").unwrap_or(&line);
        match answer_to(alloc, row) {
            Answer::Unread => println!(rt; "not read: {line}")?,
            Answer::Otherwise => println!(rt; "not as it says: {line}")?,
            Answer::Far => far = far.wrapping_add(1),
            Answer::Wide => wide = wide.wrapping_add(1),
            Answer::Both => both = both.wrapping_add(1),
        }
    }
    let answered = far.wrapping_add(wide).wrapping_add(both);
    println!(rt;
        "{answered} rows are answered as they say, {both} of them by coordinates of i16 too"
    )
}
