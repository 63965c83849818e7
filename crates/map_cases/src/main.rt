//! Splits maps by each strategy, and finds what lies on both sides of each edge that is left.
//!
//! A line `map NAME PRECISION` begins a map, lines `subject X Y ..` and `clip X Y ..` give its contours, and a line `split` asks
//! for the answer: a line with the map's name and whether splitting changed its edges, then a line for each edge that is left, with
//! its ends, its counts, and its fills by even-odd, nonzero, positive and negative. All strategies have to answer alike. Anything
//! else ends the program with a message.
#![tactic(auto)]

mod answer;
mod error;
mod map;

use error::CaseError;
use map::Map;
use std::io::{BufRead, BufReader, Input};
use std::process::ExitCode;

fn main(rt: HostRuntime) -> ExitCode {
    match run(&rt) {
        Ok(()) => ExitCode::SUCCESS,
        Err(error) => {
            let _ = eprintln!(rt; "{error}");
            ExitCode::FAILURE
        }
    }
}

fn run(rt: &(impl Input + Print + AllocGlobal)) -> Result<(), CaseError> {
    let alloc = rt.alloc();
    let mut map = Map::new(alloc);
    for line in BufReader::new(alloc, rt.reader())?.lines(alloc) {
        let line = line?;
        if line.as_str() == "split" {
            let text = answer::answer_by_all(alloc, &map)?;
            print!(rt; "{text}")?;
        } else {
            map.take_line(alloc, &line)?;
        }
    }
    Ok(())
}
