//! Reads request lines from standard input, or from a file, and answers each on standard output.
//!
//! The program itself only connects streams to `run::run` and `run::run_wide`, which are generic over
//! their reader and their writer. Below it stand, each in a module of its own, the line that is being read,
//! the parts of a request line, what is kept, the answer to an overlay, and the replies.
#![tactic(auto)]

mod answer;
mod area;
mod call;
mod digits;
mod kept;
mod line;
mod locate;
mod numeral;
mod piece;
mod place;
mod points;
mod refusal;
mod relate;
mod relations;
mod reply;
mod request;
mod run;
mod send;
mod session;
mod shapes;
#[cfg(test)]
mod tests;
mod text;
mod words;

use call::{Arguments, Call};
use run::RunFault;
use std::alloc::Global;
use std::env::{Env, FillError};
use std::fs::File;
use std::io::{Read, Write};
use std::process::ExitCode;

const HELP: &str = "\
usage: polybool [--wide] [FILE]
       polybool --help | --version

Reads requests, one on each line, from FILE, or from standard input where none is given or it is -,
and writes the reply to each on standard output. Coordinates are whole, from -524288 to 524287, or with
--wide from -68719476736 to 68719476735.

  subject X Y X Y ..     keeps one more contour of the subject, and clip X Y .. one of the clip
  overlay RULE FILL STRATEGY DIRECTION KEEP
                         overlays what is kept
      RULE               subject clip intersect union difference inverse xor
      FILL               evenodd nonzero positive negative atleast:N
      STRATEGY           list tree frag auto
      DIRECTION KEEP     ccw cw; corners points
  relate FILL STRATEGY   tells how subject and clip are related
  locate X Y             tells where a point lies in the last answer
  area                   tells twice the signed area of the last answer
  reset                  lets contours and answer go
";

const VERSION: &str = "polybool 1.0.0\n";

// The arguments that the system gives. No contract of std tells them.
impl Arguments for HostRuntime {
    fn argument(&self, number: usize, bytes: &mut [u8]) -> Result<usize, FillError> {
        self.arg(number, bytes)
    }
}

fn main(rt: HostRuntime) -> ExitCode {
    let (mut first, mut second) = ([0; call::LONGEST], [0; call::LONGEST]);
    let (is_wide, call) = call::read(&rt, &mut first, &mut second);
    let answered = match call {
        Call::Input => run_by(is_wide, rt.alloc(), &mut rt.stdin(), &mut rt.stdout()),
        Call::File(path) => match File::open(&rt, path) {
            Ok(mut file) => run_by(is_wide, rt.alloc(), &mut file, &mut rt.stdout()),
            Err(fault) => {
                let _ = eprintln!(rt; "polybool: {path}: {fault}");
                return ExitCode::FAILURE;
            }
        },
        Call::Help => return told(&rt, HELP),
        Call::Version => return told(&rt, VERSION),
        Call::Unknown => {
            let _ = eprint!(rt; "{HELP}");
            return ExitCode::from(2);
        }
    };
    match answered {
        Ok(()) => ExitCode::SUCCESS,
        Err(fault) => {
            let _ = eprintln!(rt; "{fault}");
            ExitCode::FAILURE
        }
    }
}

// Answers with wide coordinates or with narrow ones.
fn run_by<R: Read, W: Write>(
    is_wide: bool,
    alloc: Global,
    reader: &mut R,
    writer: &mut W,
) -> Result<(), RunFault> {
    if is_wide {
        run::run_wide(alloc, reader, writer)
    } else {
        run::run(alloc, reader, writer)
    }
}

// Tells a text on standard output.
fn told(rt: &impl Print, text: &str) -> ExitCode {
    match print!(rt; "{text}") {
        Ok(()) => ExitCode::SUCCESS,
        Err(_) => ExitCode::FAILURE,
    }
}
