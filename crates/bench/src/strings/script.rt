//! What is clipped or sliced.

use polygon_overlay::plane::fault::Fault;
use polygon_overlay::plane::path::IntPath;
use polygon_overlay::plane::point::IntPoint;
use std::alloc::Global;
use std::str::SplitAsciiWhitespace;

/// The contours of a shape, and paths over it.
#[derive(Drop)]
pub(crate) struct Script {
    pub(crate) bodies: Vec<IntPath<i32>>,
    pub(crate) lines: Vec<IntPath<i32>>,
}

impl Script {
    pub(crate) fn new(alloc: Global) -> Script {
        Script {
            bodies: Vec::new(alloc),
            lines: Vec::new(alloc),
        }
    }

    /// Takes a line. One that begins with another word is passed over.
    pub(crate) fn take_line(&mut self, alloc: Global, line: &str) -> Result<(), Fault> {
        let mut words = line.split_ascii_whitespace();
        match words.next() {
            Some("body") => self.bodies.push(path_from(alloc, words)?)?,
            Some("line") => self.lines.push(path_from(alloc, words)?)?,
            _ => {}
        }
        Ok(())
    }
}

// The path of these coordinates. A word that is none is passed over.
fn path_from(alloc: Global, words: SplitAsciiWhitespace<'_>) -> Result<IntPath<i32>, Fault> {
    let mut points = Vec::new(alloc);
    let mut before = None;
    for word in words {
        if let Ok(number) = word.parse::<i32>() {
            match before {
                Some(x) => {
                    points.push(IntPoint::new(x, number))?;
                    before = None;
                }
                None => before = Some(number),
            }
        }
    }
    Ok(IntPath { points })
}
