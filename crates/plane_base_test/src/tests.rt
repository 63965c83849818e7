//! What the tests share.

ghost use Rattle.std.specs.Prelude.{◌<◌, ◌≤ℤ◌, pos};

use plane_base::fault::Fault;
use plane_base::int::OverlayInt;
use plane_base::path::IntPath;
use plane_base::point::IntPoint;
use row_words::Words;
use std::alloc::Global;
use std::process::Abort;

mod buffers;
mod contours;
mod copies;
mod flat;
mod kernels;
mod maps;
mod points;
mod segments;
mod sources;
mod table;
mod thinning;
mod windings;
mod words;

// Each row is answered as it says, in all its words. An empty line is no row, nor is one that begins with `#`.
fn all_answered<R: Abort + AllocGlobal, F: Fn(&mut Words<'_>) -> bool>(
    rt: &R,
    rows: &str,
    is_answered: F,
)
    requires { F.IsAlwaysCallable is_answered }
{
    for line in rows.lines() {
        if line.is_empty() || line.starts_with("#") {
            continue;
        }
        let mut words = Words::of(rt.alloc(), line);
        assert!(rt; is_answered(&mut words) && words.are_read(), "{line}");
    }
}

// Whether the second list is the first, begun at another place.
fn is_same_cycle<I: OverlayInt>(first: &[IntPoint<I>], second: &[IntPoint<I>]) -> bool {
    let n = first.len();
    if n != second.len() {
        return false;
    }
    for k in 0..n {
        if first[k..] == second[..n - k] && first[..k] == second[n - k..] {
            return true;
        }
    }
    n == 0
}

// Whether a contour was thinned to this cycle, begun anywhere.
fn is_cycle<I: OverlayInt>(thinned: Result<IntPath<I>, Fault>, wanted: &[IntPoint<I>]) -> bool {
    match thinned {
        Ok(path) => is_same_cycle(&path.points, wanted),
        Err(_) => false,
    }
}

// Dice that look random, the same in each run.
#[derive(Drop)]
struct Dice {
    state: u64,
}

impl Dice {
    // A number from 0 to one below the bound.
    fn below(&mut self, bound: u64) -> u64
        requires { 0 < bound }
        ensures { result < bound }
    {
        self.state ^= self.state << 13;
        self.state ^= self.state >> 7;
        self.state ^= self.state << 17;
        self.state % bound
    }

    // A number from -bound to bound.
    fn around_zero(&mut self, bound: i32) -> i32
        requires above { pos 0 ≤ℤ bound }
        requires below { bound ≤ℤ pos 1000 }
    {
        self.below((2 * bound + 1) as u64) as i32 - bound
    }

    // A contour of so many points, none of whose coordinates lies farther from 0 than the bound.
    fn contour(&mut self, alloc: Global, length: u64, bound: i32) -> Result<IntPath<i32>, Fault>
        requires above { pos 0 ≤ℤ bound }
        requires below { bound ≤ℤ pos 1000 }
    {
        let mut points = Vec::new(alloc);
        for _ in 0..length {
            points.push(IntPoint::new(self.around_zero(bound), self.around_zero(bound)))?;
        }
        Ok(IntPath { points })
    }
}
