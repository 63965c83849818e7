//! Maps redrawn alike by each road.

use super::segment_from;
use super::splitting::{are_equal, split_by};
use plane_base::fault::Fault;
use segment_split::count::ShapeCountBoolean;
use segment_split::segment::Segment;
use segment_split::solver::Solver;
use std::alloc::Global;
use std::test::Fail;

// The next number of a fixed row, by a multiplication and a sum.
fn next(seed: u64) -> u64 {
    seed.wrapping_mul(6364136223846793005)
        .wrapping_add(1442695040888963407)
}

// A coordinate below this one.
fn coordinate(seed: u64, below: u32) -> i32 {
    if below == 0 || below > 1_000_000 {
        return 0;
    }
    ((seed >> 33) as u32 % below) as i32
}

// So many segments that begin anywhere in a square and reach so far.
fn drawn(
    alloc: Global,
    seed: u64,
    count: usize,
    side: u32,
    reach: u32,
) -> Result<Vec<Segment<ShapeCountBoolean, i32, ()>>, Fault> {
    let mut segments = Vec::new(alloc);
    let mut seed = seed;
    for _ in 0..count {
        let second = next(seed);
        let third = next(second);
        let fourth = next(third);
        seed = next(fourth);
        let a = (coordinate(second, side), coordinate(third, side));
        let x = a.0.saturating_add(coordinate(fourth, reach));
        let y = a.1.saturating_add(coordinate(seed, reach));
        if let Some(segment) = segment_from((a, (x, y), 1, 0)) {
            segments.push(segment)?;
        }
    }
    Ok(segments)
}

#[test]
fn redraws_alike_by_each_road(rt: HostRuntime) -> Result<(), Fail> {
    let alloc = rt.alloc();
    let kinds = [
        (70, 20, 10),
        (100, 1000, 100),
        (100, 5000, 5000),
        (200, 40, 3),
        (90, 300, 300),
    ];
    let mut seed = 1;
    for map in 0..20 {
        seed = next(seed);
        for (count, side, reach) in kinds {
            let mut wanted = drawn(alloc, seed, count, side, reach)?;
            let _ = split_by(alloc, &mut wanted, &Solver::LIST)?;
            for solver in [Solver::TREE, Solver::FRAG, Solver::AUTO] {
                let mut segments = drawn(alloc, seed, count, side, reach)?;
                let _ = split_by(alloc, &mut segments, &solver)?;
                assert!(rt; are_equal(&segments, &wanted), "at map {map}");
            }
        }
    }
    Ok(())
}
