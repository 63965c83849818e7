//! Thinning, on small drawn contours beside the slow program, and where growth is refused.

use super::{Dice, is_cycle, is_same_cycle};
use plane_base::fault::Fault;
use plane_base::path::IntPath;
use plane_base::point::IntPoint;
use plane_base::range::{all_contours_in_range, all_in_range};
use plane_base::thin::thin;
use reference::thinning::thin_slowly;
use reference::windings::contour_winding_at;
use std::alloc::Global;
use std::slice;
use std::test::Fail;

// Whether two contours wind alike round places on and beside a small grid.
fn wind_alike(one: &IntPath<i32>, other: &IntPath<i32>) -> bool {
    let one = slice::from_ref(one);
    let other = slice::from_ref(other);
    if !all_contours_in_range(one) || !all_contours_in_range(other) {
        return false;
    }
    for x in [-7, -5, -3, -1, 1, 3, 5, 7] {
        for y in [-6, -4, -2, -1, 0, 1, 2, 4, 6] {
            if contour_winding_at(one, x, y, 2) != contour_winding_at(other, x, y, 2) {
                return false;
            }
        }
    }
    true
}

// Whether a contour is thinned as slowly, and then winds as before.
fn is_thinned_well(alloc: Global, given: &IntPath<i32>) -> bool {
    if !all_in_range(&given.points) {
        return false;
    }
    match thin(alloc, &given.points) {
        Ok(thinned) => {
            is_cycle(thin_slowly(alloc, &given.points), &thinned.points)
                && wind_alike(given, &thinned)
        }
        Err(_) => false,
    }
}

// Points on a small grid, so that many of them lie on a line, equal a neighbour or make a spike.
#[test]
fn thins_as_the_slow_program(rt: HostRuntime) -> Result<(), Fail> {
    let mut dice = Dice {
        state: 88172645463325252,
    };
    for round in 0..600_i32 {
        let length = dice.below(14);
        let bound = if round % 3 == 0 { 1 } else { 3 };
        let given = dice.contour(rt.alloc(), length, bound)?;
        assert!(rt; is_thinned_well(rt.alloc(), &given), "{given:?}");
    }
    Ok(())
}

// Whether a contour is thinned to this cycle, or refused for memory.
fn is_cycle_or_refused(thinned: Result<IntPath<i32>, Fault>, wanted: &[IntPoint<i32>]) -> bool {
    match thinned {
        Ok(path) => is_same_cycle(&path.points, wanted),
        Err(fault) => fault == Fault::Memory,
    }
}

// A growth that is refused gives `Memory`, and any that isn't gives the cycle.
#[test]
fn is_refused_for_memory_alone(rt: HostRuntime) {
    let corners = [
        IntPoint::new(0, 0),
        IntPoint::new(4, 0),
        IntPoint::new(4, 4),
        IntPoint::new(0, 4),
    ];
    let [a, b, c, d] = corners;
    let given = [a, IntPoint::new(2, 0), b, c, IntPoint::new(2, 4), d];
    assert!(rt; all_in_range(&given));
    assert!(rt; is_cycle_or_refused(thin(rt.alloc(), &given), &corners));
    assert!(rt; is_cycle_or_refused(thin_slowly(rt.alloc(), &given), &corners));
}
