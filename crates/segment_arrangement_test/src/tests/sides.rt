//! The slow program for the sides of edges, and the fills that follow from them.

use super::fills::slow_fills;
use super::map_of;
use segment_arrangement::fill_rule::FillRule;
use std::test::Fail;

// A square and a lesser one in it, as the clip, under the even-odd rule.
#[test]
fn fills_of_two_squares(rt: HostRuntime) -> Result<(), Fail> {
    let edges = map_of(
        rt.alloc(),
        &[(0, 0), (10, 0), (10, 10), (0, 10)],
        &[(3, 3), (7, 3), (7, 7), (3, 7)],
    )?;
    let fills = slow_fills(rt.alloc(), FillRule::EvenOdd, &edges)?;
    assert!(rt; fills.as_slice() == [2, 1, 2, 11, 7, 11, 7, 1].as_slice());
    Ok(())
}
