//! Turning round a point, worked out by hand.

use super::{CENTER, DOWN, LEFT, RIGHT, UP};
use contour_walk::turning::{Turned, half_turns, is_met_before};
use reference::turning::first_by_turn;

#[test]
fn meets_points_by_their_turns(rt: HostRuntime) {
    let turned = [
        half_turns(false, CENTER, LEFT, DOWN),
        half_turns(false, CENTER, LEFT, RIGHT),
        half_turns(false, CENTER, LEFT, UP),
        half_turns(false, CENTER, LEFT, LEFT),
    ];
    assert!(rt;
        turned
            == [
                Turned::LessThanHalf,
                Turned::Half,
                Turned::MoreThanHalf,
                Turned::Whole
            ]
    );
    assert!(rt; is_met_before(false, CENTER, LEFT, DOWN, RIGHT));
    assert!(rt; is_met_before(true, CENTER, LEFT, UP, DOWN));
    let first = [
        first_by_turn(false, CENTER, LEFT, &[LEFT, UP, RIGHT, DOWN]),
        first_by_turn(true, CENTER, LEFT, &[LEFT, DOWN, RIGHT, UP]),
        first_by_turn(true, CENTER, LEFT, &[]),
    ];
    assert!(rt; first == [Some(DOWN), Some(UP), None]);
}
