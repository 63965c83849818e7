//! Which windings fill rules and overlay rules keep.

use super::{RULES, at_least, fill_rules, map_of};
use reference::maps::{CountedEdge, EdgeCount};
use reference::regions::is_in_region;
use reference::windings::{all_edges_in_range, winding_at};
use segment_arrangement::depth::Depth;
use segment_arrangement::fill_rule::FillRule;
use segment_arrangement::overlay_rule::OverlayRule;
use std::alloc::Global;

// Of each winding: what even-odd, non-zero, positive, negative, at least 1 and at least 2 fill.
#[test]
fn fills_by_rule(rt: HostRuntime) {
    let rows = [
        (0, [false, false, false, false, false, false]),
        (1, [true, true, true, false, true, false]),
        (2, [false, true, true, false, true, true]),
        (3, [true, true, true, false, true, true]),
        (-1, [true, true, false, true, false, false]),
        (-2, [false, true, false, true, false, false]),
        (-3, [true, true, false, true, false, false]),
        (i128::MAX, [true, true, true, false, true, true]),
        (i128::MIN, [false, true, false, true, false, false]),
    ];
    for i in 0..9 {
        let (winding, wanted) = rows[i];
        let filled = fill_rules().map(|rule| rule.is_filled(winding));
        assert!(rt; filled == wanted, "{winding}");
    }
}

// A depth is 1 or more, and fills from its number of windings on, up to the greatest.
#[test]
fn depths(rt: HostRuntime) {
    for windings in [0, -1, i32::MIN] {
        assert!(rt; Depth::new(windings) == None);
    }
    for windings in [1, 2, i32::MAX] {
        assert!(rt; Depth::new(windings).map(|depth| depth.get()) == Some(windings));
    }
    let greatest = at_least(i32::MAX);
    assert!(rt; !greatest.is_filled(i128::from(i32::MAX) - 1));
    assert!(rt; greatest.is_filled(i128::from(i32::MAX)));
    assert!(rt; at_least(2) == at_least(2));
    assert!(rt; at_least(2) != at_least(3));
    assert!(rt; at_least(1) != FillRule::Positive);
}

// Of each rule: where nothing, the subject, the clip and both are filled.
#[test]
fn keeps_by_rule(rt: HostRuntime) {
    let rows = [
        [false, true, false, true],
        [false, false, true, true],
        [false, false, false, true],
        [false, true, true, true],
        [false, true, false, false],
        [false, false, true, false],
        [false, true, true, false],
    ];
    for i in 0..7 {
        let kept = [
            RULES[i].holds(false, false),
            RULES[i].holds(true, false),
            RULES[i].holds(false, true),
            RULES[i].holds(true, true),
        ];
        assert!(rt; kept == rows[i], "rule {i}");
    }
}

#[test]
fn no_rule_keeps_the_outside(rt: HostRuntime) {
    let outside = EdgeCount {
        subject: 0,
        clip: 0,
    };
    for fill in fill_rules() {
        for rule in RULES {
            assert!(rt; !is_in_region(fill, rule, outside));
        }
    }
}

// The windings at a place in the subject alone, one in both, and one in the clip alone, of two squares, one over a corner of the other.
fn windings_of_squares(alloc: Global) -> Option<[EdgeCount; 3]> {
    let edges = map_of(
        alloc,
        &[(0, 0), (10, 0), (10, 10), (0, 10)],
        &[(5, 5), (15, 5), (15, 15), (5, 15)],
    )
    .ok()?;
    windings_at_places(&edges)
}

fn windings_at_places(edges: &[CountedEdge<i32>]) -> Option<[EdgeCount; 3]> {
    if !all_edges_in_range(edges) {
        return None;
    }
    let subject = winding_at(edges, 2, 2, 1)?;
    let both = winding_at(edges, 7, 7, 1)?;
    let clip = winding_at(edges, 12, 12, 1)?;
    Some([subject, both, clip])
}

// Of each rule: which of the three places it keeps.
#[test]
fn regions_of_two_squares(rt: HostRuntime) {
    let rows = [
        (OverlayRule::Subject, [true, true, false]),
        (OverlayRule::Clip, [false, true, true]),
        (OverlayRule::Intersect, [false, true, false]),
        (OverlayRule::Union, [true, true, true]),
        (OverlayRule::Difference, [true, false, false]),
        (OverlayRule::InverseDifference, [false, false, true]),
        (OverlayRule::Xor, [true, false, true]),
    ];
    let Some(windings) = windings_of_squares(rt.alloc()) else {
        panic!(rt; "the squares lie in range");
    };
    for i in 0..7 {
        let (rule, wanted) = rows[i];
        let kept = [
            is_in_region(FillRule::NonZero, rule, windings[0]),
            is_in_region(FillRule::NonZero, rule, windings[1]),
            is_in_region(FillRule::NonZero, rule, windings[2]),
        ];
        assert!(rt; kept == wanted, "{rule}");
    }
}
