//! The map that contours give where growth is refused.

use plane_base::fault::Fault;
use plane_base::path::IntPath;
use plane_base::point::IntPoint;
use plane_base::segment::XSegment;
use reference::maps::{CountedEdge, EdgeCount, given_slowly};
use std::alloc::Global;

// An edge along which a subject runs so often.
fn edge(a: IntPoint<i32>, b: IntPoint<i32>, subject: i128) -> CountedEdge<i32> {
    CountedEdge {
        edge: XSegment { a, b },
        count: EdgeCount { subject, clip: 0 },
    }
}

// Whether subjects give these edges, or are refused for memory.
fn give_or_are_refused(
    alloc: Global,
    subjects: &[IntPath<i32>],
    wanted: &[CountedEdge<i32>],
) -> bool {
    match given_slowly(alloc, subjects, &[]) {
        Ok(edges) => *edges == *wanted,
        Err(fault) => fault == Fault::Memory,
    }
}

// A growth that is refused gives `Memory`, and any that isn't gives the map.
#[test]
fn maps_are_refused_for_memory_alone(rt: HostRuntime) {
    let a = IntPoint::new(0, 0);
    let b = IntPoint::new(4, 0);
    let c = IntPoint::new(4, 4);
    let Ok(points) = Vec::from_slice(rt.alloc(), &[a, b, c]) else {
        return;
    };
    let subjects = [IntPath { points }];
    let wanted = [edge(a, b, 1), edge(a, c, -1), edge(b, c, 1)];
    assert!(rt; give_or_are_refused(rt.alloc(), &subjects, &wanted));
}
