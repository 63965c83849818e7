//! Steps of a walk, worked out by hand.

use super::contour_from;
use contour_walk::borders::Border;
use plane_base::fault::Fault;
use plane_base::point::IntPoint;
use plane_base::segment::XSegment;
use reference::walks::{all_links_in_range, next_point, top_link, walk_from, without};
use std::alloc::Global;
use std::test::Fail;

type Link = (i32, i32, i32, i32, bool);

// The boundary of the union of the squares 0 0 .. 10 10 and 5 5 .. 15 15.
const SQUARES: &[Link] = &[
    (0, 0, 0, 10, false),
    (0, 0, 10, 0, true),
    (0, 10, 5, 10, false),
    (5, 10, 5, 15, false),
    (5, 15, 15, 15, false),
    (10, 0, 10, 5, true),
    (10, 5, 15, 5, true),
    (15, 5, 15, 15, true),
];

fn boundary(alloc: Global) -> Result<Vec<Border<i32>>, Fault> {
    let mut links = Vec::new(alloc);
    for (x, y, u, v, above) in SQUARES {
        links.push(Border {
            edge: XSegment {
                a: IntPoint::new(*x, *y),
                b: IntPoint::new(*u, *v),
            },
            above: *above,
        })?;
    }
    Ok(links)
}

// The topmost link at 0 0, how many links are left without the one to 0 10, and where a walk goes on that came by it.
type Step = (Option<Border<i32>>, usize, Option<IntPoint<i32>>);

fn step_at_origin(alloc: Global, links: &[Border<i32>]) -> Result<Option<Step>, Fault> {
    if !all_links_in_range(links) {
        return Ok(None);
    }
    let v = IntPoint::new(0, 0);
    let from = IntPoint::new(0, 10);
    let left = without(alloc, links, XSegment { a: v, b: from })?;
    let next = next_point(false, &left, v, from);
    Ok(Some((top_link(v, links), left.len(), next)))
}

// The boundary of the union of two squares; it goes on from 0 10 over 0 0 to 10 0.
#[test]
fn goes_on_by_the_first_link(rt: HostRuntime) -> Result<(), Fail> {
    let links = boundary(rt.alloc())?;
    let edge = XSegment {
        a: IntPoint::new(0, 0),
        b: IntPoint::new(0, 10),
    };
    let top = Border { edge, above: false };
    let wanted = Some((Some(top), 7, Some(IntPoint::new(10, 0))));
    assert!(rt; step_at_origin(rt.alloc(), &links) == Ok(wanted));
    Ok(())
}

// A walk round the boundary, if its links lie in range.
fn walk(alloc: Global) -> Result<Option<Vec<IntPoint<i32>>>, Fault> {
    let links = boundary(alloc)?;
    if !all_links_in_range(&links) {
        return Ok(None);
    }
    let first = IntPoint::new(0, 10);
    let second = IntPoint::new(0, 0);
    Ok(Some(walk_from(alloc, true, &links, first, second)?))
}

// Its least point stands second, and the region lies on its left.
#[test]
fn walks_round_two_squares(rt: HostRuntime) -> Result<(), Fail> {
    let expected = [
        (0, 10),
        (0, 0),
        (10, 0),
        (10, 5),
        (15, 5),
        (15, 15),
        (5, 15),
        (5, 10),
    ];
    let wanted = contour_from(rt.alloc(), &expected)?;
    assert!(rt; walk(rt.alloc()) == Ok(Some(wanted.points)));
    Ok(())
}
