//! A flat buffer where growth is refused.

use plane_base::flat::FlatContoursBuffer;
use plane_base::point::IntPoint;

// How many squares a buffer holds, if they are all that it holds.
fn count_squares(buffer: &FlatContoursBuffer<i32>, square: &[IntPoint<i32>; 4]) -> Option<usize> {
    let mut start = 0_usize;
    for range in &buffer.ranges {
        let end = start.checked_add(4)?;
        let points = buffer.points.get(start..end)?;
        if *range != (start..end) || points != square.as_slice() {
            return None;
        }
        start = end;
    }
    (buffer.points.len() == start).then_some(buffer.ranges.len())
}

// Whether a square is added behind so many others, or refused and nothing changed.
fn is_added_or_refused(
    buffer: &mut FlatContoursBuffer<i32>,
    square: &[IntPoint<i32>; 4],
    others: usize,
) -> bool {
    let is_added = buffer.add_contour(square).is_ok();
    let wanted = if is_added {
        others.checked_add(1)
    } else {
        Some(others)
    };
    wanted.is_some() && count_squares(buffer, square) == wanted
}

// As it runs here nothing is refused. A run that refuses the first allocation, or the second and so on, passes it too.
#[test]
fn a_refused_contour_changes_nothing(rt: HostRuntime) {
    let square = [
        IntPoint::new(0, 0),
        IntPoint::new(4, 0),
        IntPoint::new(4, 4),
        IntPoint::new(0, 4),
    ];
    let mut buffer = FlatContoursBuffer::new(rt.alloc());
    for _ in 0..20 {
        let others = buffer.ranges.len();
        assert!(rt; is_added_or_refused(&mut buffer, &square, others));
        assert!(rt; buffer.is_well_formed());
    }
    assert!(rt; buffer.clear_and_reserve(usize::MAX, 0).is_err());
    assert!(rt; buffer.points.is_empty() && buffer.ranges.is_empty());
}
