//! Points, segments and contours of a row's words.

use plane_base::int::OverlayInt;
use plane_base::path::IntPath;
use plane_base::point::IntPoint;
use plane_base::segment::XSegment;
use row_words::Words;

fn coordinate_from<I: OverlayInt>(words: &mut Words<'_>) -> I {
    let number = words.number();
    if I::in_range(number) {
        return I::from_i64(number);
    }
    words.note(false);
    I::MIN_COORDINATE
}

pub(super) fn point_from<I: OverlayInt>(words: &mut Words<'_>) -> IntPoint<I> {
    let x = coordinate_from(words);
    let y = coordinate_from(words);
    IntPoint::new(x, y)
}

pub(super) fn segment_from<I: OverlayInt>(words: &mut Words<'_>) -> XSegment<I> {
    let a = point_from(words);
    let b = point_from(words);
    XSegment { a, b }
}

pub(super) fn points_from<I: OverlayInt>(words: &mut Words<'_>) -> Vec<IntPoint<I>> {
    let mut points = Vec::new(words.alloc());
    for _ in 0..words.count() {
        let point = point_from(words);
        words.note(points.push(point).is_ok());
    }
    points
}

fn contour_from(words: &mut Words<'_>) -> IntPath<i32> {
    let points = points_from(words);
    IntPath { points }
}

pub(super) fn contours_from(words: &mut Words<'_>) -> Vec<IntPath<i32>> {
    words.list(contour_from)
}
