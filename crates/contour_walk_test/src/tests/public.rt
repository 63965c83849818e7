//! The types that the crates above use.

use super::{CENTER, DOWN, LEFT, RIGHT, UP};
use contour_walk::contour_direction::ContourDirection;
use contour_walk::nearest_vector::NearestVector;
use contour_walk::options::IntOverlayOptions;

#[test]
fn finds_the_nearest_direction(rt: HostRuntime) {
    let mut nearest = NearestVector::new(CENTER, LEFT, UP, 1, false);
    let mut best = [nearest.best_id; 4];
    nearest.add(RIGHT, 2);
    best[1] = nearest.best_id;
    nearest.add(DOWN, 3);
    best[2] = nearest.best_id;
    nearest.add(UP, 4);
    best[3] = nearest.best_id;
    assert!(rt; best == [1, 2, 3, 3]);
}

#[test]
fn finds_the_nearest_direction_clockwise(rt: HostRuntime) {
    let mut nearest = NearestVector::new(CENTER, LEFT, DOWN, 1, true);
    nearest.add(RIGHT, 2);
    nearest.add(UP, 3);
    assert!(rt; nearest.best_id == 3);
}

// Whether given points on a line and such points of the answer are kept.
fn kept(options: IntOverlayOptions) -> [bool; 2] {
    [
        options.preserve_input_collinear,
        options.preserve_output_collinear,
    ]
}

#[test]
fn has_options(rt: HostRuntime) {
    let default = IntOverlayOptions::default();
    assert!(rt; default.output_direction == ContourDirection::CounterClockwise);
    assert!(rt; default.min_output_area == 0);
    assert!(rt; [default.ogc, IntOverlayOptions::ogc().ogc] == [false, true]);
    let all_kept = [
        kept(default),
        kept(IntOverlayOptions::keep_all_points()),
        kept(IntOverlayOptions::keep_output_points()),
    ];
    assert!(rt; all_kept == [[false, false], [true, true], [false, true]]);
}
