//! What an overlay does with points on straight lines, with directions and with small contours.

ghost use Rattle.std.specs.Prelude.{◌≡◌, true, false};
ghost use Rattle.contour_walk.specs.declared.contour_direction.ContourDirection.TheVariants.{CounterClockwise};

use crate::contour_direction::ContourDirection;

/// How contours are taken and answered.
#[derive(Clone, Copy, Debug)]
pub struct IntOverlayOptions {
    /// Whether given points on a line with their neighbours are kept.
    pub preserve_input_collinear: bool,
    /// The direction of outlines in the answer.
    pub output_direction: ContourDirection,
    /// Whether points that a contour of the answer passes straight are kept.
    pub preserve_output_collinear: bool,
    /// The least area of a contour of the answer.
    pub min_output_area: u64,
    /// Whether contours that touch themselves are parted.
    pub ogc: bool,
}

impl IntOverlayOptions {
    /// All points are kept, given and answered.
    pub fn keep_all_points() -> IntOverlayOptions
        ensures { result ≡ record {
          preserve_input_collinear = true;
          output_direction = CounterClockwise;
          preserve_output_collinear = true;
          min_output_area = 0;
          ogc = false;
        } }
    {
        IntOverlayOptions {
            preserve_input_collinear: true,
            preserve_output_collinear: true,
            ..IntOverlayOptions::default()
        }
    }

    /// All points of the answer are kept.
    pub fn keep_output_points() -> IntOverlayOptions
        ensures { result ≡ record {
          preserve_input_collinear = false;
          output_direction = CounterClockwise;
          preserve_output_collinear = true;
          min_output_area = 0;
          ogc = false;
        } }
    {
        IntOverlayOptions {
            preserve_output_collinear: true,
            ..IntOverlayOptions::default()
        }
    }

    /// Contours that touch themselves are parted.
    pub fn ogc() -> IntOverlayOptions
        ensures { result ≡ record {
          preserve_input_collinear = false;
          output_direction = CounterClockwise;
          preserve_output_collinear = false;
          min_output_area = 0;
          ogc = true;
        } }
    {
        IntOverlayOptions {
            ogc: true,
            ..IntOverlayOptions::default()
        }
    }
}

impl Default for IntOverlayOptions {
    ghost is_default = { λ options. options ≡
        record { preserve_input_collinear = false; output_direction = CounterClockwise; preserve_output_collinear = false; min_output_area = 0; ogc = false } };

    /// Corners alone are kept, outlines run counterclockwise, and no contour is too small.
    fn default() -> IntOverlayOptions {
        IntOverlayOptions {
            preserve_input_collinear: false,
            output_direction: ContourDirection::CounterClockwise,
            preserve_output_collinear: false,
            min_output_area: 0,
            ogc: false,
        }
    }
}
