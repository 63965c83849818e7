//! Laws of sizing, each the contract of a function that does nothing.

ghost use Rattle.polygon_overlay.specs.Checks.{GrownIsNear};
ghost use Rattle.polygon_overlay.specs.SizingLaws.{MovedFillTheSized, RegionsStayInTheBox, SizedIsTheNeighbourhood};

use crate::given_laws::held_winds_as_given;
use crate::laws::answers_stay_in_the_box;
use contour_walk::laws::answers::{answers_are_orderly, answers_wind, least_of_zero_keeps_all};
use contour_walk::laws::binding::{answer_has_all_walks, corners_stay};
use segment_arrangement::laws::filled_is_bounded;
use segment_split::count::ShapeCountBoolean;
use segment_split::laws::spread::{redrawn_of_rectilinear, whole_meetings_keep_windings};
use segment_split::laws::{passes_rearrange, redrawing_comes_to_rest, redrawn_maps_are_balanced};

/// What the region of horizontal and vertical contours, moved in x and then in y, winds round more often than 0: the sized region.
pub fn moved_fill_the_sized()
    ensures { MovedFillTheSized }
{
    passes_rearrange::<ShapeCountBoolean>();
    redrawing_comes_to_rest::<ShapeCountBoolean>();
    redrawn_maps_are_balanced();
    filled_is_bounded();
    answers_are_orderly();
    answers_wind();
    corners_stay();
    whole_meetings_keep_windings();
    held_winds_as_given();
    redrawn_of_rectilinear::<ShapeCountBoolean>();
    answer_has_all_walks();
    least_of_zero_keeps_all();
}

/// All points of a region lie in each box in which all given points lie.
pub fn regions_stay_in_the_box()
    ensures { RegionsStayInTheBox }
{
    passes_rearrange::<ShapeCountBoolean>();
    redrawing_comes_to_rest::<ShapeCountBoolean>();
    redrawn_maps_are_balanced();
    answer_has_all_walks();
    least_of_zero_keeps_all();
    answers_stay_in_the_box();
}

/// What an answer for horizontal and vertical contours, moved in x and then in y, winds round: the sized region.
pub fn sized_is_the_neighbourhood()
    ensures { SizedIsTheNeighbourhood }
{
    passes_rearrange::<ShapeCountBoolean>();
    redrawing_comes_to_rest::<ShapeCountBoolean>();
    redrawn_maps_are_balanced();
    filled_is_bounded();
    answers_are_orderly();
    answers_wind();
    corners_stay();
    whole_meetings_keep_windings();
    held_winds_as_given();
    redrawn_of_rectilinear::<ShapeCountBoolean>();
    answer_has_all_walks();
    least_of_zero_keeps_all();
}

/// What is grown by one distance: the points that are no further from some point of the region, in x and in y.
pub fn grown_is_near()
    ensures { GrownIsNear }
{}
