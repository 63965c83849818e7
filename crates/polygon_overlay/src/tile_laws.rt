//! Laws of tiles, each the contract of a function that does nothing.

ghost use Rattle.polygon_overlay.specs.TileLaws.{ClampedWindsAlike, AnswersStayRectilinear, StraightMapsAnswerTheirRegion, TilesAnswerTheirRegion};
ghost use Rattle.polygon_overlay.specs.TileLaws.{GridsAreTiles, TilesUnite};

use crate::given_laws::held_winds_as_given;
use contour_walk::laws::answers::{answers_are_orderly, answers_wind};
use contour_walk::laws::binding::corners_stay;
use segment_arrangement::laws::filled_is_bounded;
use segment_split::count::ShapeCountBoolean;
use segment_split::laws::spread::{redrawn_of_rectilinear, whole_meetings_keep_windings};
use segment_split::laws::{passes_rearrange, redrawing_comes_to_rest, redrawn_maps_are_balanced};

/// A contour whose steps keep to a tile, each of its points clamped into the tile, winds there round each rational point as before, and
/// round no other.
pub fn clamped_winds_alike()
    ensures { ClampedWindsAlike }
{}

/// Where all held edges are horizontal or vertical, all steps of an answer are.
pub fn answers_stay_rectilinear()
    ensures { AnswersStayRectilinear }
{
    passes_rearrange::<ShapeCountBoolean>();
    redrawing_comes_to_rest::<ShapeCountBoolean>();
    redrawn_maps_are_balanced();
    answers_are_orderly();
    corners_stay();
    redrawn_of_rectilinear::<ShapeCountBoolean>();
}

/// The contours of a map of horizontal and vertical edges are answered by their region, at each rational point.
pub fn straight_maps_answer_their_region()
    ensures { StraightMapsAnswerTheirRegion }
{
    passes_rearrange::<ShapeCountBoolean>();
    redrawing_comes_to_rest::<ShapeCountBoolean>();
    redrawn_maps_are_balanced();
    filled_is_bounded();
    answers_are_orderly();
    answers_wind();
    whole_meetings_keep_windings();
    held_winds_as_given();
    redrawn_of_rectilinear::<ShapeCountBoolean>();
}

/// The contours of a map of horizontal and vertical edges, each clamped into a tile, are answered by the region of the map in the tile.
pub fn tiles_answer_their_region()
    ensures { TilesAnswerTheirRegion }
{
    passes_rearrange::<ShapeCountBoolean>();
    redrawing_comes_to_rest::<ShapeCountBoolean>();
    redrawn_maps_are_balanced();
    filled_is_bounded();
    answers_are_orderly();
    answers_wind();
    whole_meetings_keep_windings();
    held_winds_as_given();
    redrawn_of_rectilinear::<ShapeCountBoolean>();
}

/// Columns from cut to cut of x, each cut by y, are tiles that cover the whole and overlap nowhere.
pub fn grids_are_tiles()
    ensures { GridsAreTiles }
{}

/// The answers of such tiles, handed back together and alone, under `Subject` and `NonZero`, wind round each rational point as the overlay of
/// the whole map.
pub fn tiles_unite()
    ensures { TilesUnite }
{
    passes_rearrange::<ShapeCountBoolean>();
    redrawing_comes_to_rest::<ShapeCountBoolean>();
    redrawn_maps_are_balanced();
    filled_is_bounded();
    answers_are_orderly();
    answers_wind();
    corners_stay();
    whole_meetings_keep_windings();
    held_winds_as_given();
    redrawn_of_rectilinear::<ShapeCountBoolean>();
}
