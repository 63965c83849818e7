//! Laws of slices, each the contract of a function that does nothing.

ghost use Rattle.polygon_strings.specs.SliceLaws.{HalvesGoOn, SliceWalksWind, PiecesWind};

use contour_walk::laws::loops::{long_loops_wind, loops_keep_steps, loops_repeat_no_point};
use contour_walk::laws::{all_are_walked, answer_winds};
use segment_arrangement::laws::{points_have_rings, sectors_are_whole};

/// On each half of a string map follows a half, which is met first on turning through the filled side.
pub fn halves_go_on()
    ensures { HalvesGoOn }
{
    points_have_rings();
    sectors_are_whole();
}

/// Walks that pass each half of a string map once wind once round the subject, in the output direction, and round nothing else, and so do
/// their loops.
pub fn slice_walks_wind()
    ensures { SliceWalksWind }
{
    all_are_walked();
    answer_winds();
    long_loops_wind();
}

/// So do the pieces of a slice without a least area.
pub fn pieces_wind()
    ensures { PiecesWind }
{
    slice_walks_wind();
    loops_keep_steps();
    loops_repeat_no_point();
}
