//! Laws of groups, each the contract of a function that does nothing.

ghost use Rattle.contour_walk.specs.GroupLaws.{GroupsAreWalkedAlone, GroupsAreAnsweredAlone};

use segment_arrangement::laws::groups_fill_alone;

/// Where each link of a boundary joins two points of a group or two others, the contours of the group are those of its links alone, in
/// order, parted or not.
pub fn groups_are_walked_alone()
    ensures { GroupsAreWalkedAlone }
{}

/// Where the edges of an arrangement lie in boxes that share no point, the shapes in a box are, in order, the answer for the edges there
/// alone, and each shape lies in one of the boxes: by all options with a least area of 0.
pub fn groups_are_answered_alone()
    ensures { GroupsAreAnsweredAlone }
{
    groups_fill_alone();
}
