//! Laws of holes and answers, each the contract of a function that does nothing.

ghost use Rattle.contour_walk.specs.BindingLaws.{StraightPointsDontWind, ContoursAreLong, CornersStay, ContoursHaveAnchors};
ghost use Rattle.contour_walk.specs.BindingLaws.{WayDownDescends, UnderIsEarlier, WayDownIsLast, OwnerGoesOn};
ghost use Rattle.contour_walk.specs.BindingLaws.{WayDownExists, HolesHaveOutlines, NothingIsLost, WalksPassOnce};
ghost use Rattle.contour_walk.specs.BindingLaws.{FinishedPassingWinds, FinishedWalksWind, WalkAnchorsTell, WalkHolesAreOwned};
ghost use Rattle.contour_walk.specs.BindingLaws.{AnswerHasAllWalks, ShapesWind, ShapesAreAnswer};

use crate::laws::{all_are_walked, anchors_are_sided, passing_winds};

/// A contour winds round each point as it does without the points that it passes straight.
pub fn straight_points_dont_wind()
    ensures { StraightPointsDontWind }
{}

/// Contours that pass each link of a boundary once have three points or more.
pub fn contours_are_long()
    ensures { ContoursAreLong }
{}

/// Without the points that it passes straight such a contour is thinned: it has three points or more, and passes none of them
/// straight.
pub fn corners_stay()
    ensures { CornersStay }
{}

/// Each such contour has an anchor, which is not vertical.
pub fn contours_have_anchors()
    ensures { ContoursHaveAnchors }
{}

/// The way down from the anchor of a contour leads to a contour whose anchor comes before, where no anchor is vertical.
pub fn way_down_descends()
    ensures { WayDownDescends }
{}

/// An edge that passes under another begins before it, as anchors are ordered.
pub fn under_is_earlier()
    ensures { UnderIsEarlier }
{}

/// The way down leads to the last of the edges that are wanted, in whatever order they are given.
pub fn way_down_is_last()
    ensures { WayDownIsLast }
{}

/// The owner of a hole is the outline that the way down meets, or the owner of the hole that it meets.
pub fn owner_goes_on()
    ensures { OwnerGoesOn }
{}

/// From the anchor of a hole the way down meets an edge that has the region above it.
pub fn way_down_exists()
    ensures { WayDownExists }
{}

/// Each hole lies in the shape of an outline.
pub fn holes_have_outlines()
    ensures { HolesHaveOutlines }
{}

/// Each contour stands in one shape, once, where each hole lies in the shape of an outline.
pub fn nothing_is_lost()
    ensures { NothingIsLost }
{}

/// Walks pass each link of the boundary once.
pub fn walks_pass_once()
    ensures { WalksPassOnce }
{
    all_are_walked();
}

/// Any contours that pass each link of the boundary with the region on the stated hand wind once round each point of the region, and
/// round no other, with and without the points that they pass straight: on the edges, too.
pub fn finished_passing_winds()
    ensures { FinishedPassingWinds }
{
    passing_winds();
}

/// The walks wind once round each point of the region, in the output direction, and round no other, with and without the points
/// that they pass straight: on the edges, too.
pub fn finished_walks_wind()
    ensures { FinishedWalksWind }
{
    all_are_walked();
    finished_passing_winds();
}

/// The anchors of walks tell which of them are holes.
pub fn walk_anchors_tell()
    ensures { WalkAnchorsTell }
{
    all_are_walked();
    anchors_are_sided();
}

/// Each hole among the walks lies in the shape of an outline.
pub fn walk_holes_are_owned()
    ensures { WalkHolesAreOwned }
{
    all_are_walked();
    anchors_are_sided();
}

/// The contours of the answer are those of the walks, each in one shape, with or without the points that they pass straight.
pub fn answer_has_all_walks()
    ensures { AnswerHasAllWalks }
{
    all_are_walked();
    anchors_are_sided();
}

/// The shapes wind once round each point of the region, in the output direction, and round no other: on the edges, too.
pub fn shapes_wind()
    ensures { ShapesWind }
{
    answer_has_all_walks();
    finished_walks_wind();
}

/// Counterclockwise the shapes are an overlay's answer, off the edges.
pub fn shapes_are_answer()
    ensures { ShapesAreAnswer }
{
    shapes_wind();
}
