//! Laws of walks, each the contract of a function that does nothing.

ghost use Rattle.std.specs.Prelude.{◌≡◌, ◌↔◌, true};
ghost use Rattle.contour_walk.specs.declared.contour_direction.ContourDirection.{ContourDirection};
ghost use Rattle.contour_walk.specs.declared.turning.Turned.{Turned};
ghost use Rattle.contour_walk.specs.WalkLaws.{AllAreWalked, WalksPassInTurn, LeastPointsStand, AnchorsAreSided};
ghost use Rattle.contour_walk.specs.WalkLaws.{AnyWalksPass, PassingWinds, AnswerWinds};

use crate::contour_direction::ContourDirection;
use crate::turning::Turned;
use segment_arrangement::laws::{node_ring, points_have_rings, signs_sum_to_region};

pub mod answers;
pub mod binding;
pub mod groups;
pub mod hierarchy;
pub mod loops;

/// Walks pass each link of the boundary once, with the region on the left, or on the right where the output is clockwise.
pub fn all_are_walked()
    ensures { AllAreWalked }
{
    points_have_rings();
    node_ring();
}

/// So do walks that begin with any links that are left, each in either rotation, until none is left.
pub fn any_walks_pass()
    ensures { AnyWalksPass }
{
    points_have_rings();
    node_ring();
}

/// Each contour passes some of the links that are left at its beginning, each once, until none is left.
pub fn walks_pass_in_turn()
    ensures { WalksPassInTurn }
{
    points_have_rings();
    node_ring();
}

/// A contour's least point stands first or second, by its direction, and contours come by rising least points.
pub fn least_points_stand()
    ensures { LeastPointsStand }
{
    points_have_rings();
    node_ring();
}

/// The lowest edge at the least point of an outline has the region above it, that of a hole below it.
pub fn anchors_are_sided()
    ensures { AnchorsAreSided }
{
    points_have_rings();
    node_ring();
}

/// Any contours that pass each link of the boundary once, with the region on the hand of the output, wind once round each point of
/// the region, in the output direction, and round no other: on the edges, too.
pub fn passing_winds()
    ensures { PassingWinds }
{
    signs_sum_to_region();
}

/// So do the contours of walks.
pub fn answer_winds()
    ensures { AnswerWinds }
{
    signs_sum_to_region();
    all_are_walked();
}

/// Directions and turns are equal to themselves alone.
pub fn equality_of_directions()
    ensures of_directions { (a b : ContourDirection) → (⟦<ContourDirection as PartialEq>⟧.eq a b ≡ true) ↔ (a ≡ b) }
    ensures of_turns { (a b : Turned) → (⟦<Turned as PartialEq>⟧.eq a b ≡ true) ↔ (a ≡ b) }
{}
