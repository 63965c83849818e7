//! Laws of the points of answers, each the contract of a function that does nothing.

ghost use Rattle.contour_walk.specs.AnswerLaws.{AnswersStandOnEnds, AnswersAreShort, AnswersWind, PartedAnswersRepeatNoPoint};
ghost use Rattle.contour_walk.specs.Answering.{ZeroKeepsAll, AnswersReachLeast};
ghost use Rattle.contour_walk.specs.Orderly.{AnswersAreOrderly};

use crate::laws::binding::finished_passing_winds;

/// Each point of the answer is an end of an edge of the arrangement.
pub fn answers_stand_on_ends()
    ensures { AnswersStandOnEnds }
{}

/// All contours of the answer together have no more points than the boundary has links.
pub fn answers_are_short()
    ensures { AnswersAreShort }
{}

/// With a least area of 0 the answer has all shapes and all their holes.
pub fn least_of_zero_keeps_all()
    ensures { ZeroKeepsAll }
{}

/// Where there is no least area, the shapes of the answer wind once round each point of the region, in the output direction, and round no other:
/// on the edges, too, parted or not.
pub fn answers_wind()
    ensures { AnswersWind }
{
    finished_passing_winds();
}

/// Where there is no least area, the contours of the answer pass each link once, with the region on the hand, least points stand where they
/// should, and shapes come by least points, parted or not.
pub fn answers_are_orderly()
    ensures { AnswersAreOrderly }
{}

/// With a least area those shapes are answered whose outlines reach it, each with the holes that do.
pub fn answers_reach_least()
    ensures { AnswersReachLeast }
{}

/// No contour of a parted answer comes to a point twice, whatever the links, with a least area or without.
pub fn parted_answers_repeat_no_point()
    ensures { PartedAnswersRepeatNoPoint }
{}
