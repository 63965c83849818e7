//! Laws of paths, of late passes and of whole crossings, each the contract of a function that does nothing.

ghost use Rattle.plane_base.specs.Counts.{Counting};
ghost use Rattle.segment_split.specs.AlongLaws.{MarksStandAlong, LatePathsClimb};
ghost use Rattle.segment_split.specs.SpreadLaws.{LatePassesLower};
ghost use Rattle.segment_split.specs.WholeLaws.{WholeMeetingsStay, WholeMeetingsKeepWindings};
ghost use Rattle.segment_split.specs.LineLaws.{HorizontalAndVerticalMeetWhole, RedrawsByLines, CutByCoordinates, RedrawsAsSteps, AddsAlong};
ghost use Rattle.segment_split.specs.declared.solver.Precision.{Precision};

/// A path goes through the marks that were laid, each once, in order, in whatever order they were found.
pub fn marks_stand_along_their_edge()
    ensures { MarksStandAlong }
{}

/// A path through late marks is a staircase: it never turns back, in x or in y.
pub fn late_paths_climb()
    ensures { LatePathsClimb }
{}

/// A late pass lowers the spread by two at least for each edge that it marks, so by two at least where it marks anything.
pub fn late_passes_lower_the_spread<C>()
    ensures { (kind : Counting C) → LatePassesLower kind }
{}

/// Where the edges of a map cross at whole points alone, so do those after a pass, and no precision makes a difference.
pub fn whole_meetings_stay<C>()
    ensures { (kind : Counting C) → WholeMeetingsStay kind }
{}

/// Where the edges of a map cross at whole points alone, passes and redrawing keep the winding at every rational point. So the
/// redrawn map of such contours winds as the contours do.
pub fn whole_meetings_keep_windings()
    ensures { WholeMeetingsKeepWindings }
{}

/// Horizontal and vertical edges cross at whole points alone. Where edges do, each line is cut at the points in which an edge ends or one
/// of another line passes: the redrawn map, at every precision, has the edges between neighbour points of each line with the counts
/// that run along them joined, but for those that are empty. Of horizontal and vertical edges it is a list: from each point at which they
/// end or cross the step up and the step along. An overlay's counts are added.
pub fn redrawn_of_rectilinear<C>()
    ensures whole { (kind : Counting C) → HorizontalAndVerticalMeetWhole kind }
    ensures redrawn { (kind : Counting C) (precision : Precision) → RedrawsByLines kind precision }
    ensures rectilinear { (kind : Counting C) → CutByCoordinates kind }
    ensures steps { (kind : Counting C) (precision : Precision) → RedrawsAsSteps kind precision }
    ensures added { AddsAlong }
{}
