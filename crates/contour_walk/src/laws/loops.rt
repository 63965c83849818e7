//! Laws of the loops of a path, each the contract of a function that does nothing.

ghost use Rattle.contour_walk.specs.LoopLaws.{LoopsKeepSteps, LoopsRepeatNoPoint, TwoPointsWindNothing, LongLoopsWind};

/// The steps of all loops are those of the path, each once.
pub fn loops_keep_steps()
    ensures { LoopsKeepSteps }
{}

/// No loop comes to a point twice.
pub fn loops_repeat_no_point()
    ensures { LoopsRepeatNoPoint }
{}

/// A loop of two points, along a segment and back, winds round no point.
pub fn two_points_wind_nothing()
    ensures { TwoPointsWindNothing }
{}

/// Where there is no minimum, the long loops wind together as their path does.
pub fn long_loops_wind()
    ensures { LongLoopsWind }
{}
