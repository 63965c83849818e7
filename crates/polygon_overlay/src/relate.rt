//! Relations between what a subject and a clip fill: whether they meet, touch, or lie one within the other.
//!
//! What is held is redrawn and swept as for an overlay, but nothing is walked: a visitor of the sweep (`predicate`) is told the fills of
//! the segments, and ends as soon as the answer stands. `PredicateOverlay` holds contours and answers predicate by predicate; `IntRelate`
//! answers by one call, and redraws nothing where the boxes of subject and clip share no point.

ghost use Rattle.polygon_overlay.specs.Builders.{IsHeld};

mod apart;
mod build;
mod query;
mod reach;
mod single;
mod sweep;

pub use apart::lie_apart;
use plane_base::int::OverlayInt;
use segment_arrangement::fill_rule::FillRule;
use segment_arrangement::sweep::SweepRunner;
use segment_split::count::ShapeCountBoolean;
use segment_split::given::held::Held;
use segment_split::solver::Solver;
pub use single::IntRelate;
use std::alloc::Global;

/// Takes subject and clip contours, each without the points that lie on a line with their neighbours, and answers how what they fill is
/// related.
#[derive(Drop)]
pub struct PredicateOverlay<I: OverlayInt> {
    /// How segments are cut.
    pub solver: Solver,
    /// Where subject and clip are filled.
    pub fill_rule: FillRule,
    held: Held<ShapeCountBoolean, I, ()>,
    sweep_runner: SweepRunner<I>,
    alloc: Global,
    ghost balanced: { IsHeld I.least I.greatest held.edges },
}

/// How what a subject and a clip fill is related.
#[derive(Clone, Copy, Debug, PartialEq, Eq)]
pub struct Relations {
    /// They have a point in common.
    pub intersects: bool,
    /// Their interiors have.
    pub interiors_intersect: bool,
    /// They intersect, and their interiors don't.
    pub touches: bool,
    /// They meet at ends of segments alone.
    pub point_intersects: bool,
    /// The subject fills something, and the clip all that the subject fills.
    pub within: bool,
    /// They don't intersect.
    pub disjoint: bool,
    /// The clip fills something, and the subject all that the clip fills.
    pub covers: bool,
}
