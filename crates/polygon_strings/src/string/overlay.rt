//! Shapes and strings: contours of shapes and lines go in, and clipped lines and graphs come out.

ghost use Rattle.polygon_strings.specs.Builders.{IsStringHeld};

mod build;
mod graph;
mod old_names;
mod query;
mod strings;

use contour_walk::options::IntOverlayOptions;
use plane_base::int::OverlayInt;
use segment_arrangement::builder::GraphBuilder;
use segment_split::count::ShapeCountString;
use segment_split::given::held::Held;
use std::alloc::Global;

/// Takes the contours of a shape, and strings that run over it: lines, open paths and closed contours.
///
/// A contour of the shape is thinned. After a refused query every call answers `Failed`.
#[derive(Drop)]
pub struct StringOverlay<I: OverlayInt> {
    /// What extractions may be given. No call reads it.
    pub options: IntOverlayOptions,
    held: Held<ShapeCountString, I, ()>,
    graph_builder: GraphBuilder<I, ()>,
    alloc: Global,
    ghost balanced: { IsStringHeld I.least I.greatest held.edges },
}
