//! Overlays: subject and clip contours go in, and shapes come out, query by query. The calls stand below, by what they do; `query`
//! has the stages that they share.

ghost use Rattle.polygon_overlay.specs.Builders.{IsHeld};

mod build;
mod flat;
mod graph;
mod hierarchy;
mod old_names;
mod query;
mod simplify;
mod vectors;

pub(crate) use build::count_of_type;
use contour_walk::extract::BooleanExtractionBuffer;
use contour_walk::options::IntOverlayOptions;
use plane_base::int::OverlayInt;
use segment_arrangement::builder::GraphBuilder;
use segment_split::count::ShapeCountBoolean;
use segment_split::given::held::Held;
use segment_split::solver::Solver;
use std::alloc::Global;

/// Takes subject and clip contours, and answers overlays of them.
#[derive(Drop)]
pub struct Overlay<I: OverlayInt> {
    /// How segments are cut.
    pub solver: Solver,
    /// How contours are taken and answered.
    pub options: IntOverlayOptions,
    /// Storage of extractions. No answer depends on it.
    pub boolean_buffer: Option<BooleanExtractionBuffer<I>>,
    held: Held<ShapeCountBoolean, I, ()>,
    graph_builder: GraphBuilder<I, ()>,
    alloc: Global,
    ghost balanced: { IsHeld I.least I.greatest held.edges },
}
