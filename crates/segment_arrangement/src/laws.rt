//! Laws of the sides of edges, each the contract of a function that does nothing.

ghost use Rattle.std.specs.Prelude.{◌≡◌, ◌↔◌, true};
ghost use Rattle.segment_arrangement.specs.declared.depth.Depth.{Depth};
ghost use Rattle.segment_arrangement.specs.declared.fill_rule.FillRule.{FillRule};
ghost use Rattle.segment_arrangement.specs.declared.overlay_rule.OverlayRule.{OverlayRule};
ghost use Rattle.segment_arrangement.specs.declared.link.OverlayLink.{OverlayLink};
ghost use Rattle.segment_arrangement.specs.declared.node.OverlayNode.{OverlayNode};
ghost use Rattle.segment_arrangement.specs.declared.graph.VisitState.{VisitState};
ghost use Rattle.segment_arrangement.specs.LinkViews.{is_bridge, places_of};
ghost use Rattle.segment_arrangement.specs.SideLaws.{BelowIsConstant, WindingAlongSegment, SidesAreConstant, WindingIsLastUpper, SignsSumToRegion};
ghost use Rattle.segment_arrangement.specs.SideLaws.{FilledIsBounded};
ghost use Rattle.segment_arrangement.specs.RuleLaws.{OnceIsPositive, AlikeRulesLinkAlike};
ghost use Rattle.segment_arrangement.specs.GroupSides.{GroupsFillAlone};
ghost use Rattle.segment_arrangement.specs.FanLaws.{FanSides, AngleIsLawful, LiveListTells, LiveEdgesAreOrdered, LiveListIsKept};
ghost use Rattle.segment_arrangement.specs.Rings.{PointsHaveRings, NodeRing, BoundaryAlternates, SectorsAreWhole, BoundaryIsEven};

use crate::depth::Depth;
use crate::fill_rule::FillRule;
use crate::graph::VisitState;
use crate::link::OverlayLink;
use crate::node::OverlayNode;
use crate::overlay_rule::OverlayRule;
use plane_base::equality::equality_of_segments;
use plane_base::int::OverlayInt;

/// What passes below a segment is the same at each of its columns, where the segment is parted from all edges of a balanced map.
pub fn below_is_constant()
    ensures { BelowIsConstant }
{}

/// The winding at an inner point of such a segment is what passes below the segment, and the same at all its inner points.
pub fn winding_along_segment()
    ensures { WindingAlongSegment }
{}

/// The winding is the same at every inner point of an edge, so the edge has two sides.
pub fn sides_are_constant()
    ensures { SidesAreConstant }
{}

/// The winding at a point is the upper side of the last of the edges below it.
pub fn winding_is_last_upper()
    ensures { WindingIsLastUpper }
{}

/// The signs of the edges below a point tell whether the region is there.
pub fn signs_sum_to_region()
    ensures { SignsSumToRegion }
{}

/// A region is somewhere just where some edge bounds it: on a side of an edge, or at a rational point.
pub fn filled_is_bounded()
    ensures { FilledIsBounded }
{}

/// At least once is above 0: `AtLeast` of 1 fills as `Positive` does.
pub fn once_is_positive()
    ensures { OnceIsPositive }
{}

/// Rules that fill alike give a map, and a string map, the same links, and each overlay rule the same boundary.
pub fn alike_rules_link_alike()
    ensures { AlikeRulesLinkAlike }
{}

/// Groups of an arrangement's edges, in boxes no two of which share a point, are arrangements of their own. Each has the windings,
/// sides, fills and boundaries that the whole map has in its box.
pub fn groups_fill_alone()
    ensures { GroupsFillAlone }
{}

/// At a point at which edges start, the first of them by angle has below it what lies below the point, and each next one what
/// the one before it has above it.
pub fn fan_sides()
    ensures { FanSides }
{}

/// Among parted edges that start at one point the order by angle is a strict total one.
pub fn angle_is_lawful()
    ensures { AngleIsLawful }
{}

/// At a point at which an edge starts, the last below it of the live edges that start before it tells the winding there.
pub fn live_list_tells()
    ensures { LiveListTells }
{}

/// The edges that reach over one column are in a strict total order there, and answer a query for a point along it.
pub fn live_edges_are_ordered()
    ensures { LiveEdgesAreOrdered }
{}

/// The live edges at the next point are those at this one and those that start here, as far as they reach.
pub fn live_list_is_kept()
    ensures { LiveListIsKept }
{}

/// Each point has a ring.
pub fn points_have_rings()
    ensures { PointsHaveRings }
{}

/// Round a point the left side of each edge is the right side of the next, from what lies below the point and back to it.
pub fn node_ring()
    ensures { NodeRing }
{}

/// Round a point the region is by turns on the left and on the right of its boundary.
pub fn boundary_alternates()
    ensures { BoundaryAlternates }
{}

/// Round a point the region goes on from each edge to the next, also where only some edges are looked at, if all that bound the
/// region are among them.
pub fn sectors_are_whole()
    ensures { SectorsAreWhole }
{}

/// An even number of the boundary's links meet at each point.
pub fn boundary_is_even()
    ensures { BoundaryIsEven }
{}

/// Links are equal to themselves alone where `==` tells their data apart, nodes where they are of one variant and have the same places
/// in order, and states to themselves alone.
pub fn equality_of_graphs<I: OverlayInt, D: PartialEq>()
    ensures of_links { ((x y : D) → (D.eq x y ≡ true) ↔ (x ≡ y)) → (a b : OverlayLink I D) →
        (⟦<OverlayLink<I, D> as PartialEq>⟧.eq a b ≡ true) ↔ (a ≡ b) }
    ensures of_nodes { (a b : OverlayNode) → (⟦<OverlayNode as PartialEq>⟧.eq a b ≡ true)
        ↔ ((is_bridge a ≡ is_bridge b) × (places_of a ≡ places_of b)) }
    ensures of_states { (a b : VisitState) → (⟦<VisitState as PartialEq>⟧.eq a b ≡ true) ↔ (a ≡ b) }
{
    equality_of_segments::<I>();
}

/// Depths and rules are equal to themselves alone.
pub fn equality_of_rules()
    ensures of_depths { (a b : Depth) → (⟦<Depth as PartialEq>⟧.eq a b ≡ true) ↔ (a ≡ b) }
    ensures of_fills { (a b : FillRule) → (⟦<FillRule as PartialEq>⟧.eq a b ≡ true) ↔ (a ≡ b) }
    ensures of_overlays { (a b : OverlayRule) → (⟦<OverlayRule as PartialEq>⟧.eq a b ≡ true) ↔ (a ≡ b) }
{}
