//! Which segments bound the region of an overlay rule, and which of them a clip keeps: truth tables over their fills,
//! in constant time. Degenerate cases: with the region on both sides, or on neither, a segment bounds nothing.

ghost use Rattle.std.specs.Prelude.{◌≡◌, ℕ, Bool, true, false};
ghost use Rattle.plane_base.specs.Regions.{Subject, Clip, Intersect, Union, Difference, InverseDifference, Xor};
ghost use Rattle.segment_arrangement.specs.Clips.{keeps};
ghost use Rattle.segment_arrangement.specs.Fills.{tells_apart};
ghost use Rattle.segment_arrangement.specs.RuleViews.{overlay_rule_of};

use crate::clip_rule::ClipRule;
use crate::fill::{CLIP_BOTTOM, CLIP_TOP, SUBJ_BOTTOM, SUBJ_TOP, SegmentFill, has};
use crate::overlay_rule::OverlayRule;

/// A test of a segment's fill.
pub trait InclusionFilterStrategy {
    /// The fills that pass.
    ghost includes: { ℕ → Bool };

    /// Whether a segment with this fill passes.
    fn is_included(fill: SegmentFill) -> bool
        ensures { result ≡ includes fill };
}

impl OverlayRule {
    /// Whether a segment with this fill bounds the rule's region: the rule holds on one of its sides alone.
    pub fn tells_apart(self, fill: SegmentFill) -> bool
        ensures { result ≡ tells_apart (overlay_rule_of self) fill }
    {
        let top = self.holds(has(SUBJ_TOP, fill), has(CLIP_TOP, fill));
        let bottom = self.holds(has(SUBJ_BOTTOM, fill), has(CLIP_BOTTOM, fill));
        top != bottom
    }
}

/// The segments that bound the region of `OverlayRule::Subject`.
#[derive(Clone, Copy, Debug, PartialEq, Eq)]
pub struct SubjectFilter;

impl InclusionFilterStrategy for SubjectFilter {
    ghost includes = { tells_apart Subject };

    fn is_included(fill: SegmentFill) -> bool {
        OverlayRule::Subject.tells_apart(fill)
    }
}

/// The segments that bound the region of `OverlayRule::Clip`.
#[derive(Clone, Copy, Debug, PartialEq, Eq)]
pub struct ClipFilter;

impl InclusionFilterStrategy for ClipFilter {
    ghost includes = { tells_apart Clip };

    fn is_included(fill: SegmentFill) -> bool {
        OverlayRule::Clip.tells_apart(fill)
    }
}

/// The segments that bound the region of `OverlayRule::Intersect`.
#[derive(Clone, Copy, Debug, PartialEq, Eq)]
pub struct IntersectFilter;

impl InclusionFilterStrategy for IntersectFilter {
    ghost includes = { tells_apart Intersect };

    fn is_included(fill: SegmentFill) -> bool {
        OverlayRule::Intersect.tells_apart(fill)
    }
}

/// The segments that bound the region of `OverlayRule::Union`.
#[derive(Clone, Copy, Debug, PartialEq, Eq)]
pub struct UnionFilter;

impl InclusionFilterStrategy for UnionFilter {
    ghost includes = { tells_apart Union };

    fn is_included(fill: SegmentFill) -> bool {
        OverlayRule::Union.tells_apart(fill)
    }
}

/// The segments that bound the region of `OverlayRule::Difference`.
#[derive(Clone, Copy, Debug, PartialEq, Eq)]
pub struct DifferenceFilter;

impl InclusionFilterStrategy for DifferenceFilter {
    ghost includes = { tells_apart Difference };

    fn is_included(fill: SegmentFill) -> bool {
        OverlayRule::Difference.tells_apart(fill)
    }
}

/// The segments that bound the region of `OverlayRule::InverseDifference`.
#[derive(Clone, Copy, Debug, PartialEq, Eq)]
pub struct InverseDifferenceFilter;

impl InclusionFilterStrategy for InverseDifferenceFilter {
    ghost includes = { tells_apart InverseDifference };

    fn is_included(fill: SegmentFill) -> bool {
        OverlayRule::InverseDifference.tells_apart(fill)
    }
}

/// The segments that bound the region of `OverlayRule::Xor`.
#[derive(Clone, Copy, Debug, PartialEq, Eq)]
pub struct XorFilter;

impl InclusionFilterStrategy for XorFilter {
    ghost includes = { tells_apart Xor };

    fn is_included(fill: SegmentFill) -> bool {
        OverlayRule::Xor.tells_apart(fill)
    }
}

/// The segments that lines run along inside the subject, with the subject on both sides.
#[derive(Clone, Copy, Debug, PartialEq, Eq)]
pub struct ClipInsideBoundaryExcludedFilter;

impl InclusionFilterStrategy for ClipInsideBoundaryExcludedFilter {
    ghost includes = { keeps (record { invert = false; boundary_included = false }) };

    fn is_included(fill: SegmentFill) -> bool {
        let rule = ClipRule {
            invert: false,
            boundary_included: false,
        };
        rule.keeps(fill)
    }
}

/// The segments that lines run along inside the subject or on its boundary.
#[derive(Clone, Copy, Debug, PartialEq, Eq)]
pub struct ClipInsideBoundaryIncludedFilter;

impl InclusionFilterStrategy for ClipInsideBoundaryIncludedFilter {
    ghost includes = { keeps (record { invert = false; boundary_included = true }) };

    fn is_included(fill: SegmentFill) -> bool {
        let rule = ClipRule {
            invert: false,
            boundary_included: true,
        };
        rule.keeps(fill)
    }
}

/// The segments that lines run along outside the subject or on its boundary.
#[derive(Clone, Copy, Debug, PartialEq, Eq)]
pub struct ClipOutsideBoundaryExcludedFilter;

impl InclusionFilterStrategy for ClipOutsideBoundaryExcludedFilter {
    ghost includes = { keeps (record { invert = true; boundary_included = false }) };

    fn is_included(fill: SegmentFill) -> bool {
        let rule = ClipRule {
            invert: true,
            boundary_included: false,
        };
        rule.keeps(fill)
    }
}

/// The segments that lines run along outside the subject, with the subject on neither side.
#[derive(Clone, Copy, Debug, PartialEq, Eq)]
pub struct ClipOutsideBoundaryIncludedFilter;

impl InclusionFilterStrategy for ClipOutsideBoundaryIncludedFilter {
    ghost includes = { keeps (record { invert = true; boundary_included = true }) };

    fn is_included(fill: SegmentFill) -> bool {
        let rule = ClipRule {
            invert: true,
            boundary_included: true,
        };
        rule.keeps(fill)
    }
}
