//! The fill of a segment: which of its sides subject and clip fill, a bit for each.
//!
//! Degenerate cases: the top of a vertical segment is its left side, the bottom its right side. Each call takes
//! constant time.

ghost use Rattle.std.specs.Prelude.{◌≡◌, ◌≤◌, ◌+◌, ◌*◌, ◌∷◌, []};
ghost use Rattle.segment_arrangement.specs.EdgeSides.{bit, fill_bits};
ghost use Rattle.segment_arrangement.specs.Fills.{has};
ghost use Rattle.segment_arrangement.specs.RuleViews.{fill_rule_of};

use crate::fill_rule::FillRule;
use segment_split::count::ShapeCountBoolean;

/// The sides that subject and clip fill, a bit for each.
pub type SegmentFill = u8;

/// No side.
pub const NONE: SegmentFill = 0;

/// The subject fills the top.
pub const SUBJ_TOP: SegmentFill = 1;

/// The subject fills the bottom.
pub const SUBJ_BOTTOM: SegmentFill = 2;

/// The clip fills the top.
pub const CLIP_TOP: SegmentFill = 4;

/// The clip fills the bottom.
pub const CLIP_BOTTOM: SegmentFill = 8;

/// The subject fills both sides.
pub const SUBJ_BOTH: SegmentFill = 3;

/// The clip fills both sides.
pub const CLIP_BOTH: SegmentFill = 12;

/// Both fill the top.
pub const BOTH_TOP: SegmentFill = 5;

/// Both fill the bottom.
pub const BOTH_BOTTOM: SegmentFill = 10;

/// Both fill both sides.
pub const ALL: SegmentFill = 15;

/// The named fills: `NONE`, the four sides, both sides of subject and of clip, both tops, both bottoms, and `ALL`.
pub fn named_fills() -> [SegmentFill; 10]
    ensures { result ≡ 0 ∷ 1 ∷ 2 ∷ 4 ∷ 8 ∷ 3 ∷ 12 ∷ 5 ∷ 10 ∷ 15 ∷ [] }
{
    [
        NONE,
        SUBJ_TOP,
        SUBJ_BOTTOM,
        CLIP_TOP,
        CLIP_BOTTOM,
        SUBJ_BOTH,
        CLIP_BOTH,
        BOTH_TOP,
        BOTH_BOTTOM,
        ALL,
    ]
}

/// Whether the fill has the bit of a side.
pub fn has(side: SegmentFill, fill: SegmentFill) -> bool
    ensures { result ≡ has side fill }
{
    fill & side != 0
}

// The fill of a segment with these counts below and above it.
pub(crate) fn fill_of_counts(
    rule: FillRule,
    bottom: ShapeCountBoolean,
    top: ShapeCountBoolean,
) -> SegmentFill
    ensures { result ≡ fill_bits (fill_rule_of rule) bottom top }
{
    let subject = bits(rule.fills(top.subj), rule.fills(bottom.subj), SUBJ_TOP);
    let clip = bits(rule.fills(top.clip), rule.fills(bottom.clip), CLIP_TOP);
    subject + clip
}

// The bits of two sides: the one given for the top, twice as much for the bottom.
pub(crate) fn bits(top: bool, bottom: bool, top_bit: u8) -> u8
    requires { top_bit ≤ 4 }
    ensures { result ≡ bit top top_bit + bit bottom (2 * top_bit) }
{
    let top = if top { top_bit } else { 0 };
    let bottom = if bottom { 2 * top_bit } else { 0 };
    top + bottom
}
