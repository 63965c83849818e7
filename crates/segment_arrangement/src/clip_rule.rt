//! Which lines a clip keeps: a truth table over the bits of a fill, in constant time. Degenerate cases: a segment that
//! no line runs along is never kept.

ghost use Rattle.std.specs.Prelude.{◌≡◌};

use crate::fill::{CLIP_BOTTOM, CLIP_TOP, SUBJ_BOTTOM, SUBJ_TOP, SegmentFill, has};

/// Which segments that lines run along a clip keeps: those in the subject, or inverted all others.
#[derive(Clone, Copy, Debug, PartialEq, Eq)]
pub struct ClipRule {
    /// Whether segments that are not in the subject are kept in place of those that are.
    pub invert: bool,
    /// Whether a segment is in the subject that has it on one side alone.
    pub boundary_included: bool,
}

impl ClipRule {
    ghost use Rattle.segment_arrangement.specs.Clips.{keeps};

    /// Whether a segment of a string map with this fill is kept. None is that no line runs along.
    pub fn keeps(self, fill: SegmentFill) -> bool
        ensures { result ≡ keeps self fill }
    {
        let has_line = has(CLIP_TOP, fill) || has(CLIP_BOTTOM, fill);
        let top = has(SUBJ_TOP, fill);
        let bottom = has(SUBJ_BOTTOM, fill);
        let is_in_subject = if self.boundary_included {
            top || bottom
        } else {
            top && bottom
        };
        has_line && is_in_subject != self.invert
    }
}
