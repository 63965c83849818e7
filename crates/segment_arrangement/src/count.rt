//! Kinds of counts whose segments can be swept: what a count adds from the lower side of a segment to the upper one, and which fill
//! is told. Degenerate cases: what a string's lines count adds nothing. Each call takes constant time.

ghost use Rattle.std.specs.Prelude.{◌≡◌, ℕ};
ghost use Rattle.plane_base.specs.Counts.{Count, boolean};
ghost use Rattle.plane_base.specs.Regions.{FillRule as Rule};
ghost use Rattle.segment_arrangement.specs.RuleViews.{fill_rule_of};
ghost use Rattle.segment_arrangement.specs.Seen.{boolean_fill};
ghost use Rattle.segment_arrangement.specs.Strings.{subject_alone, string_fill};

use crate::fill::{SUBJ_TOP, SegmentFill, bits, fill_of_counts};
use crate::fill_rule::FillRule;
use segment_split::count::{ShapeCountBoolean, ShapeCountString, WindingCount};

/// A kind of counts of segments that lie between two sides.
pub trait FilledCount: WindingCount {
    /// What a count adds from the lower side of its segment to the upper one.
    ghost sides: { Self → Count };

    /// The fill of a segment by a rule, of what lies below it and its count.
    ghost filled: { Rule → Count → Self → ℕ };

    /// What the count adds from the lower side of its segment to the upper one.
    fn sides(self) -> ShapeCountBoolean
        ensures { result ≡ sides self };

    /// The fill of a segment with this count, and with these windings below and above it.
    fn fill(self, rule: FillRule, bottom: ShapeCountBoolean, top: ShapeCountBoolean) -> SegmentFill
        requires { top ≡ boolean.join bottom (sides self) }
        ensures { result ≡ filled (fill_rule_of rule) bottom self };
}

/// Boolean counts add themselves, and the fill tells the sides that subject and clip fill.
impl FilledCount for ShapeCountBoolean {
    ghost sides = { λ c. c };

    ghost filled = { boolean_fill };

    fn sides(self) -> ShapeCountBoolean {
        self
    }

    fn fill(
        self,
        rule: FillRule,
        bottom: ShapeCountBoolean,
        top: ShapeCountBoolean,
    ) -> SegmentFill {
        fill_of_counts(rule, bottom, top)
    }
}

/// String counts add their subjects alone. The fill tells the sides that the subject fills, and in the place of the clip's bits which
/// ways lines run: 4 where one runs forward, 8 where one runs back.
impl FilledCount for ShapeCountString {
    ghost sides = { subject_alone };

    ghost filled = { string_fill };

    fn sides(self) -> ShapeCountBoolean {
        ShapeCountBoolean {
            subj: self.subj,
            clip: 0,
        }
    }

    fn fill(
        self,
        rule: FillRule,
        bottom: ShapeCountBoolean,
        top: ShapeCountBoolean,
    ) -> SegmentFill {
        bits(rule.fills(top.subj), rule.fills(bottom.subj), SUBJ_TOP) + 4 * self.clip
    }
}
