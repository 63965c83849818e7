//! Which points an overlay of subject and clip keeps: truth tables of seven rules, in constant time. Degenerate cases:
//! what neither fills no rule keeps.

ghost use Rattle.std.specs.Prelude.{◌≡◌, Some};
ghost use Rattle.plane_base.specs.Regions.{holds};
ghost use Rattle.segment_arrangement.specs.RuleViews.{overlay_rule_of};
ghost use Rattle.segment_arrangement.specs.RuleTexts.{overlay_rule_text};

use std::fmt;
use std::fmt::{Display, Formatter, Write};

/// A boolean operation on the points that the subject fills and those that the clip fills. Its text is the variant's
/// name. With subject and clip exchanged all but `Difference` and `InverseDifference` keep the same, but for `Subject` and
/// `Clip`, which are exchanged too.
#[derive(Clone, Copy, Debug, PartialEq, Eq)]
pub enum OverlayRule {
    /// Those of the subject.
    Subject,
    /// Those of the clip.
    Clip,
    /// Those of both.
    Intersect,
    /// Those of either.
    Union,
    /// Those of the subject and not of the clip.
    Difference,
    /// Those of the clip and not of the subject.
    InverseDifference,
    /// Those of exactly one of the two.
    Xor,
}

impl OverlayRule {
    /// Whether a point is kept, by whether subject and clip fill it.
    pub fn holds(self, subject: bool, clip: bool) -> bool
        ensures { result ≡ holds (overlay_rule_of self) subject clip }
    {
        match self {
            OverlayRule::Subject => subject,
            OverlayRule::Clip => clip,
            OverlayRule::Intersect => subject && clip,
            OverlayRule::Union => subject || clip,
            OverlayRule::Difference => subject && !clip,
            OverlayRule::InverseDifference => clip && !subject,
            OverlayRule::Xor => subject != clip,
        }
    }
}

impl Display for OverlayRule {
    ghost output = { λ rule. Some (overlay_rule_text rule) };

    fn fmt<W: Write>(&self, f: &mut Formatter<W>) -> fmt::Result {
        f.write_str(match self {
            OverlayRule::Subject => "Subject",
            OverlayRule::Clip => "Clip",
            OverlayRule::Intersect => "Intersect",
            OverlayRule::Union => "Union",
            OverlayRule::Difference => "Difference",
            OverlayRule::InverseDifference => "InverseDifference",
            OverlayRule::Xor => "Xor",
        })
    }
}
