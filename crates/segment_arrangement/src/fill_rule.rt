//! Which windings are filled: a test of one number, in constant time. Degenerate cases: no rule fills a winding of 0.

ghost use Rattle.std.specs.Prelude.{◌≡◌, ◌↔◌, ◌≤ℤ◌, IsTrue, Some};
ghost use Rattle.plane_base.specs.Regions.{is_filled};
ghost use Rattle.segment_arrangement.specs.Depths.{windings_of};
ghost use Rattle.segment_arrangement.specs.RuleViews.{fill_rule_of};
ghost use Rattle.segment_arrangement.specs.RuleTexts.{fill_rule_text};
ghost use Rattle.segment_arrangement.specs.declared.fill_rule.FillRule.TheVariants.{AtLeast};

use crate::depth::Depth;
use std::fmt;
use std::fmt::{Display, Formatter, Write};

/// How a winding fills. Its text is the variant's name, `AtLeast(n)` with n in decimal.
#[derive(Clone, Copy, Debug, PartialEq, Eq)]
pub enum FillRule {
    /// Where it is odd.
    EvenOdd,
    /// Where it is not 0.
    NonZero,
    /// Where it is above 0.
    Positive,
    /// Where it is below 0.
    Negative,
    /// Where it is of this depth or deeper.
    AtLeast(Depth),
}

impl FillRule {
    /// Whether what has this winding is filled.
    pub fn is_filled(self, winding: i128) -> bool
        ensures is { result ≡ is_filled (fill_rule_of self) winding }
        ensures at_least { (depth : _) → self ≡ AtLeast depth → IsTrue result ↔ (windings_of depth ≤ℤ winding) }
    {
        match self {
            FillRule::EvenOdd => winding % 2 != 0,
            FillRule::NonZero => winding != 0,
            FillRule::Positive => winding > 0,
            FillRule::Negative => winding < 0,
            FillRule::AtLeast(depth) => winding >= i128::from(depth.get()),
        }
    }

    // Whether what has this number of a count is filled.
    pub(crate) fn fills(self, number: i32) -> bool
        ensures { result ≡ is_filled (fill_rule_of self) number }
    {
        match self {
            FillRule::EvenOdd => number % 2 != 0,
            FillRule::NonZero => number != 0,
            FillRule::Positive => number > 0,
            FillRule::Negative => number < 0,
            FillRule::AtLeast(depth) => number >= depth.get(),
        }
    }
}

impl Display for FillRule {
    ghost output = { λ rule. Some (fill_rule_text rule) };

    fn fmt<W: Write>(&self, f: &mut Formatter<W>) -> fmt::Result {
        match self {
            FillRule::EvenOdd => f.write_str("EvenOdd"),
            FillRule::NonZero => f.write_str("NonZero"),
            FillRule::Positive => f.write_str("Positive"),
            FillRule::Negative => f.write_str("Negative"),
            FillRule::AtLeast(depth) => write!(f, "AtLeast({})", depth.get()),
        }
    }
}
