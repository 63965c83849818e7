//! The first word of a request and the five words of an overlay, each parsed into an enum once.

ghost use Rattle.std.specs.Prelude.{◌≡◌, ◌≢◌, ◌↔◌, IsTrue, IfSome, IfNone};
ghost use Rattle.polybool.specs.Names.{request_word, rule_word, SpellsFill, strategy_word, direction_word, keep_word};
ghost use Rattle.polybool.specs.declared.words.Name.{Name};
ghost use Rattle.polybool.specs.declared.words.Keep.{Keep};
ghost use Rattle.segment_arrangement.specs.declared.overlay_rule.OverlayRule.{OverlayRule};
ghost use Rattle.segment_arrangement.specs.declared.fill_rule.FillRule.{FillRule};
ghost use Rattle.segment_split.specs.declared.solver.Strategy.{Strategy};
ghost use Rattle.contour_walk.specs.declared.contour_direction.ContourDirection.{ContourDirection};

use crate::numeral;
use contour_walk::contour_direction::ContourDirection;
use segment_arrangement::fill_rule::FillRule;
use segment_arrangement::overlay_rule::OverlayRule;
use segment_split::solver::Strategy;

/// Whether a word is this one.
pub fn is(word: &[u8], name: &str) -> bool
    ensures { IsTrue result ↔ (word.now ≡ name.now) }
{
    word == name.as_bytes()
}

/// What a request is, by its first word.
#[derive(Clone, Copy, Debug, PartialEq, Eq)]
pub enum Name {
    Subject,
    Clip,
    Overlay,
    Relate,
    Locate,
    Area,
    Reset,
}

impl Name {
    /// The request that a word names.
    pub fn parse(word: &[u8]) -> Option<Name>
        ensures found { IfSome result (λ name. word.now ≡ request_word name) }
        ensures none { IfNone result ((name : Name) → word.now ≢ request_word name) }
    {
        if is(word, "subject") {
            Some(Name::Subject)
        } else if is(word, "clip") {
            Some(Name::Clip)
        } else if is(word, "overlay") {
            Some(Name::Overlay)
        } else if is(word, "relate") {
            Some(Name::Relate)
        } else if is(word, "locate") {
            Some(Name::Locate)
        } else if is(word, "area") {
            Some(Name::Area)
        } else if is(word, "reset") {
            Some(Name::Reset)
        } else {
            None
        }
    }
}

/// The overlay rule that a word names.
pub fn parse_rule(word: &[u8]) -> Option<OverlayRule>
    ensures found { IfSome result (λ rule. word.now ≡ rule_word rule) }
    ensures none { IfNone result ((rule : OverlayRule) → word.now ≢ rule_word rule) }
{
    if is(word, "subject") {
        Some(OverlayRule::Subject)
    } else if is(word, "clip") {
        Some(OverlayRule::Clip)
    } else if is(word, "intersect") {
        Some(OverlayRule::Intersect)
    } else if is(word, "union") {
        Some(OverlayRule::Union)
    } else if is(word, "difference") {
        Some(OverlayRule::Difference)
    } else if is(word, "inverse") {
        Some(OverlayRule::InverseDifference)
    } else if is(word, "xor") {
        Some(OverlayRule::Xor)
    } else {
        None
    }
}

/// The fill rule that a word names.
pub fn parse_fill(word: &[u8]) -> Option<FillRule>
    ensures found { IfSome result (λ fill. SpellsFill word.now fill) }
    ensures none { IfNone result ((fill : FillRule) → SpellsFill word.now fill → ⊥) }
{
    if is(word, "evenodd") {
        Some(FillRule::EvenOdd)
    } else if is(word, "nonzero") {
        Some(FillRule::NonZero)
    } else if is(word, "positive") {
        Some(FillRule::Positive)
    } else if is(word, "negative") {
        Some(FillRule::Negative)
    } else {
        let digits = word.strip_prefix("atleast:".as_bytes())?;
        Some(FillRule::AtLeast(numeral::parse_depth(digits)?))
    }
}

/// The strategy that a word names.
pub fn parse_strategy(word: &[u8]) -> Option<Strategy>
    ensures found { IfSome result (λ strategy. word.now ≡ strategy_word strategy) }
    ensures none { IfNone result ((strategy : Strategy) → word.now ≢ strategy_word strategy) }
{
    if is(word, "list") {
        Some(Strategy::List)
    } else if is(word, "tree") {
        Some(Strategy::Tree)
    } else if is(word, "frag") {
        Some(Strategy::Frag)
    } else if is(word, "auto") {
        Some(Strategy::Auto)
    } else {
        None
    }
}

/// The direction of outlines that a word names.
pub fn parse_direction(word: &[u8]) -> Option<ContourDirection>
    ensures found { IfSome result (λ direction. word.now ≡ direction_word direction) }
    ensures none { IfNone result ((direction : ContourDirection) → word.now ≢ direction_word direction) }
{
    if is(word, "ccw") {
        Some(ContourDirection::CounterClockwise)
    } else if is(word, "cw") {
        Some(ContourDirection::Clockwise)
    } else {
        None
    }
}

/// Which points of the answer are kept.
#[derive(Clone, Copy, Debug, PartialEq, Eq)]
pub enum Keep {
    Corners,
    Points,
}

impl Keep {
    /// What a word says to keep.
    pub fn parse(word: &[u8]) -> Option<Keep>
        ensures found { IfSome result (λ keep. word.now ≡ keep_word keep) }
        ensures none { IfNone result ((keep : Keep) → word.now ≢ keep_word keep) }
    {
        if is(word, "corners") {
            Some(Keep::Corners)
        } else if is(word, "points") {
            Some(Keep::Points)
        } else {
            None
        }
    }
}
