//! Which fills the filters take: those of overlay rules where the rule holds on one side alone, those of clips where a line runs along.

use super::{RULES, fill_rules};
use segment_arrangement::clip_rule::ClipRule;
use segment_arrangement::fill::{
    ALL, BOTH_BOTTOM, BOTH_TOP, CLIP_BOTH, CLIP_BOTTOM, CLIP_TOP, NONE, SUBJ_BOTH, SUBJ_BOTTOM,
    SUBJ_TOP, SegmentFill, has, named_fills,
};
use segment_arrangement::filter::{
    ClipFilter, ClipInsideBoundaryExcludedFilter, ClipInsideBoundaryIncludedFilter,
    ClipOutsideBoundaryExcludedFilter, ClipOutsideBoundaryIncludedFilter, DifferenceFilter,
    InclusionFilterStrategy, IntersectFilter, InverseDifferenceFilter, SubjectFilter, UnionFilter,
    XorFilter,
};
use std::fmt::Write;
use std::test::Fail;

// For each fill from 0 to 15, from the left: 1 where the filter takes it.
fn row<F: InclusionFilterStrategy>() -> u16 {
    let mut row = 0;
    for fill in 0..16_u8 {
        if F::is_included(fill) {
            row |= 0x8000 >> fill;
        }
    }
    row
}

#[test]
fn filters_by_fill(rt: HostRuntime) {
    let rows = [
        row::<SubjectFilter>(),
        row::<ClipFilter>(),
        row::<IntersectFilter>(),
        row::<UnionFilter>(),
        row::<DifferenceFilter>(),
        row::<InverseDifferenceFilter>(),
        row::<XorFilter>(),
    ];
    let wanted = [
        0b01100110_01100110,
        0b00001111_11110000,
        0b00000101_00110110,
        0b01101100_10100000,
        0b01100011_01010000,
        0b00001010_11000110,
        0b01101001_10010110,
    ];
    assert!(rt; rows == wanted);
}

// The row of a clip rule.
fn kept(invert: bool, boundary_included: bool) -> u16 {
    let rule = ClipRule {
        invert,
        boundary_included,
    };
    let mut row = 0;
    for fill in 0..16_u8 {
        if rule.keeps(fill) {
            row |= 0x8000 >> fill;
        }
    }
    row
}

// No fill below 4 has a line. 3, 7, 11 and 15 have the subject on both sides, 0, 4, 8 and 12 on neither.
#[test]
fn clips_by_fill(rt: HostRuntime) {
    let rows = [
        row::<ClipInsideBoundaryExcludedFilter>(),
        row::<ClipInsideBoundaryIncludedFilter>(),
        row::<ClipOutsideBoundaryExcludedFilter>(),
        row::<ClipOutsideBoundaryIncludedFilter>(),
    ];
    let wanted = [
        0b00000001_00010001,
        0b00000111_01110111,
        0b00001110_11101110,
        0b00001000_10001000,
    ];
    assert!(rt; rows == wanted);
    assert!(rt;
        [
            kept(false, false),
            kept(false, true),
            kept(true, false),
            kept(true, true)
        ] == wanted
    );
}

#[test]
fn sides_of_fills(rt: HostRuntime) {
    let rows: [(SegmentFill, [bool; 4]); 6] = [
        (NONE, [false, false, false, false]),
        (SUBJ_BOTH, [true, true, false, false]),
        (CLIP_BOTH, [false, false, true, true]),
        (BOTH_TOP, [true, false, true, false]),
        (BOTH_BOTTOM, [false, true, false, true]),
        (ALL, [true, true, true, true]),
    ];
    for i in 0..6 {
        let (fill, wanted) = rows[i];
        let sides = [
            has(SUBJ_TOP, fill),
            has(SUBJ_BOTTOM, fill),
            has(CLIP_TOP, fill),
            has(CLIP_BOTTOM, fill),
        ];
        assert!(rt; sides == wanted);
    }
}

#[test]
fn numbers_of_fills(rt: HostRuntime) {
    assert!(rt; named_fills() == [0, 1, 2, 4, 8, 3, 12, 5, 10, 15]);
}

// The texts of the rules.
#[test]
fn names_of_rules(rt: HostRuntime) -> Result<(), Fail> {
    let mut text = String::new(rt.alloc());
    for rule in fill_rules() {
        write!(text, "{rule} ")?;
    }
    for rule in RULES {
        write!(text, "{rule} ")?;
    }
    let fills = "EvenOdd NonZero Positive Negative AtLeast(1) AtLeast(2) ";
    let rules = "Subject Clip Intersect Union Difference InverseDifference Xor ";
    assert!(rt; text.strip_prefix(fills) == Some(rules));
    Ok(())
}
