//! How values are counted off from the least one, at several types.

use i_tree::seg::layout::{LayoutNumber, LayoutUInt};

#[test]
fn counts_from_the_least_value(rt: HostRuntime) {
    assert_eq!(rt; i8::range_span(-128, 127), Some(255));
    assert_eq!(rt; u16::range_span(7, 7), Some(0));
    assert_eq!(rt; i32::range_span(1, 0), None);
    assert_eq!(rt; i64::range_span(i64::MIN, i64::MAX), Some(u64::MAX));
    assert_eq!(rt; LayoutNumber::offset_from(127_i8, -128), 255);
    assert_eq!(rt; LayoutNumber::offset_from(9_u64, 2), 7);
    assert_eq!(rt; LayoutNumber::offset_from(i64::MAX, i64::MIN), u64::MAX);
}

#[test]
fn tells_the_highest_bit(rt: HostRuntime) {
    assert_eq!(rt; LayoutUInt::ilog2(1_u8), 0);
    assert_eq!(rt; LayoutUInt::ilog2(255_u8), 7);
    assert_eq!(rt; LayoutUInt::ilog2(u64::MAX), 63);
    assert_eq!(rt; LayoutUInt::to_u32(65535_u16), 65535);
    assert_eq!(rt; LayoutUInt::to_u32(4294967295_u64), 4294967295);
}
