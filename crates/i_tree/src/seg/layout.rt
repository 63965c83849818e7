//! How values fall into 32 buckets of one width, a power of two, so that a shift tells the bucket; more than half of
//! them have values. Degenerate cases: a range that spans fewer than 31 has no buckets. Each call takes constant time.
ghost use Rattle.std.specs.Prelude.{◌≡◌, ℕ, ℤ, pos, ◌+ℤ◌, ◌≤ℤ◌, ◌<ℤ◌, ◌+◌, ◌*◌, ◌/◌, ◌^◌, ◌<◌, ◌≤◌, IfNone, IfSome, IsTrue, ◌↔◌};
ghost use Rattle.i_tree.specs.Layout.{Buckets, bucket_of, offset_of, AreBuckets, IsWidth, BucketsRise, IsAccepted};

use std::marker::Model;
use std::ops::Shr;

/// An unsigned number that says how far two values of a layout lie apart.
pub trait LayoutUInt: Copy + Ord + Shr<u32, Output = Self> {
    /// The number that the value stands for.
    ghost number: { Self → ℕ };

    /// How many bits the type has.
    ghost bits: { ℕ };

    /// The place of the number's highest bit.
    fn ilog2(self) -> u32
        requires { 0 < number self }
        ensures power_le { 2 ^ result ≤ number self }
        ensures next_power_gt { number self < 2 * 2 ^ result }
        ensures bound { result < bits };

    /// The number as a `u32`, which it fits.
    fn to_u32(self) -> u32
        requires { number self < 2 ^ 32 }
        ensures { result ≡ number self };

    /// A shift to the right by less than the type's bits may be made.
    ghost can_shift: { (a : Self) (k : ℕ) → k < bits → Self.can_shr a k };

    /// It divides by a power of two.
    ghost shift_divides: { (a : Self) (k : ℕ) (r : Self) → Self.shr_gives a k r → number r ≡ number a / 2 ^ k };
}

/// A number whose values fall into buckets.
pub trait LayoutNumber: Copy + Ord {
    /// How far two values lie apart.
    type UInt: LayoutUInt;

    /// The number that the value stands for.
    ghost value: { Self → ℤ };

    /// The end less the start, and None where that is below zero.
    fn range_span(start: Self, end: Self) -> Option<Self::UInt>
        ensures some { IfSome result (λ span. value end ≡ value start +ℤ pos (Self.UInt.number span)) }
        ensures none { IfNone result (value end <ℤ value start) };

    /// The value less the least one.
    fn offset_from(self, min: Self) -> Self::UInt
        requires { value min ≤ℤ value self }
        ensures { value self ≡ value min +ℤ pos (Self.UInt.number result) };
}

impl LayoutUInt for u8 {
    ghost number = { λ x. x };

    ghost bits = { 8 };

    fn ilog2(self) -> u32 {
        u8::ilog2(self)
    }

    fn to_u32(self) -> u32 {
        self as u32
    }

    ghost can_shift = { λ a k h. h };

    ghost shift_divides = { λ a k r h. h };
}

impl LayoutNumber for u8 {
    type UInt = u8;

    ghost value = { pos };

    fn range_span(start: u8, end: u8) -> Option<u8> {
        end.checked_sub(start)
    }

    fn offset_from(self, min: u8) -> u8 {
        self - min
    }
}

impl LayoutNumber for i8 {
    type UInt = u8;

    ghost value = { λ x. x };

    fn range_span(start: i8, end: i8) -> Option<u8> {
        if end < start {
            None
        } else {
            Some(end.abs_diff(start))
        }
    }

    fn offset_from(self, min: i8) -> u8 {
        self.abs_diff(min)
    }
}

impl LayoutUInt for u16 {
    ghost number = { λ x. x };

    ghost bits = { 16 };

    fn ilog2(self) -> u32 {
        u16::ilog2(self)
    }

    fn to_u32(self) -> u32 {
        self as u32
    }

    ghost can_shift = { λ a k h. h };

    ghost shift_divides = { λ a k r h. h };
}

impl LayoutNumber for u16 {
    type UInt = u16;

    ghost value = { pos };

    fn range_span(start: u16, end: u16) -> Option<u16> {
        end.checked_sub(start)
    }

    fn offset_from(self, min: u16) -> u16 {
        self - min
    }
}

impl LayoutNumber for i16 {
    type UInt = u16;

    ghost value = { λ x. x };

    fn range_span(start: i16, end: i16) -> Option<u16> {
        if end < start {
            None
        } else {
            Some(end.abs_diff(start))
        }
    }

    fn offset_from(self, min: i16) -> u16 {
        self.abs_diff(min)
    }
}

impl LayoutUInt for u32 {
    ghost number = { λ x. x };

    ghost bits = { 32 };

    fn ilog2(self) -> u32 {
        u32::ilog2(self)
    }

    fn to_u32(self) -> u32 {
        self as u32
    }

    ghost can_shift = { λ a k h. h };

    ghost shift_divides = { λ a k r h. h };
}

impl LayoutNumber for u32 {
    type UInt = u32;

    ghost value = { pos };

    fn range_span(start: u32, end: u32) -> Option<u32> {
        end.checked_sub(start)
    }

    fn offset_from(self, min: u32) -> u32 {
        self - min
    }
}

impl LayoutNumber for i32 {
    type UInt = u32;

    ghost value = { λ x. x };

    fn range_span(start: i32, end: i32) -> Option<u32> {
        if end < start {
            None
        } else {
            Some(end.abs_diff(start))
        }
    }

    fn offset_from(self, min: i32) -> u32 {
        self.abs_diff(min)
    }
}

impl LayoutUInt for u64 {
    ghost number = { λ x. x };

    ghost bits = { 64 };

    fn ilog2(self) -> u32 {
        u64::ilog2(self)
    }

    fn to_u32(self) -> u32 {
        self as u32
    }

    ghost can_shift = { λ a k h. h };

    ghost shift_divides = { λ a k r h. h };
}

impl LayoutNumber for u64 {
    type UInt = u64;

    ghost value = { pos };

    fn range_span(start: u64, end: u64) -> Option<u64> {
        end.checked_sub(start)
    }

    fn offset_from(self, min: u64) -> u64 {
        self - min
    }
}

impl LayoutNumber for i64 {
    type UInt = u64;

    ghost value = { λ x. x };

    fn range_span(start: i64, end: i64) -> Option<u64> {
        if end < start {
            None
        } else {
            Some(end.abs_diff(start))
        }
    }

    fn offset_from(self, min: i64) -> u64 {
        self.abs_diff(min)
    }
}

impl LayoutUInt for usize {
    ghost number = { λ x. x };

    ghost bits = { 64 };

    fn ilog2(self) -> u32 {
        usize::ilog2(self)
    }

    fn to_u32(self) -> u32 {
        self as u32
    }

    ghost can_shift = { λ a k h. h };

    ghost shift_divides = { λ a k r h. h };
}

impl LayoutNumber for usize {
    type UInt = usize;

    ghost value = { pos };

    fn range_span(start: usize, end: usize) -> Option<usize> {
        end.checked_sub(start)
    }

    fn offset_from(self, min: usize) -> usize {
        self - min
    }
}

impl LayoutNumber for isize {
    type UInt = usize;

    ghost value = { λ x. x };

    fn range_span(start: isize, end: isize) -> Option<usize> {
        if end < start {
            None
        } else {
            Some(end.abs_diff(start))
        }
    }

    fn offset_from(self, min: isize) -> usize {
        self.abs_diff(min)
    }
}

/// The least span that is divided into buckets.
const LEAST_SPAN: u32 = 31;

/// A range of values, with both its ends.
#[derive(Clone, Copy, Debug)]
pub struct SegRange<R> {
    pub min: R,
    pub max: R,
}

/// The 32 buckets of the values of a range. Each has as many values, a power of two.
#[derive(Drop)]
pub(crate) struct Layout<R: LayoutNumber> {
    min: R,
    max: R,
    power: u32,
}

impl<R: LayoutNumber> Model for Layout<R> {
    ghost use Rattle.std.specs.Prelude.{◌^◌, ◌<◌, ◌≤◌, ◌/◌, ◌≤ℤ◌};
    ghost use Rattle.i_tree.specs.Layout.{Buckets, offset_of};

    ghost Value = { Buckets };

    ghost view = { λ s. record { min = R.value s.min; max = R.value s.max; width = 2 ^ s.power } };

    ghost invariant = { λ s. (R.value s.min ≤ℤ R.value s.max) × ((s.power < R.UInt.bits) × (offset_of (R.value s.min) (R.value s.max) / 2 ^ s.power ≤ 31)) };
}

impl<R: LayoutNumber> Layout<R> {
    /// The buckets of the values of the range, and None where it spans fewer than 31.
    pub(crate) fn new(range: SegRange<R>) -> Option<Self>
        ensures none { IfNone result (R.value range.max <ℤ (R.value range.min +ℤ pos 31)) }
        ensures some { IfSome result (λ layout. (R.value range.min +ℤ pos 31) ≤ℤ R.value range.max) }
        ensures buckets { IfSome result (AreBuckets (R.value range.min) (R.value range.max)) }
    {
        let span = R::range_span(range.min, range.max)?;
        if R::range_span(range.max, range.min).is_some() {
            return None;
        }
        let power = width_power(span)?;
        Some(Layout {
            min: range.min,
            max: range.max,
            power,
        })
    }

    /// Whether the range's least value isn't above its greatest, and both have a bucket.
    pub(crate) fn accepts(&self, range: SegRange<R>) -> bool
        ensures accepted { IsTrue result ↔ IsAccepted (R.value range.min) (R.value range.max) self.now }
        ensures rise { BucketsRise self.now }
    {
        R::range_span(self.min, range.min).is_some()
            && R::range_span(range.min, range.max).is_some()
            && R::range_span(range.max, self.max).is_some()
    }

    /// The bucket of a value.
    pub(crate) fn bucket(&self, value: R) -> u32
        requires above { self.now.min ≤ℤ R.value value }
        requires below { R.value value ≤ℤ self.now.max }
        ensures bucket { result ≡ bucket_of self.now (R.value value) }
        ensures within { result ≤ 31 }
        ensures rise { BucketsRise self.now }
    {
        (value.offset_from(self.min) >> self.power).to_u32()
    }
}

// The power of two that is the width of a bucket, and None for a span below 31.
fn width_power<U: LayoutUInt>(span: U) -> Option<u32>
    requires { 0 < U.number span }
    ensures none { IfNone result (U.number span < 31) }
    ensures some { IfSome result (λ power. (31 ≤ U.number span) × ((power < U.bits) × IsWidth (U.number span) (2 ^ power))) }
{
    let power = span.ilog2();
    if power < 4 {
        return None;
    }
    if power == 4 && span.to_u32() < LEAST_SPAN {
        return None;
    }
    Some(power - 4)
}
