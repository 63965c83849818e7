//! The area of a contour, as two halves of a number of 128 bits. It takes linear time.

ghost use Rattle.std.specs.Prelude.{◌≡◌, ◌+◌, ◌*◌, ◌^◌, IfOk, IfErr};
ghost use Rattle.std.specs.Int.{w128, cast_unsigned};
ghost use Rattle.polygon_c.specs.Measuring.{IsAreaOf, IsUnmeasured, IsAreaCall, IsWideAreaCall};

use crate::given::{CPoint, CPoint64, CPointOf, are_in_range, engine_points};
use crate::refusal::Refusal;
use polygon_overlay::plane::area::doubled_area;
use polygon_overlay::plane::int::OverlayInt;
use polygon_overlay::plane::point::IntPoint;
use std::alloc::Global;

// The areas of so many points can be summed, whatever the type of their coordinates.
const MOST_POINTS: usize = 9_007_199_254_740_992;

/// A signed number of 128 bits in two's complement: its low 64 bits, and its high ones.
#[derive(Clone, Copy, Debug, PartialEq, Eq)]
#[repr(C)]
pub struct Wide {
    pub low: u64,
    pub high: u64,
}

/// Tells twice the signed area of a contour, above 0 where it runs counterclockwise.
///
/// Where the status isn't 0 a point is out of range or memory is refused, and the area stays as it was.
#[unsafe(no_mangle)]
pub extern "C" fn polygon_c_area(alloc: Global, points: &[CPoint], area: &mut Wide) -> u32
    ensures { IsAreaCall points.now area.old area.new result }
{
    match measure::<i32, CPoint>(alloc, points) {
        Ok(found) => {
            *area = found;
            0
        }
        Err(refusal) => refusal.status(),
    }
}

/// `polygon_c_area` with coordinates of 64 bits.
#[unsafe(no_mangle)]
pub extern "C" fn polygon_c_area64(alloc: Global, points: &[CPoint64], area: &mut Wide) -> u32
    ensures { IsWideAreaCall points.now area.old area.new result }
{
    match measure::<i64, CPoint64>(alloc, points) {
        Ok(found) => {
            *area = found;
            0
        }
        Err(refusal) => refusal.wide_status(),
    }
}
// Twice the signed area of a contour, or why it isn't told. Where 128 bits may not hold it no memory holds the contour.
fn measure<I: OverlayInt, P: CPointOf<I>>(alloc: Global, points: &[P]) -> Result<Wide, Refusal>
    ensures answered { IfOk result (IsAreaOf P.plane I.least I.greatest points.now) }
    ensures refused { IfErr result (IsUnmeasured P.plane I.least I.greatest points.now) }
{
    if !are_in_range::<I, P>(points) {
        return Err(Refusal::Range);
    }
    if points.len() > MOST_POINTS {
        return Err(Refusal::Memory);
    }
    let contour: Vec<IntPoint<I>> = engine_points(alloc, points)?;
    Ok(halves_of(doubled_area(&contour)))
}

// The two halves of a number.
fn halves_of(number: i128) -> Wide
    ensures { result.low + result.high * 2 ^ 64 ≡ cast_unsigned w128 number }
{
    let bits = number.cast_unsigned();
    Wide {
        low: (bits % 18_446_744_073_709_551_616) as u64,
        high: (bits / 18_446_744_073_709_551_616) as u64,
    }
}
