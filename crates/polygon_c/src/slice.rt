//! Shapes that lines part: the tests, a slice by the engine, and its pieces laid flat.

ghost use Rattle.std.specs.Prelude.{◌≡◌, ◌≢◌, IfOk, IfErr};
ghost use Rattle.polygon_c.specs.Answers.{IsRefused};
ghost use Rattle.polygon_c.specs.Calls.{Answers, IsCall, IsFlatSlice, IsFlatSliceIn, IsWideCall, IsWideFlatSlice, IsNotSliced};
ghost use Rattle.polygon_c.specs.Flat.{arrays, lists_of};
ghost use Rattle.polygon_c.specs.Given.{given};

use crate::asked::{Asked, ask};
use crate::engine;
use crate::given::{CPoint, CPoint64, CPointOf};
use crate::laid::{Laid, lay};
use crate::overlay::{Sizes, hand_out};
use crate::refusal::Refusal;
use polygon_overlay::plane::int::OverlayInt;
use std::alloc::Global;

/// Parts a shape along open lines, and writes the pieces as `polygon_c_overlay` writes shapes: outlines counterclockwise. The contours of the shape
/// are given as a subject's, and the lines as a clip's: of a line the last point doesn't lead back to the first. Of the query it reads the fill
/// rule; all its numbers are tested.
///
/// Statuses, sizes and what stays as it was are those of `polygon_c_overlay`.
#[unsafe(no_mangle)]
pub extern "C" fn polygon_c_slice(
    alloc: Global,
    shape: &[CPoint],
    shape_lengths: &[usize],
    lines: &[CPoint],
    line_lengths: &[usize],
    query: &[u32],
    points: &mut [CPoint],
    contours: &mut [usize],
    shapes: &mut [usize],
    sizes: &mut Sizes,
) -> u32
    ensures called { IsCall IsFlatSlice IsNotSliced query.now (given shape.now shape_lengths.now lines.now line_lengths.now)
        (arrays points.old contours.old shapes.old) (arrays points.new contours.new shapes.new) sizes.old sizes.new result }
    ensures points { result ≢ 0 → points.new ≡ points.old }
    ensures contours { result ≢ 0 → contours.new ≡ contours.old }
    ensures shapes { result ≢ 0 → shapes.new ≡ shapes.old }
{
    match slice::<i32, CPoint>(alloc, query, shape, shape_lengths, lines, line_lengths) {
        Ok(laid) => hand_out(&laid, points, contours, shapes, sizes),
        Err(refusal) => refusal.status(),
    }
}

/// `polygon_c_slice` with coordinates of 64 bits.
#[unsafe(no_mangle)]
pub extern "C" fn polygon_c_slice64(
    alloc: Global,
    shape: &[CPoint64],
    shape_lengths: &[usize],
    lines: &[CPoint64],
    line_lengths: &[usize],
    query: &[u32],
    points: &mut [CPoint64],
    contours: &mut [usize],
    shapes: &mut [usize],
    sizes: &mut Sizes,
) -> u32
    ensures called { IsWideCall IsWideFlatSlice IsNotSliced query.now (given shape.now shape_lengths.now lines.now line_lengths.now)
        (arrays points.old contours.old shapes.old) (arrays points.new contours.new shapes.new) sizes.old sizes.new result }
    ensures points { result ≢ 0 → points.new ≡ points.old }
    ensures contours { result ≢ 0 → contours.new ≡ contours.old }
    ensures shapes { result ≢ 0 → shapes.new ≡ shapes.old }
{
    match slice::<i64, CPoint64>(alloc, query, shape, shape_lengths, lines, line_lengths) {
        Ok(laid) => hand_out(&laid, points, contours, shapes, sizes),
        Err(refusal) => refusal.wide_status(),
    }
}

// The pieces laid flat, or why there are none.
fn slice<I: OverlayInt, P: CPointOf<I>>(
    alloc: Global,
    query: &[u32],
    shape: &[P],
    shape_lengths: &[usize],
    lines: &[P],
    line_lengths: &[usize],
) -> Result<Laid<P>, Refusal>
    ensures answered { IfOk result (λ laid. Answers P.plane I.least I.greatest (IsFlatSliceIn P.at I.least I.greatest) query.now (given shape.now shape_lengths.now lines.now line_lengths.now) (lists_of laid)) }
    ensures refused { IfErr result (IsRefused P.plane I.least I.greatest IsNotSliced query.now (given shape.now shape_lengths.now lines.now line_lengths.now)) }
{
    let asked: Asked<I> = ask(alloc, query, shape, shape_lengths, lines, line_lengths)?;
    let pieces = engine::slice(alloc, asked.request, &asked.subjects, &asked.clips)?;
    Ok(lay(alloc, &pieces)?)
}
