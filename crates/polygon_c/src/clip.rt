//! Lines that a shape clips: the tests, and then a clip by the engine, laid flat.

ghost use Rattle.std.specs.Prelude.{◌≡◌, ◌≢◌, [], IfOk, IfErr};
ghost use Rattle.polygon_c.specs.Answers.{IsRefused};
ghost use Rattle.polygon_c.specs.Calls.{Answers, IsCall, IsFlatClip, IsFlatClipIn, IsWideCall, IsWideFlatClip, IsNotClipped};
ghost use Rattle.polygon_c.specs.Flat.{arrays, lists_of};
ghost use Rattle.polygon_c.specs.Given.{given};

use crate::asked::{Asked, ask};
use crate::engine;
use crate::given::{CPoint, CPoint64, CPointOf};
use crate::laid::{Laid, lay_paths};
use crate::overlay::{Sizes, hand_out};
use crate::refusal::Refusal;
use polygon_overlay::plane::int::OverlayInt;
use std::alloc::Global;

/// Clips open lines by a shape, and writes the paths that are left, in the direction of the lines: all points, and how many each path has. The
/// contours of the shape are given as a subject's, and the lines as a clip's: of a line the last point doesn't lead back to the first. Of the
/// query it reads the fill rule, `clip_outside` and `clip_border`; all its numbers are tested.
///
/// Statuses, sizes and what stays as it was are those of `polygon_c_overlay`; there are no shapes.
#[unsafe(no_mangle)]
pub extern "C" fn polygon_c_clip(
    alloc: Global,
    shape: &[CPoint],
    shape_lengths: &[usize],
    lines: &[CPoint],
    line_lengths: &[usize],
    query: &[u32],
    points: &mut [CPoint],
    lengths: &mut [usize],
    sizes: &mut Sizes,
) -> u32
    ensures called { IsCall IsFlatClip IsNotClipped query.now (given shape.now shape_lengths.now lines.now line_lengths.now)
        (arrays points.old lengths.old []) (arrays points.new lengths.new []) sizes.old sizes.new result }
    ensures points { result ≢ 0 → points.new ≡ points.old }
    ensures lengths { result ≢ 0 → lengths.new ≡ lengths.old }
{
    match clip::<i32, CPoint>(alloc, query, shape, shape_lengths, lines, line_lengths) {
        Ok(laid) => hand_out(&laid, points, lengths, &mut [], sizes),
        Err(refusal) => refusal.status(),
    }
}

/// `polygon_c_clip` with coordinates of 64 bits.
#[unsafe(no_mangle)]
pub extern "C" fn polygon_c_clip64(
    alloc: Global,
    shape: &[CPoint64],
    shape_lengths: &[usize],
    lines: &[CPoint64],
    line_lengths: &[usize],
    query: &[u32],
    points: &mut [CPoint64],
    lengths: &mut [usize],
    sizes: &mut Sizes,
) -> u32
    ensures called { IsWideCall IsWideFlatClip IsNotClipped query.now (given shape.now shape_lengths.now lines.now line_lengths.now)
        (arrays points.old lengths.old []) (arrays points.new lengths.new []) sizes.old sizes.new result }
    ensures points { result ≢ 0 → points.new ≡ points.old }
    ensures lengths { result ≢ 0 → lengths.new ≡ lengths.old }
{
    match clip::<i64, CPoint64>(alloc, query, shape, shape_lengths, lines, line_lengths) {
        Ok(laid) => hand_out(&laid, points, lengths, &mut [], sizes),
        Err(refusal) => refusal.wide_status(),
    }
}

// The paths laid flat, or why there are none.
fn clip<I: OverlayInt, P: CPointOf<I>>(
    alloc: Global,
    query: &[u32],
    shape: &[P],
    shape_lengths: &[usize],
    lines: &[P],
    line_lengths: &[usize],
) -> Result<Laid<P>, Refusal>
    ensures answered { IfOk result (λ laid. Answers P.plane I.least I.greatest (IsFlatClipIn P.at I.least I.greatest) query.now (given shape.now shape_lengths.now lines.now line_lengths.now) (lists_of laid)) }
    ensures refused { IfErr result (IsRefused P.plane I.least I.greatest IsNotClipped query.now (given shape.now shape_lengths.now lines.now line_lengths.now)) }
{
    let asked: Asked<I> = ask(alloc, query, shape, shape_lengths, lines, line_lengths)?;
    let paths = engine::clip(alloc, asked.request, &asked.subjects, &asked.clips)?;
    Ok(lay_paths(alloc, &paths)?)
}
