//! Overlays: the tests, an overlay by the engine, and its shapes laid flat over the caller's arrays.

ghost use Rattle.std.specs.Prelude.{◌≡◌, ◌≢◌, IfOk, IfErr};
ghost use Rattle.polygon_c.specs.Given.{given};
ghost use Rattle.polygon_c.specs.Answers.{IsNotOverlaid, IsRefused};
ghost use Rattle.polygon_c.specs.Flat.{arrays, lists_of, sizes_of, HandsOut};
ghost use Rattle.polygon_c.specs.Calls.{Answers, IsCall, IsFlatOverlay, IsFlatOverlayIn, IsWideCall, IsWideFlatOverlay};

use crate::arrays::write;
use crate::asked::{Asked, ask};
use crate::engine;
use crate::given::{CPoint, CPoint64, CPointOf};
use crate::laid::{Laid, lay};
use crate::refusal::Refusal;
use polygon_overlay::plane::int::OverlayInt;
use std::alloc::Global;

/// How many points, contours and shapes an answer has.
#[derive(Clone, Copy, Debug)]
#[repr(C)]
pub struct Sizes {
    pub points: usize,
    pub contours: usize,
    pub shapes: usize,
}

/// Overlays the contours of a subject and of a clip, and writes the shapes over the beginnings of three arrays: all points, how many points
/// each contour has, and how many contours each shape has, the outline first. It tells 0 and how many there are of each.
///
/// Where nothing is answered the status says why (`Refusal`), the first reason of a fixed order, and the arrays stay as they were. `Room` comes
/// last, where an array is shorter than the answer, and only then `sizes` is told too.
#[unsafe(no_mangle)]
pub extern "C" fn polygon_c_overlay(
    alloc: Global,
    subject: &[CPoint],
    subject_lengths: &[usize],
    clip: &[CPoint],
    clip_lengths: &[usize],
    query: &[u32],
    points: &mut [CPoint],
    contours: &mut [usize],
    shapes: &mut [usize],
    sizes: &mut Sizes,
) -> u32
    ensures called { IsCall IsFlatOverlay IsNotOverlaid query.now (given subject.now subject_lengths.now clip.now clip_lengths.now)
        (arrays points.old contours.old shapes.old) (arrays points.new contours.new shapes.new) sizes.old sizes.new result }
    ensures points { result ≢ 0 → points.new ≡ points.old }
    ensures contours { result ≢ 0 → contours.new ≡ contours.old }
    ensures shapes { result ≢ 0 → shapes.new ≡ shapes.old }
{
    match overlay::<i32, CPoint>(alloc, query, subject, subject_lengths, clip, clip_lengths) {
        Ok(laid) => hand_out(&laid, points, contours, shapes, sizes),
        Err(refusal) => refusal.status(),
    }
}

/// `polygon_c_overlay` with coordinates of 64 bits.
#[unsafe(no_mangle)]
pub extern "C" fn polygon_c_overlay64(
    alloc: Global,
    subject: &[CPoint64],
    subject_lengths: &[usize],
    clip: &[CPoint64],
    clip_lengths: &[usize],
    query: &[u32],
    points: &mut [CPoint64],
    contours: &mut [usize],
    shapes: &mut [usize],
    sizes: &mut Sizes,
) -> u32
    ensures called { IsWideCall IsWideFlatOverlay IsNotOverlaid query.now (given subject.now subject_lengths.now clip.now clip_lengths.now)
        (arrays points.old contours.old shapes.old) (arrays points.new contours.new shapes.new) sizes.old sizes.new result }
    ensures points { result ≢ 0 → points.new ≡ points.old }
    ensures contours { result ≢ 0 → contours.new ≡ contours.old }
    ensures shapes { result ≢ 0 → shapes.new ≡ shapes.old }
{
    match overlay::<i64, CPoint64>(alloc, query, subject, subject_lengths, clip, clip_lengths) {
        Ok(laid) => hand_out(&laid, points, contours, shapes, sizes),
        Err(refusal) => refusal.wide_status(),
    }
}

// The overlay laid flat, or why there is none.
fn overlay<I: OverlayInt, P: CPointOf<I>>(
    alloc: Global,
    query: &[u32],
    subject: &[P],
    subject_lengths: &[usize],
    clip: &[P],
    clip_lengths: &[usize],
) -> Result<Laid<P>, Refusal>
    ensures answered { IfOk result (λ laid. Answers P.plane I.least I.greatest (IsFlatOverlayIn P.at I.least I.greatest) query.now (given subject.now subject_lengths.now clip.now clip_lengths.now) (lists_of laid)) }
    ensures refused { IfErr result (IsRefused P.plane I.least I.greatest IsNotOverlaid query.now (given subject.now subject_lengths.now clip.now clip_lengths.now)) }
{
    let asked: Asked<I> = ask(alloc, query, subject, subject_lengths, clip, clip_lengths)?;
    let shapes = engine::shapes(alloc, asked.request, &asked.subjects, &asked.clips)?;
    Ok(lay(alloc, &shapes)?)
}

// Writes an answer over arrays, if they have room for it, and tells its sizes.
pub(crate) fn hand_out<P: Copy>(
    laid: &Laid<P>,
    points: &mut [P],
    contours: &mut [usize],
    shapes: &mut [usize],
    sizes: &mut Sizes,
) -> u32
    ensures handed { HandsOut (lists_of laid.now) (arrays points.old contours.old shapes.old) (arrays points.new contours.new shapes.new) result }
    ensures points { result ≢ 0 → points.new ≡ points.old }
    ensures contours { result ≢ 0 → contours.new ≡ contours.old }
    ensures shapes { result ≢ 0 → shapes.new ≡ shapes.old }
    ensures sizes { sizes.new ≡ sizes_of (lists_of laid.now) }
{
    *sizes = Sizes {
        points: laid.points.len(),
        contours: laid.contours.len(),
        shapes: laid.shapes.len(),
    };
    if points.len() < sizes.points
        || contours.len() < sizes.contours
        || shapes.len() < sizes.shapes
    {
        return Refusal::Room.status();
    }
    write(&laid.points, points);
    write(&laid.contours, contours);
    write(&laid.shapes, shapes);
    0
}
