//! Regions of horizontal and vertical edges, grown or shrunk: the tests, and then `sizing` of the engine.

ghost use Rattle.std.specs.Prelude.{◌≡◌, ◌≢◌, [], IfOk, IfErr};
ghost use Rattle.polygon_overlay.specs.SizingViews.{amounts_of};
ghost use Rattle.polygon_c.specs.Flat.{arrays, lists_of};
ghost use Rattle.polygon_c.specs.Given.{given};
ghost use Rattle.polygon_c.specs.Sizings.{amounts, AnswersSizing, IsNotResized, IsSizingCall, IsWideSizingCall};
ghost use Rattle.polygon_c.specs.Sizings.{AnswersInTurn, IsNotResizedInTurn, IsInTurnCall, IsWideInTurnCall};

use crate::asked::{Asked, ask};
use crate::engine;
use crate::given::{CPoint, CPoint64, CPointOf};
use crate::laid::{Laid, lay};
use crate::overlay::{Sizes, hand_out};
use crate::refusal::Refusal;
use polygon_overlay::plane::int::OverlayInt;
use polygon_overlay::sizing::{Sizing, are_rectilinear, fits, fits_in_turn};
use std::alloc::Global;

/// Grows or shrinks what contours of horizontal and vertical edges fill, and writes the shapes as `polygon_c_overlay` does. Left sides move to the left by
/// the first amount, right sides to the right by the second, bottoms down by the third and tops up by the fourth, first in x and then in y; below
/// 0 they move inward. Of the query it reads all but the overlay rule and what is of lines; all its numbers are tested.
///
/// Statuses, sizes and what stays as it was are those of `polygon_c_overlay`. After `Range` comes `Slant`, where an edge is neither horizontal nor
/// vertical, and then `Range` again, where a point, moved by one of the amounts, would be out of range.
#[unsafe(no_mangle)]
pub extern "C" fn polygon_c_sized(
    alloc: Global,
    subject: &[CPoint],
    subject_lengths: &[usize],
    left: i32,
    right: i32,
    bottom: i32,
    top: i32,
    query: &[u32],
    points: &mut [CPoint],
    contours: &mut [usize],
    shapes: &mut [usize],
    sizes: &mut Sizes,
) -> u32
    ensures called { IsSizingCall (amounts left right bottom top) query.now (given subject.now subject_lengths.now [] [])
        (arrays points.old contours.old shapes.old) (arrays points.new contours.new shapes.new) sizes.old sizes.new result }
    ensures points { result ≢ 0 → points.new ≡ points.old }
    ensures contours { result ≢ 0 → contours.new ≡ contours.old }
    ensures shapes { result ≢ 0 → shapes.new ≡ shapes.old }
{
    let by = Sizing {
        left,
        right,
        bottom,
        top,
    };
    match sized::<i32, CPoint>(alloc, query, subject, subject_lengths, by) {
        Ok(laid) => hand_out(&laid, points, contours, shapes, sizes),
        Err(refusal) => refusal.status(),
    }
}

/// `polygon_c_sized` with coordinates of 64 bits.
#[unsafe(no_mangle)]
pub extern "C" fn polygon_c_sized64(
    alloc: Global,
    subject: &[CPoint64],
    subject_lengths: &[usize],
    left: i64,
    right: i64,
    bottom: i64,
    top: i64,
    query: &[u32],
    points: &mut [CPoint64],
    contours: &mut [usize],
    shapes: &mut [usize],
    sizes: &mut Sizes,
) -> u32
    ensures called { IsWideSizingCall (amounts left right bottom top) query.now (given subject.now subject_lengths.now [] [])
        (arrays points.old contours.old shapes.old) (arrays points.new contours.new shapes.new) sizes.old sizes.new result }
    ensures points { result ≢ 0 → points.new ≡ points.old }
    ensures contours { result ≢ 0 → contours.new ≡ contours.old }
    ensures shapes { result ≢ 0 → shapes.new ≡ shapes.old }
{
    let by = Sizing {
        left,
        right,
        bottom,
        top,
    };
    match sized::<i64, CPoint64>(alloc, query, subject, subject_lengths, by) {
        Ok(laid) => hand_out(&laid, points, contours, shapes, sizes),
        Err(refusal) => refusal.wide_status(),
    }
}

/// Sizes so twice: what `polygon_c_sized` would write for the first four amounts is sized by the last four, as a mask is closed or opened. All else is
/// as of `polygon_c_sized`, but that `Range` is told too where what a point is moved to would be out of range, once moved again.
#[unsafe(no_mangle)]
pub extern "C" fn polygon_c_sized_in_turn(
    alloc: Global,
    subject: &[CPoint],
    subject_lengths: &[usize],
    left: i32,
    right: i32,
    bottom: i32,
    top: i32,
    then_left: i32,
    then_right: i32,
    then_bottom: i32,
    then_top: i32,
    query: &[u32],
    points: &mut [CPoint],
    contours: &mut [usize],
    shapes: &mut [usize],
    sizes: &mut Sizes,
) -> u32
    ensures called { IsInTurnCall (amounts left right bottom top) (amounts then_left then_right then_bottom then_top) query.now
        (given subject.now subject_lengths.now [] []) (arrays points.old contours.old shapes.old) (arrays points.new contours.new shapes.new)
        sizes.old sizes.new result }
    ensures points { result ≢ 0 → points.new ≡ points.old }
    ensures contours { result ≢ 0 → contours.new ≡ contours.old }
    ensures shapes { result ≢ 0 → shapes.new ≡ shapes.old }
{
    let first = Sizing {
        left,
        right,
        bottom,
        top,
    };
    let second = Sizing {
        left: then_left,
        right: then_right,
        bottom: then_bottom,
        top: then_top,
    };
    match sized_in_turn::<i32, CPoint>(alloc, query, subject, subject_lengths, first, second) {
        Ok(laid) => hand_out(&laid, points, contours, shapes, sizes),
        Err(refusal) => refusal.status(),
    }
}

/// `polygon_c_sized_in_turn` with coordinates of 64 bits.
#[unsafe(no_mangle)]
pub extern "C" fn polygon_c_sized_in_turn64(
    alloc: Global,
    subject: &[CPoint64],
    subject_lengths: &[usize],
    left: i64,
    right: i64,
    bottom: i64,
    top: i64,
    then_left: i64,
    then_right: i64,
    then_bottom: i64,
    then_top: i64,
    query: &[u32],
    points: &mut [CPoint64],
    contours: &mut [usize],
    shapes: &mut [usize],
    sizes: &mut Sizes,
) -> u32
    ensures called { IsWideInTurnCall (amounts left right bottom top) (amounts then_left then_right then_bottom then_top) query.now
        (given subject.now subject_lengths.now [] []) (arrays points.old contours.old shapes.old) (arrays points.new contours.new shapes.new)
        sizes.old sizes.new result }
    ensures points { result ≢ 0 → points.new ≡ points.old }
    ensures contours { result ≢ 0 → contours.new ≡ contours.old }
    ensures shapes { result ≢ 0 → shapes.new ≡ shapes.old }
{
    let first = Sizing {
        left,
        right,
        bottom,
        top,
    };
    let second = Sizing {
        left: then_left,
        right: then_right,
        bottom: then_bottom,
        top: then_top,
    };
    match sized_in_turn::<i64, CPoint64>(alloc, query, subject, subject_lengths, first, second) {
        Ok(laid) => hand_out(&laid, points, contours, shapes, sizes),
        Err(refusal) => refusal.wide_status(),
    }
}

// The sized region laid flat, or why there is none.
fn sized<I: OverlayInt, P: CPointOf<I>>(
    alloc: Global,
    query: &[u32],
    subject: &[P],
    subject_lengths: &[usize],
    by: Sizing<I>,
) -> Result<Laid<P>, Refusal>
    ensures answered { IfOk result (λ laid. AnswersSizing P.plane P.at I.least I.greatest (amounts_of I.value by) query.now (given subject.now subject_lengths.now [] []) (lists_of laid)) }
    ensures refused { IfErr result (IsNotResized P.plane I.least I.greatest (amounts_of I.value by) query.now (given subject.now subject_lengths.now [] [])) }
{
    let asked: Asked<I> = ask(alloc, query, subject, subject_lengths, &[], &[])?;
    if !are_rectilinear(&asked.subjects) {
        return Err(Refusal::Slant);
    }
    if !fits(&asked.subjects, by) {
        return Err(Refusal::Range);
    }
    let shapes = engine::sized(alloc, asked.request, &asked.subjects, by)?;
    Ok(lay(alloc, &shapes)?)
}

// The region that is sized twice, laid flat, or why there is none.
fn sized_in_turn<I: OverlayInt, P: CPointOf<I>>(
    alloc: Global,
    query: &[u32],
    subject: &[P],
    subject_lengths: &[usize],
    first: Sizing<I>,
    second: Sizing<I>,
) -> Result<Laid<P>, Refusal>
    ensures answered { IfOk result (λ laid. AnswersInTurn P.plane P.at I.least I.greatest (amounts_of I.value first) (amounts_of I.value second) query.now
        (given subject.now subject_lengths.now [] []) (lists_of laid)) }
    ensures refused { IfErr result (IsNotResizedInTurn P.plane I.least I.greatest (amounts_of I.value first) (amounts_of I.value second) query.now
        (given subject.now subject_lengths.now [] [])) }
{
    let asked: Asked<I> = ask(alloc, query, subject, subject_lengths, &[], &[])?;
    if !are_rectilinear(&asked.subjects) {
        return Err(Refusal::Slant);
    }
    if !fits_in_turn(&asked.subjects, first, second) {
        return Err(Refusal::Range);
    }
    let shapes = engine::sized_in_turn(alloc, asked.request, &asked.subjects, first, second)?;
    Ok(lay(alloc, &shapes)?)
}
