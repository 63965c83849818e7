//! How a subject and a clip are related: the tests, and then relations by the engine, as bytes.

ghost use Rattle.std.specs.Prelude.{◌≡◌, IfOk, IfErr};
ghost use Rattle.polygon_c.specs.Given.{given};
ghost use Rattle.polygon_c.specs.Answers.{IsNotRelated, IsRefused, AnswersRelations};
ghost use Rattle.polygon_c.specs.Relating.{flag, flags_of, IsRelateCall, IsWideRelateCall};

use crate::asked::{Asked, ask};
use crate::engine;
use crate::given::{CPoint, CPoint64, CPointOf};
use crate::refusal::Refusal;
use polygon_overlay::plane::int::OverlayInt;
use polygon_overlay::relate::Relations;
use std::alloc::Global;

/// How what a subject and a clip fill is related: 1 where it is so, else 0.
#[derive(Clone, Copy, Debug, PartialEq, Eq)]
#[repr(C)]
pub struct CRelations {
    /// They have a point in common.
    pub intersects: u8,
    /// Their interiors have.
    pub interiors_intersect: u8,
    /// They intersect, and their interiors don't.
    pub touches: u8,
    /// They meet at ends of segments alone.
    pub point_intersects: u8,
    /// The subject fills something, and the clip all that the subject fills.
    pub within: u8,
    /// They don't intersect.
    pub disjoint: u8,
    /// The clip fills something, and the subject all that the clip fills.
    pub covers: u8,
}

/// Tells how what a subject and a clip fill is related, each contour taken without the points that lie on a line with their neighbours. Of
/// the query it reads fill rule, strategy and precision; all its numbers are tested.
///
/// Where the status isn't 0 it says why, and the relations stay as they were.
#[unsafe(no_mangle)]
pub extern "C" fn polygon_c_relate(
    alloc: Global,
    subject: &[CPoint],
    subject_lengths: &[usize],
    clip: &[CPoint],
    clip_lengths: &[usize],
    query: &[u32],
    relations: &mut CRelations,
) -> u32
    ensures { IsRelateCall query.now (given subject.now subject_lengths.now clip.now clip_lengths.now) relations.old relations.new result }
{
    match relate::<i32, CPoint>(alloc, query, subject, subject_lengths, clip, clip_lengths) {
        Ok(found) => {
            *relations = flags(found);
            0
        }
        Err(refusal) => refusal.status(),
    }
}

/// `polygon_c_relate` with coordinates of 64 bits.
#[unsafe(no_mangle)]
pub extern "C" fn polygon_c_relate64(
    alloc: Global,
    subject: &[CPoint64],
    subject_lengths: &[usize],
    clip: &[CPoint64],
    clip_lengths: &[usize],
    query: &[u32],
    relations: &mut CRelations,
) -> u32
    ensures { IsWideRelateCall query.now (given subject.now subject_lengths.now clip.now clip_lengths.now) relations.old relations.new result }
{
    match relate::<i64, CPoint64>(alloc, query, subject, subject_lengths, clip, clip_lengths) {
        Ok(found) => {
            *relations = flags(found);
            0
        }
        Err(refusal) => refusal.wide_status(),
    }
}

// The relations, or why they aren't told.
fn relate<I: OverlayInt, P: CPointOf<I>>(
    alloc: Global,
    query: &[u32],
    subject: &[P],
    subject_lengths: &[usize],
    clip: &[P],
    clip_lengths: &[usize],
) -> Result<Relations, Refusal>
    ensures answered { IfOk result (AnswersRelations P.plane I.least I.greatest query.now (given subject.now subject_lengths.now clip.now clip_lengths.now)) }
    ensures refused { IfErr result (IsRefused P.plane I.least I.greatest IsNotRelated query.now (given subject.now subject_lengths.now clip.now clip_lengths.now)) }
{
    let asked: Asked<I> = ask(alloc, query, subject, subject_lengths, clip, clip_lengths)?;
    Ok(engine::relations(alloc, asked.request, &asked.subjects, &asked.clips)?)
}

// 1 where it is so, else 0.
pub(crate) fn flag(is_so: bool) -> u8
    ensures { result ≡ flag is_so }
{
    if is_so { 1 } else { 0 }
}

fn flags(relations: Relations) -> CRelations
    ensures { result ≡ flags_of relations }
{
    CRelations {
        intersects: flag(relations.intersects),
        interiors_intersect: flag(relations.interiors_intersect),
        touches: flag(relations.touches),
        point_intersects: flag(relations.point_intersects),
        within: flag(relations.within),
        disjoint: flag(relations.disjoint),
        covers: flag(relations.covers),
    }
}
