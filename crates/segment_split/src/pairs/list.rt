//! The list's road, sweep and prune: a segment is held against those that follow it, an old one against the new ones among them, until
//! one begins past its end.
//!
//! Degenerate cases: where all begin at one x, all pairs are tested. It takes a test at most for each pair whose x ranges meet, and
//! one more for each segment.

ghost use Rattle.std.specs.Prelude.{◌≡◌, ◌+◌, ◌-◌, ◌<◌, ◌<ℤ◌, ◌≤ℤ◌, ◌≤◌, ◌||◌, cond};
ghost use Rattle.std.specs.Prelude.{length, slice_index_or, ℕ, false, IfOk, OnOk, IsOkUnless, IsTrue, IsFalse};
ghost use Rattle.plane_base.specs.Crossing.{marks_by};
ghost use Rattle.segment_split.specs.MarkLists.{laid_marks, AreMarks, SkipsOld};
ghost use Rattle.segment_split.specs.Rows.{CountsPairsUpTo, Finds, MarksAhead};
ghost use Rattle.segment_split.specs.StepBounds.{all_pairs};
ghost use Rattle.segment_split.specs.WholeLaws.{AllMeetWhole};

use crate::count::WindingCount;
use crate::maps::unchanged::next_from;
use crate::mark::Mark;
use crate::pairs::look::{Pass, look};
use crate::segment::Segment;
use i_tree::Steps;
use plane_base::fault::Fault;
use plane_base::int::OverlayInt;
use plane_base::rounding::Rounding;
use plane_base::segment::XSegment;
use std::sync::ledger::Ledger;

// The marks that all pairs of a sorted list lay in a pass. Answers whether any cross off the grid.
pub(crate) fn find_marks<C: WindingCount, I: OverlayInt, D, L: Ledger>(
    marks: &mut Vec<Mark<I, I::Wide>>,
    pass: &Pass<'_, C, I, D>,
    steps: &mut Steps<L>,
) -> Result<bool, Fault>
    requires { SkipsOld pass.now.edges pass.now.next_new }
    ensures found { OnOk result (AreMarks I.stride I.least I.greatest (marks_by pass.now.rounding) pass.now.edges (laid_marks I.Wide.number marks.new.items)) }
    ensures whole { IfOk result (λ off_grid. off_grid ≡ false → AllMeetWhole pass.now.edges) }
    ensures memory { IsOkUnless result Fault.Memory }
    ensures steps { CountsPairsUpTo steps.old steps.new (all_pairs pass.now.edges) }
{
    let segments = pass.segments;
    marks.clear();
    let mut is_off_grid = false;
    for i in 0..segments.len() {
        let own = look_ahead(marks, pass, i, steps)?;
        is_off_grid = either(is_off_grid, own);
    }
    Ok(is_off_grid)
}

// Holds a segment against those that follow it. Answers whether it crosses any off the grid.
fn look_ahead<C: WindingCount, I: OverlayInt, D, L: Ledger>(
    marks: &mut Vec<Mark<I, I::Wide>>,
    pass: &Pass<'_, C, I, D>,
    i: usize,
    steps: &mut Steps<L>,
) -> Result<bool, Fault>
    requires within { i < length pass.now.edges }
    requires skips { SkipsOld pass.now.edges pass.now.next_new }
    ensures found { IfOk result (λ own. Finds I.stride I.least I.greatest (marks_by pass.now.rounding) pass.now.edges
        (λ h k. (h ≡ i) × MarksAhead (marks_by pass.now.rounding) pass.now.edges h k)
        (laid_marks I.Wide.number marks.old.items) (laid_marks I.Wide.number marks.new.items) own) }
    ensures memory { IsOkUnless result Fault.Memory }
    ensures steps { CountsPairsUpTo steps.old steps.new (length pass.now.edges - (i + 1)) }
{
    let segments = pass.segments;
    let segment = &segments[i];
    let s = segment.x_segment;
    let is_new = next_from(pass.next_new, i) == i;
    let mut is_off_grid = false;
    let mut j = step_to(pass.next_new, is_new, i + 1);
    while j < segments.len() {
        let other = &segments[j];
        if ends_before(s, other.x_segment, steps) {
            return Ok(is_off_grid);
        }
        let own = look(marks, pass, i, s, j, steps)?;
        is_off_grid = either(is_off_grid, own);
        j = step_to(pass.next_new, is_new, j + 1);
    }
    Ok(is_off_grid)
}

// The next segment from this one on against which a segment is held: a new one against all, an old one against new ones.
fn step_to(next_new: &[usize], is_new: bool, j: usize) -> usize
    ensures from { j ≤ result }
    ensures passed { (n : ℕ) → j ≤ n → n < result → (is_new ≡ false) × (n < slice_index_or next_new.now j j) }
{
    if is_new {
        return j;
    }
    next_from(next_new, j)
}

pub(super) fn either(one: bool, other: bool) -> bool
    ensures { result ≡ (one || other) }
{
    one || other
}

// Whether a segment ends before the other begins, by x. Where it does, that look at the two is counted.
fn ends_before<I: OverlayInt, L: Ledger>(
    s: XSegment<I>,
    t: XSegment<I>,
    steps: &mut Steps<L>,
) -> bool
    ensures past { IsTrue result → s.b.x <ℤ t.a.x }
    ensures reached { IsFalse result → t.a.x ≤ℤ s.b.x }
    ensures comparisons { steps.new.comparisons ≡ steps.old.comparisons }
    ensures pairs { steps.new.pairs ≡ steps.old.pairs + cond result 1 0 }
{
    if t.a.x.to_i64() <= s.b.x.to_i64() {
        return false;
    }
    steps.tick_pair();
    true
}
