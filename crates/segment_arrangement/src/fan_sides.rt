//! The sides of the segments that start at one point, by prefix sums from the lowest to the highest: what lies above
//! one lies below the next. Degenerate cases: a sum that leaves the range of counts is refused. It takes linear time.

ghost use Rattle.std.specs.Prelude.{◌≡◌, ℕ, ◌<◌, true, false, length, map, slice_index_or, All, IfOk, OnOk, IfErr};
ghost use Rattle.plane_base.specs.Counts.{Count as Windings, boolean};
ghost use Rattle.plane_base.specs.declared.fault.Fault.TheVariants.{Count};
ghost use Rattle.segment_split.specs.Kinds.{count_fits};
ghost use Rattle.segment_arrangement.specs.RuleViews.{fill_rule_of};
ghost use Rattle.segment_arrangement.specs.Sweeps.{IsHandedUp, upper_of};
ghost use Rattle.segment_arrangement.specs.SweepViews.{sides_between, sides_at};

use crate::count::FilledCount;
use crate::fan::FanItem;
use crate::fill_rule::FillRule;
use crate::sweep::SegmentSides;
use plane_base::fault::Fault;
use plane_base::int::OverlayInt;
use segment_split::count::{ShapeCountBoolean, WindingCount};
use segment_split::segment::Segment;

// The sides of a segment that has this below it and counts this much: refused where what lies above leaves the range.
pub(crate) fn sides_of<C: FilledCount>(
    rule: FillRule,
    bottom: ShapeCountBoolean,
    count: C,
) -> Result<SegmentSides, Fault>
    ensures is { IfOk result (λ sides. sides ≡ sides_between C.sides C.filled (fill_rule_of rule) bottom count) }
    ensures fits { IfOk result (λ sides. count_fits (boolean.join bottom (C.sides count)) ≡ true) }
    ensures fault { IfErr result (λ fault. (fault ≡ Count) × (count_fits (boolean.join bottom (C.sides count)) ≡ false)) }
{
    let top = bottom.add(count.sides())?;
    let fill = count.fill(rule, bottom, top);
    Ok(SegmentSides { fill, top })
}

// Hands the sums up a fan, from its lowest segment to its highest: what lies above one lies below the next.
pub(crate) fn hand_up<C: FilledCount, I: OverlayInt, D>(
    rule: FillRule,
    segments: &[Segment<C, I, D>],
    below: ShapeCountBoolean,
    fan: &[FanItem<I>],
    sides: &mut [SegmentSides],
) -> Result<(), Fault>
    requires within { All (λ s. s.index < length segments.now) fan.now }
    requires one_each { length sides.old ≡ length segments.now }
    ensures len { length sides.new ≡ length sides.old }
    ensures ok { OnOk result ((lower : ℕ → Windings) (d : _) (e : _) (t : _) (j : ℕ) →
        IsHandedUp lower (λ i. C.sides (slice_index_or segments.now i d).count) below (map (λ s. s.index) fan.now) → j < length fan.now →
        slice_index_or sides.new (slice_index_or fan.now j t).index e
        ≡ sides_at C.sides C.filled (fill_rule_of rule) lower (λ i. (slice_index_or segments.now i d).count) (slice_index_or fan.now j t).index) }
    ensures err { IfErr result (λ fault. (fault ≡ Count) × ((lower : ℕ → Windings) (d : _) →
        IsHandedUp lower (λ i. C.sides (slice_index_or segments.now i d).count) below (map (λ s. s.index) fan.now) →
        (i : ℕ) × (i < length segments.now) × (count_fits (upper_of lower (λ i. C.sides (slice_index_or segments.now i d).count) i) ≡ false))) }
{
    let mut bottom = below;
    for k in 0..fan.len() {
        let index = fan[k].index;
        let segment = &segments[index];
        let count = segment.count;
        let SegmentSides { fill, top } = sides_of(rule, bottom, count)?;
        sides[index] = SegmentSides { fill, top };
        bottom = top;
    }
    Ok(())
}
