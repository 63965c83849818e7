//! Which segments a pass has to look at. A segment is old where the pass before held its ends and laid no mark there, also when
//! a piece of another joins it; every other is new. Two old ones are parted, so no later pass looks at both.
//!
//! It isn't enough that the pass before had a segment with the same ends: one that was cut can be laid again, whole, by the
//! pieces of another, and needn't be parted from what cut it. One number for each segment names the next new one from it on, so
//! runs of old ones are passed over in constant time.

ghost use Rattle.std.specs.Prelude.{◌≡◌, ◌≤◌, ◌<◌, ℕ, List, length, slice_index_or, OnOk, IsOkUnless};
ghost use Rattle.plane_base.specs.Plane.{Edge};
ghost use Rattle.segment_split.specs.MarkLists.{IsFilled, SkipsTo};

use plane_base::fault::Fault;

// Tells that the segments from one number up to another are new, where those before were told. For each stands the next new one
// from it on, as far as there is one.
pub(crate) fn tell_new(next_new: &mut Vec<usize>, from: usize, to: usize) -> Result<(), Fault>
    requires { from ≤ to }
    ensures told { OnOk result ((es old : List Edge) → SkipsTo es old next_new.old.items from → SkipsTo es old next_new.new.items to) }
    ensures memory { IsOkUnless result Fault.Memory }
{
    fill(next_new, from)?;
    for number in from..to {
        next_new.push(number)?;
    }
    Ok(())
}

// Tells of all up to this number that it is the next.
pub(crate) fn fill(next_new: &mut Vec<usize>, number: usize) -> Result<(), Fault>
    ensures filled { OnOk result ((es old : List Edge) → SkipsTo es old next_new.old.items number → SkipsTo es old next_new.new.items number) }
    ensures len { OnOk result (length next_new.old.items ≤ number → length next_new.new.items ≡ number) }
    ensures is { OnOk result (IsFilled number next_new.old.items next_new.new.items) }
    ensures memory { IsOkUnless result Fault.Memory }
{
    if next_new.len() < number {
        next_new.resize(number, number)?;
    }
    Ok(())
}

// The next new segment from this one on, as it is told.
pub(crate) fn next_from(next_new: &[usize], j: usize) -> usize
    ensures from { j ≤ result }
    ensures reached { slice_index_or next_new.now j j ≤ result }
    ensures passed { (n : ℕ) → j ≤ n → n < result → n < slice_index_or next_new.now j j }
{
    if j >= next_new.len() {
        return j;
    }
    let next = next_new[j];
    if j < next { next } else { j }
}
