//! What every collection of expiring ranges does: a query answers the live insertions that share a bucket with its
//! range, each once and in any order. Degenerate cases: what shares a bucket may lie less than a bucket's width away.
ghost use Rattle.std.specs.Prelude.{◌≡◌, ◌↔◌, IsTrue, OnOk, OnErr, IfOk, IsPermutation};
ghost use Rattle.i_tree.specs.Layout.{bucket_of, IsAccepted};
ghost use Rattle.i_tree.specs.Bag.{Bag, empty_bag, values_met, IsInTime, BagHasRoom, IsAdded, IsPassed};

use crate::exp::{Expiration, ExpiredVal};
use crate::seg::layout::LayoutNumber;
pub use crate::seg::layout::SegRange;
use std::alloc::AllocError;

/// A collection of values, each inserted with a range, that expire.
///
/// Contracts see the collection as its `bag`: the live insertions, each with the first and the last bucket of its range.
/// A query answers by buckets alone, so what it finds may lie less than a bucket's width away.
pub trait SegExpCollection<R: LayoutNumber, E: Expiration, V: ExpiredVal<E>> {
    /// What the collection keeps.
    ghost bag: { Self → Bag E V };

    /// Adds the value. Where memory is refused, the answers at every later time are as before.
    fn insert_by_range(&mut self, range: SegRange<R>, val: V) -> Result<(), AllocError>
        requires room { BagHasRoom (bag self.old) }
        requires accepted { IsAccepted (R.value range.min) (R.value range.max) (bag self.old).buckets }
        ensures ok { OnOk result (IsAdded E.cmp V.expires (record {
          first = bucket_of (bag self.old).buckets (R.value range.min);
          last = bucket_of (bag self.old).buckets (R.value range.max);
          value = val;
        }) (bag self.old) (bag self.new)) }
        ensures err { OnErr result (bag self.new ≡ bag self.old) };

    /// The values of the live insertions that share a bucket with the range, each once, in any order.
    fn collect_by_range(&mut self, range: SegRange<R>, time: E) -> Result<Vec<V>, AllocError>
        requires in_time { IsInTime E.cmp time (bag self.old) }
        requires accepted { IsAccepted (R.value range.min) (R.value range.max) (bag self.old).buckets }
        ensures found { IfOk result (λ found. IsPermutation (values_met E.cmp V.expires (bucket_of (bag self.old).buckets (R.value range.min))
            (bucket_of (bag self.old).buckets (R.value range.max)) time (bag self.old)) found.items) }
        ensures kept { IsPassed E.cmp V.expires time (bag self.old) (bag self.new) };

    /// Drops all insertions. The latest time is forgotten, and the insertions are counted from zero again.
    fn clear(&mut self)
        ensures { bag self.new ≡ empty_bag (bag self.old).buckets };

    /// Whether one more insertion is counted: the test for `insert_by_range`.
    fn has_room(&self) -> bool
        ensures { IsTrue result ↔ BagHasRoom (bag self.now) };
}
