//! What every collection of expiring keys does, as the status of a plane sweep: each call names a time and answers from the live
//! list at it.
//!
//! Degenerate cases: an entry that has expired is accepted and never answered; a query below which nothing lives answers its
//! default. How many comparisons a call makes at most each collection tells by `most_comparisons`.
ghost use Rattle.std.specs.Prelude.{◌≡◌, ℕ, ◌≤◌, ◌↔◌, List, IsTrue, IfOk, OnOk, OnErr, All};
ghost use Rattle.std.specs.Bool.{OnTrue, OnFalse};
ghost use Rattle.std.specs.declared.cmp.Ordering.{Ordering};
ghost use Rattle.std.specs.declared.cmp.Ordering.TheVariants.{Less, Greater};
ghost use Rattle.i_tree.specs.LiveList.{LiveList, nothing_kept, live_at, IsSound, IsNotBefore, HasRoom, IsLawful, IsNewKey, IsAdvanced, IsInserted};
ghost use Rattle.i_tree.specs.KeyAnswers.{last_below, HasEqualKey, DependsOnKey, IsMonotone, IsAnswer, IsPlace};
ghost use Rattle.i_tree.specs.Steps.{CountsAtMost};

use crate::exp::{Expiration, ExpiredKey};
use crate::steps::Steps;
use std::alloc::AllocError;
use std::cmp::Ordering;
use std::sync::ledger::Ledger;

/// What a search came to: the value that it answers, and the place at which it ended.
#[derive(Clone, Copy)]
pub struct Sought<V, P> {
    pub value: V,
    pub place: P,
}

/// A collection of keys that expire, each with a value.
///
/// Contracts see the collection as its `live_list`. A call at a time makes that the latest time; what has expired
/// by then is gone and everything else stays. Only `insert` and `insert_at` take memory.
pub trait KeyExpCollection<K: ExpiredKey<E>, E: Expiration, V: Copy> {
    /// A place among the live entries, at which `insert_at` begins to look. It is of use until the next call that takes `&mut self`.
    type Place: Copy;

    /// What the collection keeps.
    ghost live_list: { Self → LiveList K E V };

    /// The live entries that stand before a place, as far as the place tells.
    ghost before_place: { Self → Self.Place → List (K × V) };

    /// The live entries that stand after a place, as far as the place tells.
    ghost after_place: { Self → Self.Place → List (K × V) };

    /// How many comparisons a call makes at most, by the number of entries stored before it.
    ghost most_comparisons: { ℕ → ℕ };

    /// Adds the entry, in its place among the live ones. An entry that has expired is accepted and never answered.
    /// Where memory is refused, the answers at every later time are as before.
    fn insert<L: Ledger>(
        &mut self,
        key: K,
        val: V,
        time: E,
        steps: &mut Steps<L>,
    ) -> Result<(), AllocError>
        requires room { HasRoom (live_list self.old) }
        requires in_time { IsNotBefore E.cmp time (live_list self.old) }
        requires lawful { IsLawful K.order key (live_at E.cmp K.expires time (live_list self.old).entries) }
        requires new_key { IsNewKey K.order key (live_at E.cmp K.expires time (live_list self.old).entries) }
        ensures ok { OnOk result (IsInserted E.cmp K.expires K.order (key, val) time (live_list self.old) (live_list self.new)) }
        ensures err { OnErr result (IsAdvanced E.cmp K.expires time (live_list self.old) (live_list self.new)) }
        ensures sound { IsSound E.cmp K.expires K.order (live_list self.new) }
        ensures cost { CountsAtMost steps.old steps.new (most_comparisons (live_list self.old).stored) };

    /// The value of the last live entry below the key, else the default.
    fn first_less<L: Ledger>(&mut self, time: E, default: V, key: K, steps: &mut Steps<L>) -> V
        requires in_time { IsNotBefore E.cmp time (live_list self.old) }
        requires lawful { IsLawful K.order key (live_at E.cmp K.expires time (live_list self.old).entries) }
        ensures answer { result ≡ last_below K.order key default (live_at E.cmp K.expires time (live_list self.old).entries) }
        ensures kept { IsAdvanced E.cmp K.expires time (live_list self.old) (live_list self.new) }
        ensures sound { IsSound E.cmp K.expires K.order (live_list self.new) }
        ensures cost { CountsAtMost steps.old steps.new (most_comparisons (live_list self.old).stored) };

    /// The value of a live entry whose key the closure calls Equal, else of the last that it calls Less, else the
    /// default. The closure says how a key compares with what is sought.
    fn first_less_or_equal_by<F: Fn(K) -> Ordering, L: Ledger>(
        &mut self,
        time: E,
        default: V,
        f: F,
        steps: &mut Steps<L>,
    ) -> V
        requires in_time { IsNotBefore E.cmp time (live_list self.old) }
        requires callable { All (λ entry. F.pre f entry.0) (live_at E.cmp K.expires time (live_list self.old).entries) }

        // What the closure says is told by a function of the key alone.
        ensures answer { (by : K → Ordering) → DependsOnKey (F.post f) by (live_at E.cmp K.expires time (live_list self.old).entries) →
            IsMonotone by (live_at E.cmp K.expires time (live_list self.old).entries) →
            IsAnswer by default (live_at E.cmp K.expires time (live_list self.old).entries) result }
        ensures kept { IsAdvanced E.cmp K.expires time (live_list self.old) (live_list self.new) }
        ensures sound { IsSound E.cmp K.expires K.order (live_list self.new) }
        ensures cost { CountsAtMost steps.old steps.new (most_comparisons (live_list self.old).stored) };

    /// Whether a live key is equal to this one: the test of the key for `insert`.
    fn contains_key<L: Ledger>(&mut self, time: E, key: K, steps: &mut Steps<L>) -> bool
        requires in_time { IsNotBefore E.cmp time (live_list self.old) }
        requires lawful { IsLawful K.order key (live_at E.cmp K.expires time (live_list self.old).entries) }
        ensures found { OnTrue result (HasEqualKey K.order key (live_at E.cmp K.expires time (live_list self.old).entries)) }
        ensures absent { OnFalse result (IsNewKey K.order key (live_at E.cmp K.expires time (live_list self.old).entries)) }
        ensures kept { IsAdvanced E.cmp K.expires time (live_list self.old) (live_list self.new) }
        ensures sound { IsSound E.cmp K.expires K.order (live_list self.new) }
        ensures cost { CountsAtMost steps.old steps.new (most_comparisons (live_list self.old).stored) };

    /// The value that `first_less_or_equal_by` answers, and a place for keys that come where the search ended: what the
    /// place tells to stand before it the closure calls Less, and what it tells to stand after it Greater.
    fn seek<F: Fn(K) -> Ordering, L: Ledger>(
        &mut self,
        time: E,
        default: V,
        f: F,
        steps: &mut Steps<L>,
    ) -> Sought<V, Self::Place>
        requires in_time { IsNotBefore E.cmp time (live_list self.old) }
        requires callable { All (λ entry. F.pre f entry.0) (live_at E.cmp K.expires time (live_list self.old).entries) }
        ensures answer { (by : K → Ordering) → DependsOnKey (F.post f) by (live_at E.cmp K.expires time (live_list self.old).entries) →
            IsMonotone by (live_at E.cmp K.expires time (live_list self.old).entries) →
            IsAnswer by default (live_at E.cmp K.expires time (live_list self.old).entries) result.value }
        ensures place { (by : K → Ordering) → DependsOnKey (F.post f) by (live_at E.cmp K.expires time (live_list self.old).entries) →
            IsMonotone by (live_at E.cmp K.expires time (live_list self.old).entries) →
            IsPlace by (live_list self.new).entries (before_place self.new result.place) (after_place self.new result.place) }
        ensures kept { IsAdvanced E.cmp K.expires time (live_list self.old) (live_list self.new) }
        ensures sound { IsSound E.cmp K.expires K.order (live_list self.new) }
        ensures cost { CountsAtMost steps.old steps.new (most_comparisons (live_list self.old).stored) };

    /// Adds the entry as `insert` does, and compares it only with what the place doesn't tell to stand before or after it:
    /// all that it tells to stand before it must be below the key, and all that it tells to stand after it above. Gives the place
    /// for a next key: what stands before and after it stays.
    fn insert_at<L: Ledger>(
        &mut self,
        place: Self::Place,
        key: K,
        val: V,
        time: E,
        steps: &mut Steps<L>,
    ) -> Result<Self::Place, AllocError>
        requires room { HasRoom (live_list self.old) }
        requires in_time { IsNotBefore E.cmp time (live_list self.old) }
        requires lawful { IsLawful K.order key (live_at E.cmp K.expires time (live_list self.old).entries) }
        requires new_key { IsNewKey K.order key (live_at E.cmp K.expires time (live_list self.old).entries) }
        requires below { All (λ entry. K.order entry.0 key ≡ Less) (before_place self.old place) }
        requires above { All (λ entry. K.order entry.0 key ≡ Greater) (after_place self.old place) }
        ensures ok { OnOk result (IsInserted E.cmp K.expires K.order (key, val) time (live_list self.old) (live_list self.new)) }
        ensures before { IfOk result (λ next. before_place self.new next ≡ live_at E.cmp K.expires time (before_place self.old place)) }
        ensures after { IfOk result (λ next. after_place self.new next ≡ live_at E.cmp K.expires time (after_place self.old place)) }
        ensures err { OnErr result (IsAdvanced E.cmp K.expires time (live_list self.old) (live_list self.new)) }
        ensures sound { IsSound E.cmp K.expires K.order (live_list self.new) }
        ensures cost { CountsAtMost steps.old steps.new (most_comparisons (live_list self.old).stored) };

    /// Drops all entries. The latest time is forgotten, and the insertions are counted from zero again.
    fn clear(&mut self)
        ensures { live_list self.new ≡ nothing_kept };

    /// Whether one more insertion is counted: the test for `insert`.
    fn has_room(&self) -> bool
        ensures room { IsTrue result ↔ HasRoom (live_list self.now) }
        ensures sound { IsSound E.cmp K.expires K.order (live_list self.now) };

    /// The latest time that a call named since the collection was made or cleared: the test of the time for every
    /// other call.
    fn latest_time(&self) -> Option<E>
        ensures time { result ≡ (live_list self.now).latest_time }
        ensures sound { IsSound E.cmp K.expires K.order (live_list self.now) };

    /// With more entries stored no fewer comparisons are allowed.
    ghost most_comparisons_rise: { (m n : ℕ) → m ≤ n → most_comparisons m ≤ most_comparisons n };
}
