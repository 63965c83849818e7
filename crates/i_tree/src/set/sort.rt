//! What every set of indexed values does: values with distinct keys, sorted by these, each known by an index.
//!
//! Degenerate cases: where no value comes before, the index is `EMPTY_REF`. How many comparisons a call makes at most
//! each set tells by `most_comparisons`.
ghost use Rattle.std.specs.Prelude.{◌≡◌, ℕ, ◌≤◌, ◌↔◌, IsTrue, ◌+◌, OnOk, OnErr, IfErr, Contains, length};
ghost use Rattle.std.specs.Fn.{FnReturnsAt};
ghost use Rattle.std.specs.declared.cmp.Ordering.{Ordering};
ghost use Rattle.i_tree.specs.IndexedSet.{IndexedSet, IsNamed, values_of, HasIndex, SetHasRoom, AreRising, IsNewSetKey, with_value, values_without};
ghost use Rattle.i_tree.specs.IndexedSet.{index_just_before, index_sought, TakesKeys, DependsOnSetKey, IsUnlike, IsMonotoneBy, with_value_at};
ghost use Rattle.i_tree.specs.Steps.{CountsAtMost};
ghost use Rattle.std.specs.Borrow.{sem, Lends};

use crate::EMPTY_REF;
use crate::steps::Steps;
use std::cmp::Ordering;
use std::sync::ledger::Ledger;

/// A value with a key.
pub trait KeyValue<K> {
    /// The value's key.
    ghost key_of: { Self → K };

    /// The key by which the value is sorted.
    fn key(&self) -> &K
        ensures { result.now ≡ key_of self.now };
}

/// A set of values with distinct keys, sorted by them. An index names a value.
///
/// Contracts see the set as its `set`: a sorted list of indexes and values. What was written through
/// `value_by_index_mut` may leave the list unsorted, so that it is sorted is asked by the calls that search.
pub trait SetCollection<K: Ord, V: KeyValue<K>> {
    /// The list of indexes and values.
    ghost set: { Self → IndexedSet V };

    /// How many comparisons a call makes at most, by the number of values before it.
    ghost most_comparisons: { ℕ → ℕ };

    /// The set after the value at an index was written over.
    ghost written: { Self → ℕ → V → Self };

    /// Adds the value, whose key is new, in its place. A refused value is handed back, and the set is as before.
    fn insert<L: Ledger>(&mut self, val: V, steps: &mut Steps<L>) -> Result<(), V>
        requires room { SetHasRoom (set self.old) }
        requires sorted { AreRising K.cmp V.key_of (values_of (set self.old)) }
        requires new_key { IsNewSetKey K.cmp V.key_of (V.key_of val) (values_of (set self.old)) }
        ensures values { OnOk result (values_of (set self.new) ≡ with_value K.cmp V.key_of val (values_of (set self.old))) }
        ensures insertions { OnOk result ((set self.new).insertions ≡ (set self.old).insertions + 1) }
        ensures sorted { AreRising K.cmp V.key_of (values_of (set self.new)) }
        ensures refused { OnErr result (set self.new ≡ set self.old) }
        ensures back { IfErr result (λ back. back ≡ val) }
        ensures cost { CountsAtMost steps.old steps.new (most_comparisons (length (set self.old).entries)) };

    /// Drops the value with the index.
    fn delete_by_index(&mut self, index: u32)
        requires live { HasIndex (set self.old) index }
        ensures values { values_of (set self.new) ≡ values_without index (set self.old) }
        ensures sorted { AreRising K.cmp V.key_of (values_of (set self.old)) → AreRising K.cmp V.key_of (values_of (set self.new)) }
        ensures insertions { (set self.new).insertions ≡ (set self.old).insertions };

    /// The index of the value just before the one with the index, `EMPTY_REF` for the first.
    fn index_before(&self, index: u32) -> u32
        requires live { HasIndex (set self.now) index }
        ensures { result ≡ index_just_before EMPTY_REF index (set self.now).entries };

    /// The index of the last value that the closure calls Equal, else of the last that it calls Less, else `EMPTY_REF`.
    fn first_index_less_by<F: Fn(&K) -> Ordering, L: Ledger>(
        &self,
        f: F,
        steps: &mut Steps<L>,
    ) -> u32
        requires callable { TakesKeys V.key_of (F.pre f) (values_of (set self.now)) }

        // What the closure says is told by a function of the key alone.
        ensures index { (by : K → Ordering) → DependsOnSetKey V.key_of (FnReturnsAt F.Fn f) by (values_of (set self.now)) →
            IsMonotoneBy V.key_of by (values_of (set self.now)) → result ≡ index_sought V.key_of by EMPTY_REF (set self.now).entries }

        // After a search by the order to a key, the key is new where the index is not that of an equal one.
        ensures new_key { (key : K) → AreRising K.cmp V.key_of (values_of (set self.now)) →
            DependsOnSetKey V.key_of (FnReturnsAt F.Fn f) (λ k. K.cmp k key) (values_of (set self.now)) → IsUnlike K.cmp V.key_of result key (set self.now) →
            IsNewSetKey K.cmp V.key_of key (values_of (set self.now)) }
        ensures cost { CountsAtMost steps.old steps.new (most_comparisons (length (set self.now).entries)) };

    /// The value with the index.
    fn value_by_index(&self, index: u32) -> &V
        requires live { HasIndex (set self.now) index }
        ensures { Contains (set self.now).entries (index, result.now) };

    /// The value with the index, to be written over.
    fn value_by_index_mut(&mut self, index: u32) -> &mut V
        requires live { HasIndex (set self.old) index }
        ensures* writes_back { sem 𝓛 (Lends Self.row V.row self.entry result (written self.old index)) }
        ensures value { Contains (set self.old).entries (index, result.now) };

    /// Whether a value has the index: the test of the index for the other calls.
    fn has_index(&self, index: u32) -> bool
        ensures live { IsTrue result ↔ HasIndex (set self.now) index }
        ensures sound { IsNamed EMPTY_REF (set self.now) };

    /// Whether one more insertion is counted: the test for `insert`.
    fn has_room(&self) -> bool
        ensures room { IsTrue result ↔ SetHasRoom (set self.now) }
        ensures sound { IsNamed EMPTY_REF (set self.now) };

    /// With more values no fewer comparisons are allowed.
    ghost most_comparisons_rise: { (m n : ℕ) → m ≤ n → most_comparisons m ≤ most_comparisons n };

    /// A write through `value_by_index_mut` is seen, and nothing else changes.
    ghost written_is: { (s : Self) (index : ℕ) (value : V) → HasIndex (set s) index → set (written s index value) ≡ with_value_at index value (set s) };
}
