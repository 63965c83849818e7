//! The set as it is: a sorted vector, by linear search. An index is a position, so an insertion or a deletion
//! changes the indexes behind it.
//!
//! A search goes from the front, so it takes time and comparisons in the number of values.
ghost use Rattle.std.specs.Prelude.{◌≡◌, ◌≤◌, ◌<◌, ◌+◌, ◌-◌, ◌^◌, length, min, vec_len, vec_capacity, IfOk, IfErr, OnOk, OnErr};
ghost use Rattle.std.specs.Fn.{FnReturnsAt};
ghost use Rattle.std.specs.declared.cmp.Ordering.{Ordering};
ghost use Rattle.i_tree.specs.IndexedSet.{SetHasRoom, AreRising, IsNewSetKey, TakesKeys, DependsOnSetKey, IsUnlike, IsMonotoneBy, index_sought};
ghost use Rattle.i_tree.specs.IndexedSet.{values_of, with_value};
ghost use Rattle.i_tree.specs.SetSearch.{leading, set_comparisons_of};
ghost use Rattle.i_tree.specs.Steps.{CountsExactly, CountsAtMost};

use crate::set::sort::{KeyValue, SetCollection};
use crate::steps::Steps;
use crate::{EMPTY_REF, MAX_INSERTIONS};
use std::alloc::{AllocError, Global};
use std::cmp::Ordering;
use std::sync::ledger::Ledger;

/// A set of indexed values in a vector, sorted by their keys.
#[derive(Drop)]
pub struct SetList<V> {
    values: Vec<V>,
    insertions: u32,
    ghost few: { vec_len values ≤ insertions },
    ghost bounded: { insertions ≤ 2 ^ 31 - 1 },
}

impl<V> SetList<V> {
    ghost use Rattle.i_tree.specs.SetListView.{set_of};
    ghost use Rattle.i_tree.specs.IndexedSet.{empty_set};

    /// A set with no value, and memory for so many.
    pub fn new(alloc: Global, capacity: usize) -> Result<Self, AllocError>
        ensures empty { IfOk result (λ made. set_of made ≡ empty_set) }
        ensures room { IfOk result (λ made. capacity ≤ vec_capacity made.values) }
    {
        Ok(SetList {
            values: Vec::with_capacity(alloc, capacity)?,
            insertions: 0,
        })
    }
}

impl<K: Ord, V: KeyValue<K> + Drop> SetCollection<K, V> for SetList<V> {
    ghost use Rattle.i_tree.specs.SetListView.{set_of, list_written};

    ghost set = { set_of };

    ghost most_comparisons = { λ values. values };

    ghost written = { list_written };

    // Beside what the trait says, the calls that search tell their comparisons exactly.
    fn insert<L: Ledger>(&mut self, val: V, steps: &mut Steps<L>) -> Result<(), V>
        requires room { SetHasRoom (set_of self.old) }
        requires sorted { AreRising K.cmp V.key_of (values_of (set_of self.old)) }
        requires new_key { IsNewSetKey K.cmp V.key_of (V.key_of val) (values_of (set_of self.old)) }
        ensures values { OnOk result (values_of (set_of self.new) ≡ with_value K.cmp V.key_of val (values_of (set_of self.old))) }
        ensures insertions { OnOk result ((set_of self.new).insertions ≡ (set_of self.old).insertions + 1) }
        ensures sorted { AreRising K.cmp V.key_of (values_of (set_of self.new)) }
        ensures refused { OnErr result (set_of self.new ≡ set_of self.old) }
        ensures back { IfErr result (λ back. back ≡ val) }
        ensures cost { CountsAtMost steps.old steps.new (length (set_of self.old).entries) }
        ensures exact { CountsExactly steps.old steps.new (set_comparisons_of V.key_of (λ k. K.cmp k (V.key_of val)) (values_of (set_of self.old))) }
    {
        let at = count_not_above(&self.values, |key: &K| key.cmp(val.key()), steps);
        match self.values.insert(at, val) {
            Ok(()) => {
                self.insertions += 1;
                Ok(())
            }
            Err(refused) => Err(refused.value),
        }
    }

    fn delete_by_index(&mut self, index: u32) {
        let _value = self.values.remove(index as usize);
    }

    fn index_before(&self, index: u32) -> u32 {
        if index == 0 { EMPTY_REF } else { index - 1 }
    }

    fn first_index_less_by<F: Fn(&K) -> Ordering, L: Ledger>(
        &self,
        f: F,
        steps: &mut Steps<L>,
    ) -> u32
        requires callable { TakesKeys V.key_of (F.pre f) (values_of (set_of self.now)) }
        ensures index { (by : K → Ordering) → DependsOnSetKey V.key_of (FnReturnsAt F.Fn f) by (values_of (set_of self.now)) →
            IsMonotoneBy V.key_of by (values_of (set_of self.now)) → result ≡ index_sought V.key_of by EMPTY_REF (set_of self.now).entries }
        ensures new_key { (key : K) → AreRising K.cmp V.key_of (values_of (set_of self.now)) →
            DependsOnSetKey V.key_of (FnReturnsAt F.Fn f) (λ k. K.cmp k key) (values_of (set_of self.now)) →
            IsUnlike K.cmp V.key_of result key (set_of self.now) → IsNewSetKey K.cmp V.key_of key (values_of (set_of self.now)) }
        ensures cost { CountsAtMost steps.old steps.new (length (set_of self.now).entries) }
        ensures exact { (by : K → Ordering) → DependsOnSetKey V.key_of (FnReturnsAt F.Fn f) by (values_of (set_of self.now)) →
            CountsExactly steps.old steps.new (set_comparisons_of V.key_of by (values_of (set_of self.now))) }
    {
        let count = count_not_above(&self.values, f, steps);
        if count == 0 {
            EMPTY_REF
        } else {
            (count - 1) as u32
        }
    }

    fn value_by_index(&self, index: u32) -> &V {
        &self.values[index as usize]
    }

    fn value_by_index_mut(&mut self, index: u32) -> &mut V {
        &mut self.values[index as usize]
    }

    fn has_index(&self, index: u32) -> bool {
        (index as usize) < self.values.len()
    }

    fn has_room(&self) -> bool {
        self.insertions < MAX_INSERTIONS
    }

    ghost most_comparisons_rise = { λ m n less. less };

    ghost use Rattle.i_tree.specs.SetListWrites.{set_of-written};

    ghost written_is = { λ s index value has. set_of-written s index value };
}

// How many values from the front the closure doesn't call Greater.
fn count_not_above<K, V: KeyValue<K>, F: Fn(&K) -> Ordering, L: Ledger>(
    values: &[V],
    f: F,
    steps: &mut Steps<L>,
) -> usize
    requires { TakesKeys V.key_of (F.pre f) values.now }
    ensures count { (by : K → Ordering) → DependsOnSetKey V.key_of (FnReturnsAt F.Fn f) by values.now → result ≡ leading V.key_of by values.now }
    ensures within { result ≤ length values.now }
    ensures cost { CountsExactly steps.old steps.new (min (result + 1) (length values.now)) }
{
    let mut rest = values;
    let mut count = 0;
    while let Some((value, later)) = rest.split_first() {
        steps.tick_comparison();
        if f(value.key()).is_gt() {
            return count;
        }
        rest = later;
        count += 1;
    }
    count
}
