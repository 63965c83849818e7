//! The set as a red-black tree of nodes in a pool, by binary search. An index names a node.
//!
//! Degenerate cases: of an empty set, and below the first value, a search answers `EMPTY_REF`. A search or an
//! insertion makes at most 2k comparisons, where k is the greatest number with `2^k <= n + 1` for n values.
ghost use Rattle.std.specs.Prelude.{◌≡◌, ℕ, ◌+◌, length, All, Some, IsSome, OnOk, OnErr, IfOk, IfErr};
ghost use Rattle.std.specs.Borrow.{sem, Lends};
ghost use Rattle.std.specs.Fn.{FnReturnsAt};
ghost use Rattle.std.specs.declared.cmp.Ordering.{Ordering};
ghost use Rattle.std.specs.contracts.option.Option.{the_row as option_row};
ghost use Rattle.i_tree.specs.Steps.{CountsExactly, CountsAtMost};
ghost use Rattle.i_tree.specs.TreeBound.{most_comparisons};
ghost use Rattle.i_tree.specs.Tree.Entries.{IsTree, tree_entries_of};
ghost use Rattle.i_tree.specs.IndexedSet.{empty_set, SetHasRoom, AreRising, IsNewSetKey, TakesKeys, DependsOnSetKey, HasIndex, values_of, with_value};
ghost use Rattle.i_tree.specs.IndexedSet.{values_without};
ghost use Rattle.i_tree.specs.IndexesKept.{AddsOne, DropsOne};
ghost use Rattle.i_tree.specs.Tree.SetSearch.{IsGap};
ghost use Rattle.i_tree.specs.Tree.SetView.{values_in};

use crate::set::sort::{KeyValue, SetCollection};
use crate::steps::Steps;
use crate::tree::entries::Entries;
use crate::tree::pool::NO_NODE;
use crate::{EMPTY_REF, MAX_INSERTIONS};
use std::alloc::{AllocError, Global};
use std::cmp::Ordering;
use std::marker::{Model, PhantomData};
use std::sync::ledger::Ledger;

/// A set of indexed values in a red-black tree of nodes in a pool. A spare place holds no value.
#[derive(Drop)]
pub struct SetTree<K, V> {
    tree: Entries<Option<V>>,
    insertions: u32,
    keys: PhantomData<K>,
}

impl<K, V> Model for SetTree<K, V> {
    ghost use Rattle.i_tree.specs.IndexedSet.{IndexedSet};
    ghost use Rattle.i_tree.specs.Tree.SetView.{set_of, IsSetTree};

    ghost Value = { IndexedSet V };

    ghost view = { λ s. set_of s.tree s.insertions };

    ghost invariant = { λ s. IsSetTree s.tree s.insertions };
}

impl<K, V: Drop> SetTree<K, V> {
    /// A set with no value, and memory for so many.
    pub fn new(alloc: Global, capacity: usize) -> Result<Self, AllocError>
        ensures { IfOk result (λ made. made ≡ empty_set) }
    {
        Ok(SetTree {
            tree: Entries::new(alloc, capacity)?,
            insertions: 0,
            keys: PhantomData,
        })
    }
}

// The value that a place holds, to be written over.
fn held_mut<V>(place: &mut Option<V>) -> &mut V
    requires { IsSome place.old }
    ensures* writes_back { sem 𝓛 (Lends (option_row V.row) V.row place.entry result Some) }
    ensures value { place.old ≡ Some result.now }
{
    match place {
        Some(value) => value,
        None => unreachable!(),
    }
}

// The value that a place holds.
fn held<V>(place: &Option<V>) -> &V
    requires { IsSome place.now }
    ensures { place.now ≡ Some result.now }
{
    match place {
        Some(value) => value,
        None => unreachable!(),
    }
}

// A vacant place, and the index of the value just before it.
#[derive(Clone, Copy)]
struct Gap {
    parent: u32,
    left: bool,
    index: u32,
}

// The place behind the last value that the closure doesn't call Greater, after a comparison at each node above it.
fn search<K, V: KeyValue<K> + Drop, F: Fn(&K) -> Ordering, L: Ledger>(
    tree: &Entries<Option<V>>,
    f: F,
    steps: &mut Steps<L>,
) -> Gap
    requires tree { IsTree tree.now }
    requires held { All (λ entry. IsSome entry.1) (tree_entries_of tree.now) }
    requires callable { TakesKeys V.key_of (F.pre f) (values_in tree.now) }
    ensures gap { (n : ℕ) × (CountsExactly steps.old steps.new n × IsGap (λ by. DependsOnSetKey V.key_of (FnReturnsAt F.Fn f) by (values_in tree.now))
        V.key_of tree.now result.parent result.left n result.index) }
    ensures cost { CountsAtMost steps.old steps.new (most_comparisons (length (tree_entries_of tree.now))) }
{
    let mut parent = NO_NODE;
    let mut left = true;
    let mut index = EMPTY_REF;
    let mut at = tree.down(parent, left);
    loop {
        if at == NO_NODE {
            return Gap {
                parent,
                left,
                index,
            };
        }
        let value = held(tree.entry(at));
        steps.tick_comparison();
        left = f(value.key()).is_gt();
        parent = at;
        if !left {
            index = at;
            at = tree.child_at(at, left);
        } else {
            at = tree.child_at(at, left);
        }
    }
}

impl<K: Ord, V: KeyValue<K> + Drop> SetCollection<K, V> for SetTree<K, V> {
    ghost use Rattle.i_tree.specs.IndexedSet.{with_value_at};

    ghost set = { λ s. s };

    ghost most_comparisons = { most_comparisons };

    ghost written = { λ s index value. with_value_at index value s };

    fn insert<L: Ledger>(&mut self, val: V, steps: &mut Steps<L>) -> Result<(), V>
        requires room { SetHasRoom self.old }
        requires sorted { AreRising K.cmp V.key_of (values_of self.old) }
        requires new_key { IsNewSetKey K.cmp V.key_of (V.key_of val) (values_of self.old) }
        ensures values { OnOk result (values_of self.new ≡ with_value K.cmp V.key_of val (values_of self.old)) }
        ensures insertions { OnOk result (self.new.insertions ≡ self.old.insertions + 1) }
        ensures sorted { AreRising K.cmp V.key_of (values_of self.new) }
        ensures refused { OnErr result (self.new ≡ self.old) }
        ensures back { IfErr result (λ back. back ≡ val) }
        ensures cost { CountsAtMost steps.old steps.new (most_comparisons (length self.old.entries)) }
        ensures indexes { OnOk result (AddsOne val self.old self.new) }
    {
        let gap = search(&self.tree, |key: &K| key.cmp(val.key()), steps);
        match self.tree.insert(gap.parent, gap.left, Some(val)) {
            Ok(_index) => {
                self.insertions += 1;
                Ok(())
            }
            Err(refused) => Err(refused.value.unwrap()),
        }
    }

    fn delete_by_index(&mut self, index: u32)
        requires live { HasIndex self.old index }
        ensures values { values_of self.new ≡ values_without index self.old }
        ensures sorted { AreRising K.cmp V.key_of (values_of self.old) → AreRising K.cmp V.key_of (values_of self.new) }
        ensures insertions { self.new.insertions ≡ self.old.insertions }
        ensures indexes { DropsOne index self.old self.new }
    {
        let _value = self.tree.entry_mut(index).take();
        self.tree.remove(index);
    }

    fn index_before(&self, index: u32) -> u32 {
        let before = self.tree.previous(index);
        if before == NO_NODE { EMPTY_REF } else { before }
    }

    fn first_index_less_by<F: Fn(&K) -> Ordering, L: Ledger>(
        &self,
        f: F,
        steps: &mut Steps<L>,
    ) -> u32 {
        search(&self.tree, f, steps).index
    }

    fn value_by_index(&self, index: u32) -> &V {
        held(self.tree.entry(index))
    }

    fn value_by_index_mut(&mut self, index: u32) -> &mut V {
        held_mut(self.tree.entry_mut(index))
    }

    fn has_index(&self, index: u32) -> bool {
        self.tree.has_place(index) && self.tree.entry(index).is_some()
    }

    fn has_room(&self) -> bool {
        self.insertions < MAX_INSERTIONS
    }

    ghost use Rattle.i_tree.specs.Tree.Rises.{most_comparisons-rise};

    ghost most_comparisons_rise = { most_comparisons-rise };

    ghost use Rattle.std.specs.Prelude.{refl};

    ghost written_is = { λ s index value has. refl };
}
