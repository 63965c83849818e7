//! The live list behind a red-black tree.
//!
//! Each call goes down the tree once by binary search, and removes what has expired on its way. It makes at most 2k
//! comparisons, where k is the greatest number with `2^k <= n + 1` for n entries stored. Degenerate cases: an entry
//! that has expired is stored and never answered. Each entry is removed once, in at most a step for each level.
ghost use Rattle.std.specs.Prelude.{◌≡◌, [], All, IfOk, OnErr, OnOk};
ghost use Rattle.std.specs.Bool.{OnTrue, OnFalse};
ghost use Rattle.std.specs.Ordering.{ordering_then};
ghost use Rattle.std.specs.declared.cmp.Ordering.{Ordering};
ghost use Rattle.std.specs.declared.cmp.Ordering.TheVariants.{Greater};
ghost use Rattle.i_tree.specs.LiveList.{LiveList, nothing_kept, live_at, HasRoom, IsSound, IsNotBefore, IsLawful, IsNewKey, IsAdvanced, IsInserted};
ghost use Rattle.i_tree.specs.KeyAnswers.{last_below, HasEqualKey, DependsOnKey, IsMonotone, IsAnswer};
ghost use Rattle.i_tree.specs.Steps.{CountsAtMost};
ghost use Rattle.i_tree.specs.TreeBound.{most_comparisons};
ghost use Rattle.i_tree.specs.Tree.Search.{CountsNarrowing, IsFound, value_or};

use crate::MAX_INSERTIONS;
use crate::exp::{Expiration, ExpiredKey};
use crate::key::exp::{KeyExpCollection, Sought};
use crate::key::search::{Way, search};
use crate::steps::Steps;
use crate::tree::entries::Entries;
use std::alloc::{AllocError, Global};
use std::cmp::Ordering;
use std::marker::Model;
use std::sync::ledger::Ledger;

/// A collection of expiring keys in a red-black tree of nodes in a pool. A node's entry has the node's place.
#[derive(Drop)]
pub struct KeyExpTree<K: ExpiredKey<E>, E: Expiration, V: Copy> {
    tree: Entries<(K, V)>,
    latest_time: Option<E>,
    insertions: u32,
}

impl<K: ExpiredKey<E>, E: Expiration, V: Copy> Model for KeyExpTree<K, E, V> {
    ghost use Rattle.i_tree.specs.LiveList.{LiveList};
    ghost use Rattle.i_tree.specs.Tree.Kept.{kept_by, IsKept};

    ghost Value = { LiveList K E V };

    ghost view = { λ s. kept_by E.cmp K.expires s.latest_time s.insertions s.tree };

    ghost invariant = { λ s. IsKept E.cmp K.expires K.order s.latest_time s.insertions s.tree };
}

impl<K: ExpiredKey<E>, E: Expiration, V: Copy> KeyExpTree<K, E, V> {
    /// A tree with no entry and no time, and memory for so many entries.
    pub fn new(alloc: Global, capacity: usize) -> Result<Self, AllocError>
        ensures { IfOk result (λ tree. tree ≡ nothing_kept) }
    {
        Ok(KeyExpTree {
            tree: Entries::new(alloc, capacity)?,
            latest_time: None,
            insertions: 0,
        })
    }

    /// Makes memory for so many entries in all. What the tree keeps stays, whatever the answer.
    pub fn reserve_capacity(&mut self, capacity: usize) -> Result<(), AllocError>
        ensures { self.new ≡ self.old }
    {
        self.tree.reserve_capacity(capacity)
    }

    // Looks for a key by how live keys compare with it, and makes this the latest time.
    fn look<F: Fn(K) -> Ordering, L: Ledger>(
        &mut self,
        time: E,
        f: F,
        steps: &mut Steps<L>,
    ) -> Way<V>
        requires in_time { IsNotBefore E.cmp time self.old }
        requires callable { All (λ entry. F.pre f entry.0) (live_at E.cmp K.expires time self.old.entries) }
        ensures found { (by : K → Ordering) → DependsOnKey (F.post f) by (live_at E.cmp K.expires time self.old.entries) →
            IsMonotone by (live_at E.cmp K.expires time self.old.entries) → IsFound by (live_at E.cmp K.expires time self.old.entries) result }
        ensures kept { IsAdvanced E.cmp K.expires time self.old self.new }
        ensures sound { IsSound E.cmp K.expires K.order self.new }
        ensures cost { CountsAtMost steps.old steps.new (most_comparisons self.old.stored) }
        ensures exact { (by : K → Ordering) → DependsOnKey (F.post f) by (live_at E.cmp K.expires time self.old.entries) →
            CountsNarrowing by (live_at E.cmp K.expires time self.old.entries) steps.old steps.new }
    {
        let way = search(&mut self.tree, time, f, steps);
        self.latest_time = Some(time);
        way
    }
}

impl<K: ExpiredKey<E>, E: Expiration, V: Copy> KeyExpCollection<K, E, V> for KeyExpTree<K, E, V> {
    type Place = ();

    // Beside what the trait says, each call makes as many comparisons as some search for the key among the live keys
    // takes.
    ghost live_list = { λ tree. tree };

    ghost before_place = { λ _ place. [] };

    ghost after_place = { λ _ place. [] };

    ghost most_comparisons = { most_comparisons };

    fn insert<L: Ledger>(
        &mut self,
        key: K,
        val: V,
        time: E,
        steps: &mut Steps<L>,
    ) -> Result<(), AllocError>
        requires room { HasRoom self.old }
        requires in_time { IsNotBefore E.cmp time self.old }
        requires lawful { IsLawful K.order key (live_at E.cmp K.expires time self.old.entries) }
        requires new_key { IsNewKey K.order key (live_at E.cmp K.expires time self.old.entries) }
        ensures ok { OnOk result (IsInserted E.cmp K.expires K.order (key, val) time self.old self.new) }
        ensures err { OnErr result (IsAdvanced E.cmp K.expires time self.old self.new) }
        ensures sound { IsSound E.cmp K.expires K.order self.new }
        ensures cost { CountsAtMost steps.old steps.new (most_comparisons self.old.stored) }
        ensures exact { CountsNarrowing (λ k. K.order k key) (live_at E.cmp K.expires time self.old.entries) steps.old steps.new }
    {
        let way = search(&mut self.tree, time, |k: K| k.key_order(&key), steps);
        self.latest_time = Some(time);
        let Way::Vacant { parent, left, .. } = way else {
            unreachable!()
        };
        self.tree.insert(parent, left, (key, val))?;
        self.insertions += 1;
        Ok(())
    }

    fn first_less<L: Ledger>(&mut self, time: E, default: V, key: K, steps: &mut Steps<L>) -> V
        requires in_time { IsNotBefore E.cmp time self.old }
        requires lawful { IsLawful K.order key (live_at E.cmp K.expires time self.old.entries) }
        ensures answer { result ≡ last_below K.order key default (live_at E.cmp K.expires time self.old.entries) }
        ensures kept { IsAdvanced E.cmp K.expires time self.old self.new }
        ensures sound { IsSound E.cmp K.expires K.order self.new }
        ensures cost { CountsAtMost steps.old steps.new (most_comparisons self.old.stored) }
        ensures exact { CountsNarrowing (λ k. ordering_then (K.order k key) Greater) (live_at E.cmp K.expires time self.old.entries) steps.old steps.new }
    {
        // An equal key counts as a greater one, so that none ends the search.
        let way = self.look(
            time,
            |k: K| k.key_order(&key).then(Ordering::Greater),
            steps,
        );
        value_or(way, default)
    }

    fn first_less_or_equal_by<F: Fn(K) -> Ordering, L: Ledger>(
        &mut self,
        time: E,
        default: V,
        f: F,
        steps: &mut Steps<L>,
    ) -> V
        requires in_time { IsNotBefore E.cmp time self.old }
        requires callable { All (λ entry. F.pre f entry.0) (live_at E.cmp K.expires time self.old.entries) }
        ensures answer { (by : K → Ordering) → DependsOnKey (F.post f) by (live_at E.cmp K.expires time self.old.entries) →
            IsMonotone by (live_at E.cmp K.expires time self.old.entries) → IsAnswer by default (live_at E.cmp K.expires time self.old.entries) result }
        ensures kept { IsAdvanced E.cmp K.expires time self.old self.new }
        ensures sound { IsSound E.cmp K.expires K.order self.new }
        ensures cost { CountsAtMost steps.old steps.new (most_comparisons self.old.stored) }
        ensures exact { (by : K → Ordering) → DependsOnKey (F.post f) by (live_at E.cmp K.expires time self.old.entries) →
            CountsNarrowing by (live_at E.cmp K.expires time self.old.entries) steps.old steps.new }
    {
        value_or(self.look(time, f, steps), default)
    }

    fn contains_key<L: Ledger>(&mut self, time: E, key: K, steps: &mut Steps<L>) -> bool
        requires in_time { IsNotBefore E.cmp time self.old }
        requires lawful { IsLawful K.order key (live_at E.cmp K.expires time self.old.entries) }
        ensures found { OnTrue result (HasEqualKey K.order key (live_at E.cmp K.expires time self.old.entries)) }
        ensures absent { OnFalse result (IsNewKey K.order key (live_at E.cmp K.expires time self.old.entries)) }
        ensures kept { IsAdvanced E.cmp K.expires time self.old self.new }
        ensures sound { IsSound E.cmp K.expires K.order self.new }
        ensures cost { CountsAtMost steps.old steps.new (most_comparisons self.old.stored) }
        ensures exact { CountsNarrowing (λ k. K.order k key) (live_at E.cmp K.expires time self.old.entries) steps.old steps.new }
    {
        matches!(
            self.look(time, |k: K| k.key_order(&key), steps),
            Way::Equal(_)
        )
    }

    // A place tells nothing, so an insertion looks at all live entries.
    fn seek<F: Fn(K) -> Ordering, L: Ledger>(
        &mut self,
        time: E,
        default: V,
        f: F,
        steps: &mut Steps<L>,
    ) -> Sought<V, ()> {
        Sought {
            value: self.first_less_or_equal_by(time, default, f, steps),
            place: (),
        }
    }

    fn insert_at<L: Ledger>(
        &mut self,
        _place: (),
        key: K,
        val: V,
        time: E,
        steps: &mut Steps<L>,
    ) -> Result<(), AllocError> {
        self.insert(key, val, time, steps)
    }

    fn clear(&mut self) {
        self.tree.clear();
        self.latest_time = None;
        self.insertions = 0;
    }

    fn has_room(&self) -> bool {
        self.insertions < MAX_INSERTIONS
    }

    fn latest_time(&self) -> Option<E> {
        self.latest_time
    }

    ghost use Rattle.i_tree.specs.Tree.Rises.{most_comparisons-rise};

    ghost most_comparisons_rise = { most_comparisons-rise };
}

// The value found, or the default.
fn value_or<V: Copy>(way: Way<V>, default: V) -> V
    ensures { result ≡ value_or way default }
{
    match way {
        Way::Equal(val) => val,
        Way::Vacant { below, .. } => below.unwrap_or(default),
    }
}
