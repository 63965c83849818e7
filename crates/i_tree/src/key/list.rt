//! The live list as it is: a sorted vector, by linear search.
//!
//! Each call first drops the expired entries and then searches from the front, so it takes time and comparisons in
//! the number of live entries. Degenerate cases: an entry that has expired isn't stored. It serves where few keys
//! live at a time.
ghost use Rattle.std.specs.Prelude.{◌≡◌, ◌<◌, ◌≤◌, [], All, IfOk, OnErr, OnOk, if◌then◌else◌, length};
ghost use Rattle.std.specs.Bool.{OnTrue, OnFalse};
ghost use Rattle.std.specs.declared.cmp.Ordering.{Ordering};
ghost use Rattle.i_tree.specs.LiveList.{nothing_kept, is_live, live_at, IsSound, IsNotBefore, HasRoom, IsLawful, IsNewKey, IsAdvanced, IsInserted};
ghost use Rattle.i_tree.specs.KeyAnswers.{last_below, HasEqualKey, DependsOnKey, IsMonotone, IsAnswer};
ghost use Rattle.i_tree.specs.Search.{place_of, stop_of, compared, comparisons_of, value_before_place};
ghost use Rattle.i_tree.specs.Steps.{CountsExactly, CountsAtMost};

use crate::MAX_INSERTIONS;
use crate::exp::{Expiration, ExpiredKey};
use crate::key::exp::{KeyExpCollection, Sought};
use crate::steps::Steps;
use std::alloc::{AllocError, Global};
use std::cmp::Ordering;
use std::marker::Model;
use std::sync::ledger::Ledger;

/// A collection of expiring keys that keeps its live entries in a vector, sorted by the keys' order.
#[derive(Drop)]
pub struct KeyExpList<K: ExpiredKey<E>, E: Expiration, V: Copy> {
    entries: Vec<(K, V)>,
    latest_time: Option<E>,
    insertions: u32,
}

impl<K: ExpiredKey<E>, E: Expiration, V: Copy> Model for KeyExpList<K, E, V> {
    ghost use Rattle.std.specs.Prelude.{length};
    ghost use Rattle.i_tree.specs.LiveList.{LiveList, IsSound};

    ghost Value = { LiveList K E V };

    ghost view = { λ s. record { latest_time = s.latest_time; insertions = s.insertions; stored = length s.entries.items; entries = s.entries.items } };

    ghost invariant = { λ s. IsSound E.cmp K.expires K.order (record {
      latest_time = s.latest_time;
      insertions = s.insertions;
      stored = length s.entries.items;
      entries = s.entries.items;
    }) };
}

impl<K: ExpiredKey<E>, E: Expiration, V: Copy> KeyExpList<K, E, V> {
    /// A list with no entry and no time, and memory for so many entries.
    pub fn new(alloc: Global, capacity: usize) -> Result<Self, AllocError>
        ensures { IfOk result (λ list. list ≡ nothing_kept) }
    {
        Ok(KeyExpList {
            entries: Vec::with_capacity(alloc, capacity)?,
            latest_time: None,
            insertions: 0,
        })
    }

    /// Makes memory for so many entries in all. What the list keeps stays, whatever the answer.
    pub fn reserve_capacity(&mut self, capacity: usize) -> Result<(), AllocError>
        ensures { self.new ≡ self.old }
    {
        let stored = self.entries.len();
        if capacity > stored {
            self.entries.reserve(capacity - stored)?;
        }
        Ok(())
    }

    // Drops what has expired, and makes this the latest time.
    fn advance(&mut self, time: E)
        ensures kept { IsAdvanced E.cmp K.expires time self.old self.new }
        ensures sound { IsSound E.cmp K.expires K.order self.new }
        ensures stored { self.new.stored ≡ length self.new.entries }
    {
        self.entries
            .retain(|entry| entry.0.expiration().cmp(&time).is_gt());
        self.latest_time = Some(time);
    }

    // Where the key is, or where it would go.
    fn place_of_key<L: Ledger>(&self, key: K, steps: &mut Steps<L>) -> Result<usize, usize>
        ensures place { result ≡ place_of (λ k. K.order k key) self.now.entries }
        ensures within { stop_of result ≤ length self.now.entries }
        ensures cost { CountsExactly steps.old steps.new (compared (length self.now.entries) result) }
    {
        search(&self.entries, |k: K| k.key_order(&key), steps)
    }

    // The value just before a place, or the default at the first place.
    fn value_before(&self, at: usize, default: V) -> V
        requires { at ≤ length self.now.entries }
        ensures { result ≡ value_before_place default self.now.entries at }
    {
        if at == 0 {
            default
        } else {
            self.entries[at - 1].1
        }
    }
}

impl<K: ExpiredKey<E>, E: Expiration, V: Copy> Clone for KeyExpList<K, E, V> {
    ghost is_clone = { λ old new. new ≡ old };

    /// A list that keeps the same.
    fn clone(&self) -> Result<Self, AllocError> {
        let alloc = *self.entries.allocator();
        Ok(KeyExpList {
            entries: self.entries.iter().copied().collect(alloc)?,
            latest_time: self.latest_time,
            insertions: self.insertions,
        })
    }
}

impl<K: ExpiredKey<E>, E: Expiration, V: Copy> KeyExpCollection<K, E, V> for KeyExpList<K, E, V> {
    type Place = ();

    // Beside what the trait says, each call tells its comparisons exactly.
    ghost live_list = { λ list. list };

    ghost before_place = { λ _ place. [] };

    ghost after_place = { λ _ place. [] };

    ghost most_comparisons = { λ stored. stored };

    fn insert<L: Ledger>(
        &mut self,
        key: K,
        val: V,
        time: E,
        steps: &mut Steps<L>,
    ) -> Result<(), AllocError>
        requires room { HasRoom self.old }
        requires in_time { IsNotBefore E.cmp time self.old }
        requires lawful { IsLawful K.order key (live_at E.cmp K.expires time self.old.entries) }
        requires new_key { IsNewKey K.order key (live_at E.cmp K.expires time self.old.entries) }
        ensures ok { OnOk result (IsInserted E.cmp K.expires K.order (key, val) time self.old self.new) }
        ensures err { OnErr result (IsAdvanced E.cmp K.expires time self.old self.new) }
        ensures sound { IsSound E.cmp K.expires K.order self.new }
        ensures cost { CountsAtMost steps.old steps.new self.old.stored }
        ensures exact { CountsExactly steps.old steps.new (if is_live E.cmp K.expires time key then comparisons_of (λ k. K.order k key)
            (live_at E.cmp K.expires time self.old.entries) else 0) }
    {
        self.advance(time);
        if key.expiration().cmp(&time).is_gt() {
            let at = stop(self.place_of_key(key, steps));
            self.entries.insert(at, (key, val))?;
        }
        self.insertions += 1;
        Ok(())
    }

    fn first_less<L: Ledger>(&mut self, time: E, default: V, key: K, steps: &mut Steps<L>) -> V
        requires in_time { IsNotBefore E.cmp time self.old }
        requires lawful { IsLawful K.order key (live_at E.cmp K.expires time self.old.entries) }
        ensures answer { result ≡ last_below K.order key default (live_at E.cmp K.expires time self.old.entries) }
        ensures kept { IsAdvanced E.cmp K.expires time self.old self.new }
        ensures sound { IsSound E.cmp K.expires K.order self.new }
        ensures cost { CountsAtMost steps.old steps.new self.old.stored }
        ensures exact { CountsExactly steps.old steps.new (comparisons_of (λ k. K.order k key) (live_at E.cmp K.expires time self.old.entries)) }
    {
        self.advance(time);
        let below = stop(self.place_of_key(key, steps));
        self.value_before(below, default)
    }

    fn first_less_or_equal_by<F: Fn(K) -> Ordering, L: Ledger>(
        &mut self,
        time: E,
        default: V,
        f: F,
        steps: &mut Steps<L>,
    ) -> V
        requires in_time { IsNotBefore E.cmp time self.old }
        requires callable { All (λ entry. F.pre f entry.0) (live_at E.cmp K.expires time self.old.entries) }
        ensures answer { (by : K → Ordering) → DependsOnKey (F.post f) by (live_at E.cmp K.expires time self.old.entries) →
            IsMonotone by (live_at E.cmp K.expires time self.old.entries) → IsAnswer by default (live_at E.cmp K.expires time self.old.entries) result }
        ensures kept { IsAdvanced E.cmp K.expires time self.old self.new }
        ensures sound { IsSound E.cmp K.expires K.order self.new }
        ensures cost { CountsAtMost steps.old steps.new self.old.stored }
        ensures exact { (by : K → Ordering) → DependsOnKey (F.post f) by (live_at E.cmp K.expires time self.old.entries) →
            CountsExactly steps.old steps.new (comparisons_of by (live_at E.cmp K.expires time self.old.entries)) }
    {
        self.advance(time);
        match search(&self.entries, f, steps) {
            Ok(at) => self.entries[at].1,
            Err(at) => self.value_before(at, default),
        }
    }

    fn contains_key<L: Ledger>(&mut self, time: E, key: K, steps: &mut Steps<L>) -> bool
        requires in_time { IsNotBefore E.cmp time self.old }
        requires lawful { IsLawful K.order key (live_at E.cmp K.expires time self.old.entries) }
        ensures found { OnTrue result (HasEqualKey K.order key (live_at E.cmp K.expires time self.old.entries)) }
        ensures absent { OnFalse result (IsNewKey K.order key (live_at E.cmp K.expires time self.old.entries)) }
        ensures kept { IsAdvanced E.cmp K.expires time self.old self.new }
        ensures sound { IsSound E.cmp K.expires K.order self.new }
        ensures cost { CountsAtMost steps.old steps.new self.old.stored }
        ensures exact { CountsExactly steps.old steps.new (comparisons_of (λ k. K.order k key) (live_at E.cmp K.expires time self.old.entries)) }
    {
        self.advance(time);
        self.place_of_key(key, steps).is_ok()
    }

    // A place tells nothing, so an insertion looks at all live entries.
    fn seek<F: Fn(K) -> Ordering, L: Ledger>(
        &mut self,
        time: E,
        default: V,
        f: F,
        steps: &mut Steps<L>,
    ) -> Sought<V, ()> {
        Sought {
            value: self.first_less_or_equal_by(time, default, f, steps),
            place: (),
        }
    }

    fn insert_at<L: Ledger>(
        &mut self,
        _place: (),
        key: K,
        val: V,
        time: E,
        steps: &mut Steps<L>,
    ) -> Result<(), AllocError> {
        self.insert(key, val, time, steps)
    }

    fn clear(&mut self) {
        self.entries.clear();
        self.latest_time = None;
        self.insertions = 0;
    }

    fn has_room(&self) -> bool {
        self.insertions < MAX_INSERTIONS
    }

    fn latest_time(&self) -> Option<E> {
        self.latest_time
    }

    ghost most_comparisons_rise = { λ m n less. less };
}

// The first place whose key isn't Less: Ok where it is Equal, Err where it isn't or there is none.
fn search<K: Copy, V, F: Fn(K) -> Ordering, L: Ledger>(
    entries: &[(K, V)],
    f: F,
    steps: &mut Steps<L>,
) -> Result<usize, usize>
    requires { All (λ entry. F.pre f entry.0) entries.now }
    ensures place { (by : K → Ordering) → DependsOnKey (F.post f) by entries.now → result ≡ place_of by entries.now }
    ensures found_within { IfOk result (λ at. at < length entries.now) }
    ensures within { stop_of result ≤ length entries.now }
    ensures cost { CountsExactly steps.old steps.new (compared (length entries.now) result) }
{
    let mut rest = entries;
    let mut at = 0;
    while let Some((entry, later)) = rest.split_first() {
        steps.tick_comparison();
        match f(entry.0) {
            Ordering::Less => {}
            Ordering::Equal => return Ok(at),
            Ordering::Greater => return Err(at),
        }
        rest = later;
        at += 1;
    }
    Err(at)
}

// Where a search stopped.
pub(crate) fn stop(place: Result<usize, usize>) -> usize
    ensures { result ≡ stop_of place }
{
    match place {
        Ok(at) | Err(at) => at,
    }
}
