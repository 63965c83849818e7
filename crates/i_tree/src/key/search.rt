//! The binary search in a tree of expiring keys, which removes on its way down each expired node that it comes to.
//!
//! It compares with live entries alone, since the keys' order need not be lawful among those that have expired: once
//! for each live node on its way. A removal takes at most a step for each level.
ghost use Rattle.std.specs.Prelude.{◌≡◌, ℕ, ◌<◌, List, length, All, Some, slice_get, not};
ghost use Rattle.std.specs.declared.cmp.Ordering.{Ordering};
ghost use Rattle.i_tree.specs.LiveList.{is_live, live_at};
ghost use Rattle.i_tree.specs.KeyAnswers.{DependsOnKey, IsMonotone};
ghost use Rattle.i_tree.specs.Steps.{CountsExactly, CountsAtMost};
ghost use Rattle.i_tree.specs.Tree.Entries.{IsTree, Place, IsAtPlace, tree_entries_of, unnamed};
ghost use Rattle.i_tree.specs.TreeBound.{most_comparisons};
ghost use Rattle.i_tree.specs.Tree.Search.{IsCleared, IsSearched, IsWay, Narrows};

use crate::exp::{Expiration, ExpiredKey};
use crate::steps::Steps;
use crate::tree::entries::Entries;
use crate::tree::pool::NO_NODE;
use std::cmp::Ordering;
use std::sync::ledger::Ledger;

/// What a search came to: the value of an equal key, or a vacant place and the value of the last key below it, if
/// there is one.
#[derive(Clone, Copy)]
pub enum Way<V> {
    Equal(V),
    Vacant {
        parent: u32,
        left: bool,
        below: Option<V>,
    },
}

/// The live node at a place where this one was found, after the expired ones there are dropped, or `NO_NODE`.
#[inline(always)]
pub fn live_child<K: ExpiredKey<E>, E: Expiration, V: Copy>(
    tree: &mut Entries<(K, V)>,
    parent: u32,
    left: bool,
    found: u32,
    time: E,
) -> u32
    requires { (deep : ℕ) × ((before : List (ℕ × (K × V))) × ((here : List (ℕ × (K × V))) ×
        ((after : List (ℕ × (K × V))) × (Place tree.old parent left deep before here after × IsAtPlace tree.old parent left deep before here after found)))) }
    ensures { (deep : ℕ) (before here after : List (ℕ × (K × V))) → Place tree.old parent left deep before here after →
        IsAtPlace tree.old parent left deep before here after found →
        IsCleared E.cmp K.expires time tree.old tree.new parent left deep before here after result }
{
    // Few nodes have expired, so that this test is nearly all that a search does here.
    if found == NO_NODE || !is_expired(tree, found, time) {
        return found;
    }
    drop_expired(tree, parent, left, found, time)
}

// Drops the expired nodes at a place, and answers as `live_child`.
#[cold]
#[inline(never)]
fn drop_expired<K: ExpiredKey<E>, E: Expiration, V: Copy>(
    tree: &mut Entries<(K, V)>,
    parent: u32,
    left: bool,
    found: u32,
    time: E,
) -> u32
    requires { (deep : ℕ) × ((before : List (ℕ × (K × V))) × ((here : List (ℕ × (K × V))) ×
        ((after : List (ℕ × (K × V))) × (Place tree.old parent left deep before here after × IsAtPlace tree.old parent left deep before here after found)))) }
    ensures { (deep : ℕ) (before here after : List (ℕ × (K × V))) → Place tree.old parent left deep before here after →
        IsAtPlace tree.old parent left deep before here after found →
        IsCleared E.cmp K.expires time tree.old tree.new parent left deep before here after result }
{
    let mut at = found;
    loop {
        if at == NO_NODE || !is_expired(tree, at, time) {
            return at;
        }
        tree.remove(at);
        at = tree.down(parent, left);
    }
}

// Whether a node's key has expired by then.
fn is_expired<K: ExpiredKey<E>, E: Expiration, V: Copy>(
    tree: &Entries<(K, V)>,
    at: u32,
    time: E,
) -> bool
    requires { at < length tree.now.entries }
    ensures { (entry : K × V) → slice_get tree.now.entries at ≡ Some entry → is_live E.cmp K.expires time entry.0 ≡ not result }
{
    tree.entry(at).0.expiration().cmp(&time).is_le()
}

/// Looks for a key by how live keys compare with it.
pub fn search<K: ExpiredKey<E>, E: Expiration, V: Copy, F: Fn(K) -> Ordering, L: Ledger>(
    tree: &mut Entries<(K, V)>,
    time: E,
    f: F,
    steps: &mut Steps<L>,
) -> Way<V>
    requires tree { IsTree tree.old }
    requires callable { All (λ entry. F.pre f entry.0) (live_at E.cmp K.expires time (unnamed (tree_entries_of tree.old))) }
    ensures tree { IsSearched E.cmp K.expires time tree.old tree.new }
    ensures way { (by : K → Ordering) → DependsOnKey (F.post f) by (live_at E.cmp K.expires time (unnamed (tree_entries_of tree.old))) →
        IsMonotone by (live_at E.cmp K.expires time (unnamed (tree_entries_of tree.old))) → IsWay E.cmp K.expires by time tree.new result }
    ensures cost { CountsAtMost steps.old steps.new (most_comparisons (length (tree_entries_of tree.old))) }
    ensures exact { (n : ℕ) × (CountsExactly steps.old steps.new n × ((by : K → Ordering) →
        DependsOnKey (F.post f) by (live_at E.cmp K.expires time (unnamed (tree_entries_of tree.old))) →
        Narrows by (live_at E.cmp K.expires time (unnamed (tree_entries_of tree.old))) n)) }
{
    let mut parent = NO_NODE;
    let mut left = true;
    let mut below = None;
    let mut found = tree.down(parent, left);
    loop {
        let at = live_child(tree, parent, left, found, time);
        if at == NO_NODE {
            return Way::Vacant {
                parent,
                left,
                below,
            };
        }
        let entry = *tree.entry(at);
        steps.tick_comparison();
        match f(entry.0) {
            Ordering::Equal => return Way::Equal(entry.1),
            Ordering::Less => {
                below = Some(entry.1);
                left = false;
                found = tree.child_at(at, false);
            }
            Ordering::Greater => {
                left = true;
                found = tree.child_at(at, true);
            }
        }
        parent = at;
    }
}
