//! A caller that knows of a set what its trait says, and no more.
ghost use Rattle.std.specs.Prelude.{◌≡◌, ◌+◌, ◌*◌, ◌≤◌, IfOk, IfErr, OnErr, Any, length};
ghost use Rattle.std.specs.Bool.{OnTrue, OnFalse};
ghost use Rattle.std.specs.declared.cmp.Ordering.TheVariants.{Equal};
ghost use Rattle.i_tree.specs.IndexedSet.{AreRising, IsNewSetKey, SetHasRoom, values_of, with_value};
ghost use Rattle.i_tree.specs.Steps.{CountsAtMost};

use i_tree::set::sort::{KeyValue, SetCollection};
use i_tree::steps::Steps;
use std::sync::ledger::Ledger;

// Whether a value of the set has the key.
pub(crate) fn has_key<K: Ord, V: KeyValue<K>, S: SetCollection<K, V>, L: Ledger>(
    set: &S,
    key: &K,
    steps: &mut Steps<L>,
) -> bool
    requires sorted { AreRising K.cmp V.key_of (values_of (S.set set.now)) }
    ensures found { OnTrue result (Any (λ value. K.cmp (V.key_of value) key.now ≡ Equal) (values_of (S.set set.now))) }
    ensures absent { OnFalse result (IsNewSetKey K.cmp V.key_of key.now (values_of (S.set set.now))) }
    ensures cost { CountsAtMost steps.old steps.new (S.most_comparisons (length (S.set set.now).entries)) }
{
    let index = set.first_index_less_by(|other: &K| other.cmp(key), steps);
    set.has_index(index) && set.value_by_index(index).key().cmp(key).is_eq()
}

// Adds the value if no value of the set has its key, and says whether it did.
pub(crate) fn add_if_new<K: Ord, V: KeyValue<K> + Drop, S: SetCollection<K, V>, L: Ledger>(
    set: &mut S,
    val: V,
    steps: &mut Steps<L>,
) -> Result<bool, V>
    requires room { SetHasRoom (S.set set.old) }
    requires sorted { AreRising K.cmp V.key_of (values_of (S.set set.old)) }
    ensures added { IfOk result (λ added. OnTrue added (values_of (S.set set.new) ≡ with_value K.cmp V.key_of val (values_of (S.set set.old)))) }
    ensures new_key { IfOk result (λ added. OnTrue added (IsNewSetKey K.cmp V.key_of (V.key_of val) (values_of (S.set set.old)))) }
    ensures left { IfOk result (λ added. OnFalse added (S.set set.new ≡ S.set set.old)) }
    ensures found { IfOk result (λ added. OnFalse added (Any (λ value. K.cmp (V.key_of value) (V.key_of val) ≡ Equal) (values_of (S.set set.old)))) }
    ensures sorted { AreRising K.cmp V.key_of (values_of (S.set set.new)) }
    ensures refused { OnErr result (S.set set.new ≡ S.set set.old) }
    ensures back { IfErr result (λ back. back ≡ val) }
    ensures cost { steps.new.comparisons ≤ steps.old.comparisons + 2 * S.most_comparisons (length (S.set set.old).entries) }
{
    if has_key(set, val.key(), steps) {
        return Ok(false);
    }
    set.insert(val, steps)?;
    Ok(true)
}
