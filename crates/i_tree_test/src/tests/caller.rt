//! A caller that knows of a collection what its trait says, and no more.
ghost use Rattle.std.specs.Prelude.{◌≡◌, ◌≢◌, ◌+◌, ◌*◌, ◌≤◌, IfOk, OnOk};
ghost use Rattle.std.specs.declared.cmp.Ordering.TheVariants.{Less, Equal};
ghost use Rattle.i_tree.specs.LiveList.{live_at, live_with, IsNotBefore, HasRoom, IsLawful, IsNewKey};
ghost use Rattle.i_tree.specs.KeyAnswers.{last_below, IsAnswer};
ghost use Rattle.i_tree.specs.EntryLaws.{IsGreatestLess};

use i_tree::exp::{Expiration, ExpiredKey};
use i_tree::key::exp::KeyExpCollection;
use i_tree::laws::{answers_are_greatest, entries_are_new_or_old, orders_are_monotone};
use i_tree::steps::Steps;
use std::alloc::AllocError;
use std::sync::ledger::Ledger;

// Asks what is below a key and adds it, and asks again at a later time.
fn ask_and_add<K: ExpiredKey<E>, E: Expiration, V: Copy, C: KeyExpCollection<K, E, V>, L: Ledger>(
    live: &mut C,
    time: E,
    key: K,
    val: V,
    later: E,
    mark: K,
    default: V,
    steps: &mut Steps<L>,
) -> Result<(V, V), AllocError>
    requires room { HasRoom (C.live_list live.old) }
    requires in_time { IsNotBefore E.cmp time (C.live_list live.old) }
    requires in_order { E.cmp later time ≢ Less }
    requires lawful { IsLawful K.order key (live_at E.cmp K.expires time (C.live_list live.old).entries) }
    requires new_key { IsNewKey K.order key (live_at E.cmp K.expires time (C.live_list live.old).entries) }
    requires lawful_later { IsLawful K.order mark (live_with E.cmp K.expires K.order (key, val) later (C.live_list live.old).entries) }
    ensures first { IfOk result (λ r. r.0 ≡ last_below K.order key default (live_at E.cmp K.expires time (C.live_list live.old).entries)) }
    ensures second { IfOk result (λ r. r.1 ≡
        last_below K.order mark default (live_with E.cmp K.expires K.order (key, val) later (C.live_list live.old).entries)) }
    ensures left { OnOk result ((C.live_list live.new).entries ≡ live_with E.cmp K.expires K.order (key, val) later (C.live_list live.old).entries) }
    ensures cost { OnOk result (steps.new.comparisons ≤ steps.old.comparisons + 3 * C.most_comparisons ((C.live_list live.old).insertions + 1)) }
{
    let _latest = live.latest_time();
    let below = live.first_less(time, default, key, steps);
    live.insert(key, val, time, steps)?;
    let below_later = live.first_less(later, default, mark, steps);
    Ok((below, below_later))
}

// Asks what is at a key or below it, by a closure.
fn ask_by<K: ExpiredKey<E>, E: Expiration, V: Copy, C: KeyExpCollection<K, E, V>, L: Ledger>(
    live: &mut C,
    time: E,
    key: K,
    default: V,
    steps: &mut Steps<L>,
) -> V
    requires in_time { IsNotBefore E.cmp time (C.live_list live.old) }
    requires lawful { IsLawful K.order key (live_at E.cmp K.expires time (C.live_list live.old).entries) }
    ensures { IsAnswer (λ k. K.order k key) default (live_at E.cmp K.expires time (C.live_list live.old).entries) result }
{
    orders_are_monotone::<K, V>();
    live.first_less_or_equal_by(time, default, |k: K| k.key_order(&key), steps)
}

// Asks what is below a key: the greatest live entry below it.
fn ask_greatest<K: ExpiredKey<E>, E: Expiration, V: Copy, C: KeyExpCollection<K, E, V>, L: Ledger>(
    live: &mut C,
    time: E,
    key: K,
    default: V,
    steps: &mut Steps<L>,
) -> V
    requires in_time { IsNotBefore E.cmp time (C.live_list live.old) }
    requires lawful { IsLawful K.order key (live_at E.cmp K.expires time (C.live_list live.old).entries) }
    ensures { IsGreatestLess K.order (λ k. K.order k key) default (live_at E.cmp K.expires time (C.live_list live.old).entries) result }
{
    answers_are_greatest::<K, V>();
    live.first_less(time, default, key, steps)
}

// Adds a key. A mark that is unlike it and all live keys stays so.
fn add_unlike_mark<
    K: ExpiredKey<E>,
    E: Expiration,
    V: Copy,
    C: KeyExpCollection<K, E, V>,
    L: Ledger,
>(live: &mut C, time: E, key: K, val: V, mark: K, steps: &mut Steps<L>) -> Result<(), AllocError>
    requires room { HasRoom (C.live_list live.old) }
    requires in_time { IsNotBefore E.cmp time (C.live_list live.old) }
    requires lawful { IsLawful K.order key (live_at E.cmp K.expires time (C.live_list live.old).entries) }
    requires new_key { IsNewKey K.order key (live_at E.cmp K.expires time (C.live_list live.old).entries) }
    requires apart { K.order key mark ≢ Equal }
    requires unlike { IsNewKey K.order mark (C.live_list live.old).entries }
    ensures { IsNewKey K.order mark (C.live_list live.new).entries }
{
    entries_are_new_or_old::<K, E, V>();
    live.insert(key, val, time, steps)
}
