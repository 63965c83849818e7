//! Keys for the tests, and calls that make every test that a collection's conditions ask for.
ghost use Rattle.std.specs.Prelude.{◌≡◌, ◌<◌, pos, IfOk, IfSome, IfNone, OnErr};
ghost use Rattle.std.specs.Bool.{OnTrue, OnFalse};
ghost use Rattle.std.specs.Option.{IsSomeAnd};
ghost use Rattle.std.specs.Ordering.{nat_cmp, int_cmp, is_lt};
ghost use Rattle.i_tree.specs.LiveList.{live_at, live_with, IsNotBefore};
ghost use Rattle.i_tree.specs.KeyAnswers.{last_where, IsAnswer};

use i_tree::exp::ExpiredKey;
use i_tree::key::exp::KeyExpCollection;
use i_tree::steps::Steps;
use std::alloc::AllocError;
use std::cmp::Ordering;
use std::sync::ledger::Ledger;

#[derive(Clone, Copy)]
pub(crate) struct Mark {
    pub(crate) place: i32,
    pub(crate) end: u16,
}

impl ExpiredKey<u16> for Mark {
    ghost expires = { λ m. m.end };

    ghost order = { λ m n. int_cmp m.place n.place };

    fn expiration(&self) -> u16 {
        self.end
    }

    fn key_order(&self, other: &Self) -> Ordering {
        self.place.cmp(&other.place)
    }
}

// Whether the time may be asked.
fn is_in_time<C: KeyExpCollection<Mark, u16, i32>>(live: &C, time: u16) -> bool
    ensures in_time { OnTrue result (IsNotBefore nat_cmp time (C.live_list live.now)) }
    ensures late { OnFalse result (IsSomeAnd (C.live_list live.now).latest_time (λ latest. time < latest)) }
{
    match live.latest_time() {
        Some(latest) => latest <= time,
        None => true,
    }
}

// Adds the mark if every condition is met, and says whether it did.
pub(crate) fn add<C: KeyExpCollection<Mark, u16, i32>, L: Ledger>(
    live: &mut C,
    key: Mark,
    val: i32,
    time: u16,
    steps: &mut Steps<L>,
) -> Result<bool, AllocError>
    ensures added { IfOk result (λ added.
        OnTrue added ((C.live_list live.new).entries ≡
        live_with nat_cmp (λ m. m.end) (λ m n. int_cmp m.place n.place) (key, val) time (C.live_list live.old).entries)) }
    ensures left { IfOk result (λ added.
        OnFalse added (live_at nat_cmp (λ m. m.end) time (C.live_list live.new).entries ≡ live_at nat_cmp (λ m. m.end) time (C.live_list live.old).entries)) }
    ensures refused { OnErr result (live_at nat_cmp (λ m. m.end) time (C.live_list live.new).entries ≡
        live_at nat_cmp (λ m. m.end) time (C.live_list live.old).entries) }
{
    if !live.has_room() || !is_in_time(live, time) || live.contains_key(time, key, steps) {
        return Ok(false);
    }
    live.insert(key, val, time, steps)?;
    Ok(true)
}

// Adds the mark as `add` does, at the place where a search for it ends.
pub(crate) fn add_by_place<C: KeyExpCollection<Mark, u16, i32>, L: Ledger>(
    live: &mut C,
    key: Mark,
    val: i32,
    time: u16,
    steps: &mut Steps<L>,
) -> Result<bool, AllocError>
    ensures added { IfOk result (λ added.
        OnTrue added ((C.live_list live.new).entries ≡
        live_with nat_cmp (λ m. m.end) (λ m n. int_cmp m.place n.place) (key, val) time (C.live_list live.old).entries)) }
{
    if !live.has_room() || !is_in_time(live, time) || live.contains_key(time, key, steps) {
        return Ok(false);
    }
    let sought = live.seek(time, 0, |mark: Mark| mark.key_order(&key), steps);
    live.insert_at(sought.place, key, val, time, steps)?;
    Ok(true)
}

// The value below the place, or None at a time that may not be asked.
pub(crate) fn below<C: KeyExpCollection<Mark, u16, i32>, L: Ledger>(
    live: &mut C,
    time: u16,
    place: i32,
    steps: &mut Steps<L>,
) -> Option<i32>
    ensures answer { IfSome result (λ value. value ≡
        last_where (λ m. is_lt (int_cmp m.place place)) (pos 0) (live_at nat_cmp (λ m. m.end) time (C.live_list live.old).entries)) }
    ensures none { IfNone result (IsSomeAnd (C.live_list live.old).latest_time (λ latest. time < latest)) }
{
    if !is_in_time(live, time) {
        return None;
    }
    Some(live.first_less(time, 0, Mark { place, end: 0 }, steps))
}

// The value at the place or below it, or None at a time that may not be asked.
pub(crate) fn at_or_below<C: KeyExpCollection<Mark, u16, i32>, L: Ledger>(
    live: &mut C,
    time: u16,
    place: i32,
    steps: &mut Steps<L>,
) -> Option<i32>
    ensures answer { IfSome result (IsAnswer (λ m. int_cmp m.place place) (pos 0) (live_at nat_cmp (λ m. m.end) time (C.live_list live.old).entries)) }
    ensures none { IfNone result (IsSomeAnd (C.live_list live.old).latest_time (λ latest. time < latest)) }
{
    if !is_in_time(live, time) {
        return None;
    }
    Some(live.first_less_or_equal_by(time, 0, |mark: Mark| mark.place.cmp(&place), steps))
}
