//! Calls drawn from a fixed seed, each answered as a plain vector of all entries answers.
ghost use Rattle.std.specs.Prelude.{◌≡◌, ◌<◌};

use crate::tests::mark::{Mark, add, add_by_place, at_or_below, below};
use crate::tests::next;
use i_tree::key::exp::KeyExpCollection;
use i_tree::key::list::KeyExpList;
use i_tree::key::row::KeyExpRow;
use i_tree::key::tree::KeyExpTree;
use i_tree::steps::Steps;
use std::alloc::Global;
use std::marker::Brand;
use std::sync::ledger::{Blank, Ledger};

// A mark to be added with a value, or else a place to be asked for.
#[derive(Clone, Copy)]
struct Call {
    adds: bool,
    mark: Mark,
    value: i32,
    time: u16,
}

// The value of the greatest live place that is below, or is the place itself where that counts too.
fn plain_answer(all: &[(Mark, i32)], time: u16, place: i32, or_equal: bool) -> i32 {
    let mut best = None;
    for (mark, value) in all {
        let counts = mark.place < place || or_equal && mark.place == place;
        if mark.end > time && counts {
            best = match best {
                Some((top, other)) if top > mark.place => Some((top, other)),
                _ => Some((mark.place, *value)),
            };
        }
    }
    match best {
        Some((_, value)) => value,
        None => 0,
    }
}

// The values below a place, and at the place or below it.
fn answers<C: KeyExpCollection<Mark, u16, i32>, L: Ledger>(
    live: &mut C,
    time: u16,
    place: i32,
    steps: &mut Steps<L>,
) -> [Option<i32>; 2] {
    [
        below(live, time, place, steps),
        at_or_below(live, time, place, steps),
    ]
}

// Whether the collection answers as a plain vector does. A mark is added to both if the vector has no live place like it.
fn is_as_plain<C: KeyExpCollection<Mark, u16, i32>, L: Ledger>(
    live: &mut C,
    all: &mut Vec<(Mark, i32)>,
    call: Call,
    steps: &mut Steps<L>,
) -> bool {
    let Call {
        adds,
        mark,
        value,
        time,
    } = call;
    let lower = plain_answer(all, time, mark.place, false);
    let up_to = plain_answer(all, time, mark.place, true);
    if !adds {
        return answers(live, time, mark.place, steps) == [Some(lower), Some(up_to)];
    }
    let is_new = lower == up_to;
    let added = add(live, mark, value, time, steps).ok();
    added == Some(is_new) && (!is_new || all.push((mark, value)).is_ok())
}

// A call among few places, at each of which a mark lives for a short time.
fn call_of_few(step: u32, seed: u64) -> Call
    requires { step < 10000 }
{
    let time = (step / 16) as u16;
    let place = (seed >> 40) as u32 % 50;
    let life = (seed >> 50) as u16 % 12;
    Call {
        adds: (seed >> 63) == 0,
        mark: Mark {
            place: place as i32,
            end: time + life,
        },
        value: step as i32 + 1,
        time,
    }
}

// The first step at which the collection answers otherwise than a plain vector.
fn first_unlike_plain<C: KeyExpCollection<Mark, u16, i32>, L: Ledger>(
    alloc: Global,
    live: &mut C,
    steps: &mut Steps<L>,
) -> Option<u32> {
    let mut all = Vec::new(alloc);
    let mut seed = 20231;
    for step in 0..10_000u32 {
        seed = next(seed);
        if !is_as_plain(live, &mut all, call_of_few(step, seed), steps) {
            return Some(step);
        }
    }
    None
}

// A call among many places, where many marks live at a time.
fn call_of_many(step: u32, seed: u64) -> Call
    requires { step < 10000 }
{
    let time = (step / 4) as u16;
    let place = (seed >> 40) as u32 % 4_000;
    let life = (seed >> 48) as u16 % 500;
    Call {
        adds: (seed >> 62) > 0,
        mark: Mark {
            place: place as i32,
            end: time + life,
        },
        value: step as i32 + 1,
        time,
    }
}

// Whether two collections answer alike. The second seeks a place for each mark.
fn are_alike<A: KeyExpCollection<Mark, u16, i32>, B: KeyExpCollection<Mark, u16, i32>, L: Ledger>(
    one: &mut A,
    other: &mut B,
    call: Call,
    steps: &mut Steps<L>,
) -> bool {
    let Call {
        adds,
        mark,
        value,
        time,
    } = call;
    if !adds {
        let answers_of_one = answers(one, time, mark.place, steps);
        return answers(other, time, mark.place, steps) == answers_of_one;
    }
    let added = add(one, mark, value, time, steps).ok();
    added.is_some() && add_by_place(other, mark, value, time, steps).ok() == added
}

// The first step at which two collections answer otherwise.
fn first_unlike<
    A: KeyExpCollection<Mark, u16, i32>,
    B: KeyExpCollection<Mark, u16, i32>,
    L: Ledger,
>(one: &mut A, other: &mut B, steps: &mut Steps<L>) -> Option<u32> {
    let mut seed = 90210;
    for step in 0..10_000u32 {
        seed = next(seed);
        if !are_alike(one, other, call_of_many(step, seed), steps) {
            return Some(step);
        }
    }
    None
}

// The first steps at which a list and a tree answer otherwise than a plain vector, and, when they were cleared, than each other, and the
// tree than a row. None where memory is refused.
fn all_first_unlike<L: Ledger>(alloc: Global, blank: Blank) -> Option<[Option<u32>; 4]>
    requires name { blank.name ≡ L.name }
    requires parts { blank.parts ≡ L.parts }
    requires two { blank.parts ≡ 2 }
{
    let mut steps = Steps::<L>::new(blank);
    let mut list = KeyExpList::new(alloc, 0).ok()?;
    let mut tree = KeyExpTree::new(alloc, 0).ok()?;
    let mut row = KeyExpRow::new(alloc, 0).ok()?;
    let list_and_plain = first_unlike_plain(alloc, &mut list, &mut steps);
    let tree_and_plain = first_unlike_plain(alloc, &mut tree, &mut steps);
    list.clear();
    tree.clear();
    let list_and_tree = first_unlike(&mut list, &mut tree, &mut steps);
    tree.clear();
    let tree_and_row = first_unlike(&mut tree, &mut row, &mut steps);
    Some([list_and_plain, tree_and_plain, list_and_tree, tree_and_row])
}

#[test]
fn collections_as_a_plain_vector(rt: HostRuntime) {
    let unlike = all_first_unlike::<Brand>(rt.alloc(), Blank::new(2));
    assert_eq!(rt; unlike, Some([None; 4]));
}
