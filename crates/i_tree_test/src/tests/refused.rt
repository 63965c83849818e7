//! Collections of keys after a refused insertion: what they answer at every later time.
ghost use Rattle.std.specs.Prelude.{◌≡◌};

use crate::tests::mark::{Mark, add, below};
use i_tree::key::exp::KeyExpCollection;
use i_tree::key::list::KeyExpList;
use i_tree::key::row::KeyExpRow;
use i_tree::key::tree::KeyExpTree;
use i_tree::steps::Steps;
use std::alloc::Global;
use std::marker::Brand;
use std::sync::ledger::{Blank, Ledger};

// When the mark at a place expires: at 2, 5 or 9.
fn end_of(place: i32) -> u16 {
    match place % 3 {
        0 => 9,
        1 => 5,
        _ => 2,
    }
}

// The greatest place below another that is still live, of those up to the last that was added, or 0.
fn live_below(asked: i32, last: i32, time: u16) -> i32 {
    let mut found = 0;
    for place in 1..20 {
        if place < asked && place <= last && time < end_of(place) {
            found = place;
        }
    }
    found
}

// Adds marks of three ends until one is refused. The answer is the last that was added, and None where one isn't and none was refused.
fn add_until_refused<C: KeyExpCollection<Mark, u16, i32>, L: Ledger>(
    live: &mut C,
    steps: &mut Steps<L>,
) -> Option<i32> {
    let mut last = 0;
    for place in 1..20 {
        let mark = Mark {
            place,
            end: end_of(place),
        };
        match add(live, mark, place, 0, steps) {
            Ok(true) => last = place,
            Ok(false) => return None,
            Err(_) => return Some(last),
        }
    }
    Some(last)
}

// Whether a collection, of whose insertions one may be refused, has those before it at this and every later time, and nothing else.
fn answers_later<C: KeyExpCollection<Mark, u16, i32>, L: Ledger>(
    live: &mut C,
    steps: &mut Steps<L>,
) -> bool {
    let Some(last) = add_until_refused(live, steps) else {
        return false;
    };
    for time in 0..11 {
        for asked in 0..21 {
            if below(live, time, asked, steps) != Some(live_below(asked, last, time)) {
                return false;
            }
        }
    }
    true
}

// None where a list isn't made.
fn list_answers<L: Ledger>(alloc: Global, blank: Blank) -> Option<bool>
    requires name { blank.name ≡ L.name }
    requires parts { blank.parts ≡ L.parts }
    requires two { blank.parts ≡ 2 }
{
    let mut steps = Steps::<L>::new(blank);
    let mut live = KeyExpList::new(alloc, 0).ok()?;
    Some(answers_later(&mut live, &mut steps))
}

// None where a row isn't made.
fn row_answers<L: Ledger>(alloc: Global, blank: Blank) -> Option<bool>
    requires name { blank.name ≡ L.name }
    requires parts { blank.parts ≡ L.parts }
    requires two { blank.parts ≡ 2 }
{
    let mut steps = Steps::<L>::new(blank);
    let mut live = KeyExpRow::new(alloc, 0).ok()?;
    Some(answers_later(&mut live, &mut steps))
}

// None where a tree isn't made.
fn tree_answers<L: Ledger>(alloc: Global, blank: Blank) -> Option<bool>
    requires name { blank.name ≡ L.name }
    requires parts { blank.parts ≡ L.parts }
    requires two { blank.parts ≡ 2 }
{
    let mut steps = Steps::<L>::new(blank);
    let mut live = KeyExpTree::new(alloc, 0).ok()?;
    Some(answers_later(&mut live, &mut steps))
}

// As these run here nothing is refused. A run that refuses one allocation passes them too.
#[test]
fn list_insertion_refused(rt: HostRuntime) {
    let answers = list_answers::<Brand>(rt.alloc(), Blank::new(2));
    assert!(rt; answers != Some(false));
}

#[test]
fn row_insertion_refused(rt: HostRuntime) {
    let answers = row_answers::<Brand>(rt.alloc(), Blank::new(2));
    assert!(rt; answers != Some(false));
}

#[test]
fn tree_insertion_refused(rt: HostRuntime) {
    let answers = tree_answers::<Brand>(rt.alloc(), Blank::new(2));
    assert!(rt; answers != Some(false));
}
