//! A run like a sweep's over a list and a tree of expiring keys: keys come in order of time at drawn places, each expires when
//! as many more have come as live at a time, and between any two insertions a value is sought. A line for each run says the
//! sum of the answers; the nanoseconds that an insertion with its query took go to standard error. A last line is of ranges in a
//! bucket tree.

ghost use Rattle.std.specs.Prelude.{◌≡◌};
ghost use Rattle.std.specs.Bool.{OnTrue};
ghost use Rattle.std.specs.Ordering.{nat_cmp, int_cmp};
ghost use Rattle.i_tree.specs.LiveList.{IsNotBefore};

mod buckets;

use i_tree::exp::ExpiredKey;
use i_tree::key::exp::KeyExpCollection;
use i_tree::key::list::KeyExpList;
use i_tree::key::tree::KeyExpTree;
use i_tree::steps::Steps;
use std::alloc::AllocError;
use std::cmp::Ordering;
use std::io;
use std::marker::Brand;
use std::rt::Clock;
use std::sync::ledger::{Blank, Ledger};
use std::time::Instant;

// How many insertions are timed, after those that fill the collection.
const TIMED: u32 = 200_000;

/// Runs over lists and trees of several sizes, and over the bucket tree.
pub(crate) fn measure(rt: &(impl Print + Eprint + Clock + AllocGlobal)) -> io::Result<()> {
    run::<Brand>(rt, Blank::new(2))
}

fn run<L: Ledger>(rt: &(impl Print + Eprint + Clock + AllocGlobal), blank: Blank) -> io::Result<()>
    requires name { blank.name ≡ L.name }
    requires parts { blank.parts ≡ L.parts }
    requires two { blank.parts ≡ 2 }
{
    let mut steps = Steps::<L>::new(blank);
    for live in [1_000, 10_000] {
        match KeyExpList::new(rt.alloc(), 0) {
            Ok(mut list) => sweep(rt, "list", &mut list, live, 10_000, &mut steps)?,
            Err(_) => println!(rt; "list: no memory")?,
        }
    }
    for live in [1_000, 10_000, 100_000, 1_000_000] {
        match KeyExpTree::new(rt.alloc(), 0) {
            Ok(mut tree) => sweep(rt, "tree", &mut tree, live, TIMED, &mut steps)?,
            Err(_) => println!(rt; "tree: no memory")?,
        }
    }
    buckets::measure(rt)
}

#[derive(Clone, Copy)]
struct Mark {
    place: i32,
    end: u32,
}

impl ExpiredKey<u32> for Mark {
    ghost expires = { λ m. m.end };

    ghost order = { λ m n. int_cmp m.place n.place };

    fn expiration(&self) -> u32 {
        self.end
    }

    fn key_order(&self, other: &Self) -> Ordering {
        self.place.cmp(&other.place)
    }
}

// Fills the collection, and then times as many insertions and queries as said.
fn sweep<C: KeyExpCollection<Mark, u32, u32>, L: Ledger>(
    rt: &(impl Print + Eprint + Clock),
    name: &str,
    keys: &mut C,
    live: u32,
    timed: u32,
    steps: &mut Steps<L>,
) -> io::Result<()> {
    let Ok(first) = step_on(keys, live, 0, live, steps) else {
        return println!(rt; "{name}: no memory");
    };
    let start = Instant::now(rt)?;
    let Ok(sum) = step_on(keys, live, live, live.wrapping_add(timed), steps) else {
        return println!(rt; "{name}: no memory");
    };
    let nanoseconds = start.elapsed(rt)?.as_nanos() / (u128::from(timed) + 1);
    eprintln!(rt; "{name} of {live}: {nanoseconds} ns")?;
    println!(rt; "{name} of {live}: sums {first} and {sum}")
}

// The insertions and queries at these times. Answers the sum of what the queries found, wrapped.
fn step_on<C: KeyExpCollection<Mark, u32, u32>, L: Ledger>(
    keys: &mut C,
    live: u32,
    from: u32,
    to: u32,
    steps: &mut Steps<L>,
) -> Result<u32, AllocError> {
    let mut sum: u32 = 0;
    for time in from..to {
        let key = Mark {
            place: drawn(time),
            end: time.wrapping_add(live),
        };
        add(keys, key, time, steps)?;
        sum = sum.wrapping_add(below(keys, drawn(time ^ 0x5555_5555), time, steps));
    }
    Ok(sum)
}

// A place that looks drawn.
fn drawn(time: u32) -> i32 {
    let mixed = (time ^ (time >> 15)).wrapping_mul(0x2c1b_3c6d);
    (mixed ^ (mixed >> 12))
        .wrapping_mul(0x297a_2d39)
        .cast_signed()
}

// Adds the key where every condition is met.
fn add<C: KeyExpCollection<Mark, u32, u32>, L: Ledger>(
    keys: &mut C,
    key: Mark,
    time: u32,
    steps: &mut Steps<L>,
) -> Result<(), AllocError> {
    if !keys.has_room() || !is_in_time(keys, time) || keys.contains_key(time, key, steps) {
        return Ok(());
    }
    keys.insert(key, time, time, steps)
}

// The value below the place, or 0 at a time that may not be asked.
fn below<C: KeyExpCollection<Mark, u32, u32>, L: Ledger>(
    keys: &mut C,
    place: i32,
    time: u32,
    steps: &mut Steps<L>,
) -> u32 {
    if !is_in_time(keys, time) {
        return 0;
    }
    keys.first_less(time, 0, Mark { place, end: 0 }, steps)
}

// Whether the time may be asked.
fn is_in_time<C: KeyExpCollection<Mark, u32, u32>>(keys: &C, time: u32) -> bool
    ensures { OnTrue result (IsNotBefore nat_cmp time (C.live_list keys.now)) }
{
    match keys.latest_time() {
        Some(latest) => latest <= time,
        None => true,
    }
}
