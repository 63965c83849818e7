//! Sets: rows given by hand, and calls drawn from a fixed seed.
ghost use Rattle.std.specs.Prelude.{◌≡◌, IfErr};
ghost use Rattle.std.specs.Ordering.{int_cmp};
ghost use Rattle.i_tree.specs.IndexedSet.{AreRising, values_of};

use crate::tests::inserting::add_if_new;
use crate::tests::next;
use crate::tests::words::{count, flag, if_any, number};
use i_tree::EMPTY_REF;
use i_tree::set::list::SetList;
use i_tree::set::sort::{KeyValue, SetCollection};
use i_tree::set::tree::SetTree;
use i_tree::steps::Steps;
use std::alloc::Global;
use std::marker::Brand;
use std::sync::ledger::{Blank, Ledger};

type PairTree = SetTree<i32, Pair>;

#[derive(Clone, Copy)]
struct Pair {
    key: i32,
    other: u32,
}

impl KeyValue<i32> for Pair {
    ghost key_of = { λ pair. pair.key };

    fn key(&self) -> &i32 {
        &self.key
    }
}

// The value's other number where the index is live.
fn other_at<S: SetCollection<i32, Pair>>(set: &S, index: u32) -> Option<u32> {
    if !set.has_index(index) {
        return None;
    }
    Some(set.value_by_index(index).other)
}

// The value's key where the index is live.
fn key_at<S: SetCollection<i32, Pair>>(set: &S, index: u32) -> Option<i32> {
    if !set.has_index(index) {
        return None;
    }
    Some(set.value_by_index(index).key)
}

// Writes the value's other number over where the index is live.
fn write_at<S: SetCollection<i32, Pair>>(set: &mut S, index: u32, other: u32) {
    if set.has_index(index) {
        let pair = set.value_by_index_mut(index);
        pair.other = other;
    }
}

// The index before a live one.
fn before<S: SetCollection<i32, Pair>>(set: &S, index: u32) -> Option<u32> {
    if !set.has_index(index) {
        return None;
    }
    Some(set.index_before(index))
}

// Deletes the value with a live index, and says whether it was live.
fn delete<S: SetCollection<i32, Pair>>(set: &mut S, index: u32) -> bool
    ensures { AreRising int_cmp (λ p. p.key) (values_of (S.set set.old)) → AreRising int_cmp (λ p. p.key) (values_of (S.set set.new)) }
{
    if !set.has_index(index) {
        return false;
    }
    set.delete_by_index(index);
    true
}

// The index of the last key up to this one.
fn up_to<S: SetCollection<i32, Pair>, L: Ledger>(set: &S, key: i32, steps: &mut Steps<L>) -> u32 {
    set.first_index_less_by(|k: &i32| k.cmp(&key), steps)
}

// Adds the value if there is room and its key is new, and says whether it did. A refused value is handed back.
fn add<S: SetCollection<i32, Pair>, L: Ledger>(
    set: &mut S,
    pair: Pair,
    steps: &mut Steps<L>,
) -> Result<bool, Pair>
    requires { AreRising int_cmp (λ p. p.key) (values_of (S.set set.old)) }
    ensures sorted { AreRising int_cmp (λ p. p.key) (values_of (S.set set.new)) }
    ensures back { IfErr result (λ back. back ≡ pair) }
{
    if !set.has_room() {
        return Ok(false);
    }
    add_if_new(set, pair, steps)
}

// The greatest key up to this one.
fn key_up_to<S: SetCollection<i32, Pair>, L: Ledger>(
    set: &S,
    key: i32,
    steps: &mut Steps<L>,
) -> Option<i32> {
    key_at(set, up_to(set, key, steps))
}

// Deletes the value with the key, and says whether there was one.
fn delete_key<S: SetCollection<i32, Pair>, L: Ledger>(
    set: &mut S,
    key: i32,
    steps: &mut Steps<L>,
) -> bool
    requires { AreRising int_cmp (λ p. p.key) (values_of (S.set set.old)) }
    ensures { AreRising int_cmp (λ p. p.key) (values_of (S.set set.new)) }
{
    let index = up_to(set, key, steps);
    key_at(set, index) == Some(key) && delete(set, index)
}

// Whether an index is that of the value with this key, or no index where none is wanted.
fn is_at<S: SetCollection<i32, Pair>>(set: &S, index: u32, key: Option<i32>) -> bool {
    match key {
        Some(_) => key_at(set, index) == key,
        None => index == EMPTY_REF,
    }
}

// Calls with what they answer. They look at the value with the last key up to the one that they are given: for its key, that of the value
// `before` it, its `other` number, which they write over, and they delete it.
const ROWS: &str = "\
up_to 9 none
up_to 15 10
up_to 30 30
before 15 none
write 15 4
other 15 4
delete 15 true
up_to 29 20
before 29 none
delete 29 true
delete 30 true
up_to 99 none
";

// A call with what it answers.
#[derive(Clone, Copy)]
enum Row {
    UpTo(Option<i32>),
    Before(Option<i32>),
    Other(u32),
    Write(u32),
    Delete(bool),
}

// The key and the row of a line.
fn row_of(line: &str) -> Option<(i32, Row)> {
    let mut words = line.split_ascii_whitespace();
    let name = words.next()?;
    let key = number(&mut words)?;
    let row = match name {
        "up_to" => Row::UpTo(if_any(&mut words)?),
        "before" => Row::Before(if_any(&mut words)?),
        "other" => Row::Other(count(&mut words)?),
        "write" => Row::Write(count(&mut words)?),
        "delete" => Row::Delete(flag(&mut words)?),
        _ => return None,
    };
    if words.next().is_some() {
        return None;
    }
    Some((key, row))
}

// Whether the set answers the row's call as the row says.
fn is_answered<S: SetCollection<i32, Pair>, L: Ledger>(
    set: &mut S,
    key: i32,
    row: Row,
    steps: &mut Steps<L>,
) -> bool {
    let index = up_to(set, key, steps);
    match row {
        Row::UpTo(found) => is_at(set, index, found),
        Row::Before(lower) => match before(set, index) {
            Some(index_below) => is_at(set, index_below, lower),
            None => false,
        },
        Row::Other(other) => other_at(set, index) == Some(other),
        Row::Write(other) => {
            write_at(set, index, other);
            true
        }
        Row::Delete(is_live) => delete(set, index) == is_live,
    }
}

// The number of the first row that isn't answered as it says.
fn first_unanswered<S: SetCollection<i32, Pair>, L: Ledger>(
    set: &mut S,
    steps: &mut Steps<L>,
) -> Option<usize> {
    let mut number = 0usize;
    for line in ROWS.lines() {
        let is_right = match row_of(line) {
            Some((key, row)) => is_answered(set, key, row, steps),
            None => false,
        };
        if !is_right {
            return Some(number);
        }
        number = number.wrapping_add(1);
    }
    None
}

// Adds three values, and one whose key is there.
fn three_added<S: SetCollection<i32, Pair>, L: Ledger>(
    set: &mut S,
    steps: &mut Steps<L>,
) -> [Option<bool>; 4]
    requires { AreRising int_cmp (λ p. p.key) (values_of (S.set set.old)) }
{
    [
        add(set, Pair { key: 20, other: 1 }, steps).ok(),
        add(set, Pair { key: 10, other: 1 }, steps).ok(),
        add(set, Pair { key: 30, other: 1 }, steps).ok(),
        add(set, Pair { key: 20, other: 2 }, steps).ok(),
    ]
}

// Of three values: which are added, and one more whose key is there; the first row that isn't answered as it says; and whether `EMPTY_REF` is an
// index then.
type Asked = ([Option<bool>; 4], Option<usize>, bool);

const AS_WANTED: Asked = (
    [Some(true), Some(true), Some(true), Some(false)],
    None,
    false,
);

fn asked<S: SetCollection<i32, Pair>, L: Ledger>(set: &mut S, steps: &mut Steps<L>) -> Asked
    requires { AreRising int_cmp (λ p. p.key) (values_of (S.set set.old)) }
{
    let added = three_added(set, steps);
    let unanswered = first_unanswered(set, steps);
    (added, unanswered, set.has_index(EMPTY_REF))
}

// Adds a value. The answers are whether its key was new, and the key's index.
fn index_of_new<S: SetCollection<i32, Pair>, L: Ledger>(
    set: &mut S,
    key: i32,
    steps: &mut Steps<L>,
) -> (Option<bool>, u32)
    requires { AreRising int_cmp (λ p. p.key) (values_of (S.set set.old)) }
    ensures { AreRising int_cmp (λ p. p.key) (values_of (S.set set.new)) }
{
    let added = add(set, Pair { key, other: 1 }, steps).ok();
    (added, up_to(set, key, steps))
}

// Of three values: which are added, what holds of their indexes, and what holds once the first is deleted.
type Indexes = ([Option<bool>; 3], [bool; 4], [bool; 5]);

// In a tree an insertion keeps all indexes, and a deletion moves none but the next value's, into the freed index.
fn indexes_stay<S: SetCollection<i32, Pair>, L: Ledger>(
    set: &mut S,
    steps: &mut Steps<L>,
) -> Indexes
    requires { AreRising int_cmp (λ p. p.key) (values_of (S.set set.old)) }
{
    let (ten_added, ten) = index_of_new(set, 10, steps);
    let (twenty_added, twenty) = index_of_new(set, 20, steps);
    let (thirty_added, thirty) = index_of_new(set, 30, steps);
    let inserted = [
        is_at(set, ten, Some(10)),
        is_at(set, twenty, Some(20)),
        before(set, ten) == Some(EMPTY_REF),
        before(set, thirty) == Some(twenty),
    ];
    let is_deleted = delete(set, ten);
    let left = if set.has_index(ten) { ten } else { twenty };
    let deleted = [
        is_deleted,
        is_at(set, thirty, Some(30)),
        set.has_index(ten) != set.has_index(twenty),
        is_at(set, left, Some(20)),
        before(set, left) == Some(EMPTY_REF),
    ];
    ([ten_added, twenty_added, thirty_added], inserted, deleted)
}

// The place of a key in a plain vector.
fn plain_place(all: &[Pair], key: i32) -> Option<usize> {
    all.iter().position(|pair| pair.key == key)
}

// The value of a plain vector with the greatest key up to this one.
fn plain_up_to(all: &[Pair], key: i32) -> Option<Pair> {
    let mut best: Option<Pair> = None;
    for pair in all {
        if pair.key <= key {
            best = match best {
                Some(top) if top.key > pair.key => Some(top),
                _ => Some(*pair),
            };
        }
    }
    best
}

// Whether a search finds what the plain vector has, and before it what the vector has below.
fn finds<S: SetCollection<i32, Pair>, L: Ledger>(
    set: &S,
    all: &[Pair],
    key: i32,
    steps: &mut Steps<L>,
) -> bool {
    let index = up_to(set, key, steps);
    let Some(found) = plain_up_to(all, key) else {
        return index == EMPTY_REF;
    };
    let lower = match plain_up_to(all, found.key.wrapping_sub(1)) {
        None => None,
        Some(pair) => Some(pair.key),
    };
    let index_below = before(set, index).unwrap_or(EMPTY_REF);
    key_at(set, index) == Some(found.key)
        && other_at(set, index) == Some(found.other)
        && key_at(set, index_below) == lower
}

// Adds a drawn value to the set and to the plain vector, deletes it from both or looks for it in both, and says whether the answers are alike.
fn is_alike<S: SetCollection<i32, Pair>, L: Ledger>(
    set: &mut S,
    all: &mut Vec<Pair>,
    step: u32,
    seed: u64,
    steps: &mut Steps<L>,
) -> bool
    requires { AreRising int_cmp (λ p. p.key) (values_of (S.set set.old)) }
    ensures { AreRising int_cmp (λ p. p.key) (values_of (S.set set.new)) }
{
    let key = ((seed >> 40) as u32 % 100) as i32;
    let place = plain_place(all, key);
    match seed >> 62 {
        0 => {
            let pair = Pair { key, other: step };
            let added = add(set, pair, steps).ok();
            added == Some(place.is_none()) && (place.is_some() || all.push(pair).is_ok())
        }
        1 => {
            all.retain(|pair| pair.key != key);
            delete_key(set, key, steps) == place.is_some()
        }
        _ => finds(set, all, key, steps),
    }
}

// The first step at which the set and a plain vector answer otherwise, or memory is refused.
fn first_unlike<S: SetCollection<i32, Pair>, L: Ledger>(
    alloc: Global,
    set: &mut S,
    steps: &mut Steps<L>,
) -> Option<u32>
    requires { AreRising int_cmp (λ p. p.key) (values_of (S.set set.old)) }
{
    let mut all = Vec::new(alloc);
    let mut seed = 20231;
    for step in 0..10_000u32 {
        seed = next(seed);
        if !is_alike(set, &mut all, step, seed, steps) {
            return Some(step);
        }
    }
    None
}

// A list by rows, and another by drawn calls. None where memory is refused.
fn list_answers<L: Ledger>(alloc: Global, blank: Blank) -> Option<(Asked, Option<u32>)>
    requires name { blank.name ≡ L.name }
    requires parts { blank.parts ≡ L.parts }
    requires two { blank.parts ≡ 2 }
{
    let mut steps = Steps::<L>::new(blank);
    let mut set = SetList::<Pair>::new(alloc, 0).ok()?;
    let mut drawn = SetList::<Pair>::new(alloc, 0).ok()?;
    let asked = asked(&mut set, &mut steps);
    Some((asked, first_unlike(alloc, &mut drawn, &mut steps)))
}

// A tree by rows, and another by drawn calls. None where memory is refused.
fn tree_answers<L: Ledger>(alloc: Global, blank: Blank) -> Option<(Asked, Option<u32>)>
    requires name { blank.name ≡ L.name }
    requires parts { blank.parts ≡ L.parts }
    requires two { blank.parts ≡ 2 }
{
    let mut steps = Steps::<L>::new(blank);
    let mut set = PairTree::new(alloc, 0).ok()?;
    let mut drawn = PairTree::new(alloc, 0).ok()?;
    let asked = asked(&mut set, &mut steps);
    Some((asked, first_unlike(alloc, &mut drawn, &mut steps)))
}

// Whether the indexes of a tree stay. None where memory is refused.
fn tree_indexes<L: Ledger>(alloc: Global, blank: Blank) -> Option<Indexes>
    requires name { blank.name ≡ L.name }
    requires parts { blank.parts ≡ L.parts }
    requires two { blank.parts ≡ 2 }
{
    let mut steps = Steps::<L>::new(blank);
    let mut tree = PairTree::new(alloc, 0).ok()?;
    Some(indexes_stay(&mut tree, &mut steps))
}

#[test]
fn list_as_a_plain_vector(rt: HostRuntime) {
    let answers = list_answers::<Brand>(rt.alloc(), Blank::new(2));
    assert!(rt; answers == Some((AS_WANTED, None)), "{answers:?}");
}

#[test]
fn tree_as_a_plain_vector(rt: HostRuntime) {
    let answers = tree_answers::<Brand>(rt.alloc(), Blank::new(2));
    assert!(rt; answers == Some((AS_WANTED, None)), "{answers:?}");
}

#[test]
fn tree_keeps_its_indexes(rt: HostRuntime) {
    let answers = tree_indexes::<Brand>(rt.alloc(), Blank::new(2));
    assert!(rt;
        answers == Some(([Some(true); 3], [true; 4], [true; 5])),
        "{answers:?}"
    );
}

// Whether a set has what was added where any addition may be refused. A refused value is handed back.
fn stands_when_refused<S: SetCollection<i32, Pair>, L: Ledger>(
    set: &mut S,
    steps: &mut Steps<L>,
) -> bool
    requires { AreRising int_cmp (λ p. p.key) (values_of (S.set set.old)) }
{
    let mut top = None;
    for key in 1..10 {
        match add(set, Pair { key, other: 0 }, steps) {
            Ok(added) => {
                if !added {
                    return false;
                }
                top = Some(key);
            }
            Err(back) => {
                if back.key != key {
                    return false;
                }
            }
        }
        if key_up_to(set, 99, steps) != top {
            return false;
        }
    }
    true
}

// As `stands_when_refused`. None where a list isn't made.
fn list_stands<L: Ledger>(alloc: Global, blank: Blank) -> Option<bool>
    requires name { blank.name ≡ L.name }
    requires parts { blank.parts ≡ L.parts }
    requires two { blank.parts ≡ 2 }
{
    let mut steps = Steps::<L>::new(blank);
    let mut set = SetList::<Pair>::new(alloc, 1).ok()?;
    Some(stands_when_refused(&mut set, &mut steps))
}

// As `stands_when_refused`. None where a tree isn't made.
fn tree_stands<L: Ledger>(alloc: Global, blank: Blank) -> Option<bool>
    requires name { blank.name ≡ L.name }
    requires parts { blank.parts ≡ L.parts }
    requires two { blank.parts ≡ 2 }
{
    let mut steps = Steps::<L>::new(blank);
    let mut set = PairTree::new(alloc, 1).ok()?;
    Some(stands_when_refused(&mut set, &mut steps))
}

#[test]
fn too_much_room_is_refused(rt: HostRuntime) {
    assert!(rt; SetList::<Pair>::new(rt.alloc(), usize::MAX).is_err());
    assert!(rt; PairTree::new(rt.alloc(), usize::MAX).is_err());
}

// As these run here nothing is refused. A run that refuses the first allocation, or the second and so on, passes them too.
#[test]
fn list_growth_refused(rt: HostRuntime) {
    let stands = list_stands::<Brand>(rt.alloc(), Blank::new(2));
    assert!(rt; stands != Some(false));
}

#[test]
fn tree_growth_refused(rt: HostRuntime) {
    let stands = tree_stands::<Brand>(rt.alloc(), Blank::new(2));
    assert!(rt; stands != Some(false));
}
