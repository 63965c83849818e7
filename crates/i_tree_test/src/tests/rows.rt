//! Single answers of every collection of keys, given by hand. A mark's value is its place.
ghost use Rattle.std.specs.Prelude.{◌≡◌};

use crate::tests::mark::{Mark, add, add_by_place, at_or_below, below};
use crate::tests::words::{flag, if_any, number, time};
use i_tree::EMPTY_REF;
use i_tree::exp::Expiration;
use i_tree::key::exp::KeyExpCollection;
use i_tree::key::list::KeyExpList;
use i_tree::key::row::KeyExpRow;
use i_tree::key::tree::KeyExpTree;
use i_tree::steps::Steps;
use std::alloc::Global;
use std::marker::Brand;
use std::str::SplitAsciiWhitespace;
use std::sync::ledger::{Blank, Ledger};

type MarkList = KeyExpList<Mark, u16, i32>;

type MarkRow = KeyExpRow<Mark, u16, i32>;

type MarkTree = KeyExpTree<Mark, u16, i32>;

// Calls with what they answer. `add`, and `put`, which seeks a place and adds there, have a place, an end, a value and a time; `below` and
// `up_to` have a time and a place. A time that may not be asked gives `none`.
const ROWS: &str = "\
clear
add 3 7 3 0 true
below 6 4 3
below 7 4 0
clear
add 1 9 1 0 true
add 2 5 2 0 true
add 3 9 3 0 true
add 4 5 4 0 true
add 5 9 5 0 true
add 6 5 6 0 true
add 7 9 7 0 true
below 5 7 5
below 5 1 0
clear
add 2 4 4 5 true
add 2 5 5 5 true
add 2 8 8 5 true
add 2 9 9 5 false
below 5 3 8
up_to 5 2 8
up_to 8 2 0
clear
add 20 9 20 0 true
add 40 9 40 0 true
add 30 9 30 0 true
up_to 1 30 30
below 1 30 20
up_to 1 35 30
below 1 35 30
up_to 1 19 0
below 1 19 0
up_to 1 20 20
below 1 20 0
up_to 1 99 40
below 1 99 40
clear
add 1 9 1 4 true
latest 4
below 3 5 none
clear
latest none
below 0 5 0
put 20 4 20 0 true
put 10 9 10 0 true
put 15 9 15 4 true
put 15 9 16 4 false
put 30 9 30 4 true
up_to 4 20 15
below 4 99 30
below 5 15 10
";

// A mark that is added with a value at a time.
#[derive(Clone, Copy)]
struct Addition {
    mark: Mark,
    value: i32,
    time: u16,
}

// A place that is asked for at a time.
#[derive(Clone, Copy)]
struct Query {
    time: u16,
    place: i32,
}

// A call with what it answers.
#[derive(Clone, Copy)]
enum Row {
    Clear,
    Latest(Option<u16>),
    Add(Addition, bool),
    Put(Addition, bool),
    Below(Query, Option<i32>),
    UpTo(Query, Option<i32>),
}

// The row of a line.
fn row_of(line: &str) -> Option<Row> {
    let mut words = line.split_ascii_whitespace();
    let row = next_row(&mut words)?;
    if words.next().is_some() {
        return None;
    }
    Some(row)
}

fn next_row(words: &mut SplitAsciiWhitespace<'_>) -> Option<Row> {
    match words.next()? {
        "clear" => Some(Row::Clear),
        "latest" => Some(Row::Latest(if_any_time(words)?)),
        "add" => Some(Row::Add(next_addition(words)?, flag(words)?)),
        "put" => Some(Row::Put(next_addition(words)?, flag(words)?)),
        "below" => Some(Row::Below(next_query(words)?, if_any(words)?)),
        "up_to" => Some(Row::UpTo(next_query(words)?, if_any(words)?)),
        _ => None,
    }
}

fn next_addition(words: &mut SplitAsciiWhitespace<'_>) -> Option<Addition> {
    let place = number(words)?;
    let end = time(words)?;
    let value = number(words)?;
    let time = time(words)?;
    Some(Addition {
        mark: Mark { place, end },
        value,
        time,
    })
}

fn next_query(words: &mut SplitAsciiWhitespace<'_>) -> Option<Query> {
    let time = time(words)?;
    let place = number(words)?;
    Some(Query { time, place })
}

// The next word as what may be no time, `none`.
fn if_any_time(words: &mut SplitAsciiWhitespace<'_>) -> Option<Option<u16>> {
    match words.next()? {
        "none" => Some(None),
        word => Some(Some(word.parse().ok()?)),
    }
}

// Whether the collection answers the row's call as the row says.
fn is_answered<C: KeyExpCollection<Mark, u16, i32>, L: Ledger>(
    live: &mut C,
    row: Row,
    steps: &mut Steps<L>,
) -> bool {
    match row {
        Row::Clear => {
            live.clear();
            true
        }
        Row::Latest(latest) => live.latest_time() == latest,
        Row::Add(call, added) => {
            add(live, call.mark, call.value, call.time, steps).ok() == Some(added)
        }
        Row::Put(call, added) => {
            add_by_place(live, call.mark, call.value, call.time, steps).ok() == Some(added)
        }
        Row::Below(call, value) => below(live, call.time, call.place, steps) == value,
        Row::UpTo(call, value) => at_or_below(live, call.time, call.place, steps) == value,
    }
}

// The number of the first row that isn't answered as it says. A key is gone at its end, and no other is; what has expired is accepted and never
// answered, and a key like it may come again; an equal key is answered, but not below itself; after a clear all starts again.
fn first_unanswered<C: KeyExpCollection<Mark, u16, i32>, L: Ledger>(
    live: &mut C,
    steps: &mut Steps<L>,
) -> Option<usize> {
    let mut number = 0usize;
    for line in ROWS.lines() {
        let is_right = match row_of(line) {
            Some(row) => is_answered(live, row, steps),
            None => false,
        };
        if !is_right {
            return Some(number);
        }
        number = number.wrapping_add(1);
    }
    None
}

// Adds marks, each of which may be refused, and asks for the greatest after each. The answer is the last that was added, and None where another
// is found.
fn last_added<C: KeyExpCollection<Mark, u16, i32>, L: Ledger>(
    live: &mut C,
    steps: &mut Steps<L>,
) -> Option<i32> {
    let mut last = 0;
    for place in 1..20 {
        match add(live, Mark { place, end: 9 }, place, 0, steps) {
            Ok(true) => last = place,
            Ok(false) => return None,
            Err(_) => {}
        }
        if below(live, 0, 99, steps) != Some(last) {
            return None;
        }
    }
    Some(last)
}

// Whether a collection keeps its answers while its growth may be refused, and the first row that it doesn't answer then.
type Asked = (bool, Option<usize>);

const AS_WANTED: Asked = (true, None);

// Under a run that refuses one allocation after another, an insertion here is the one refused. What comes after finds room enough.
fn asked<C: KeyExpCollection<Mark, u16, i32>, L: Ledger>(
    live: &mut C,
    steps: &mut Steps<L>,
) -> Asked {
    let keeps_its_answers = last_added(live, steps).is_some();
    (keeps_its_answers, first_unanswered(live, steps))
}

// What a list and its copy have below 2, once the list is cleared.
fn cleared_and_copied<L: Ledger>(live: &mut MarkList, steps: &mut Steps<L>) -> [Option<i32>; 2] {
    let copy: Result<_, _> = live.clone();
    live.clear();
    let cleared = below(live, 8, 2, steps);
    let copied = match copy {
        Ok(mut copy) => below(&mut copy, 8, 2, steps),
        Err(_) => None,
    };
    [cleared, copied]
}

// After the rows: whether a mark is added to the list, too much room refused and more room given.
fn asked_list<L: Ledger>(
    alloc: Global,
    blank: Blank,
) -> Option<(Asked, [bool; 3], [Option<i32>; 2])>
    requires name { blank.name ≡ L.name }
    requires parts { blank.parts ≡ L.parts }
    requires two { blank.parts ≡ 2 }
{
    let mut steps = Steps::<L>::new(blank);
    let mut live = MarkList::new(alloc, 0).ok()?;
    let asked = asked(&mut live, &mut steps);
    let added = add(&mut live, Mark { place: 1, end: 9 }, 1, 5, &mut steps);
    let grown = [
        added.ok() == Some(true),
        live.reserve_capacity(usize::MAX).is_err(),
        live.reserve_capacity(40).is_ok(),
    ];
    Some((asked, grown, cleared_and_copied(&mut live, &mut steps)))
}

// As `asked_list`, and what is below 2 then.
fn asked_tree<L: Ledger>(alloc: Global, blank: Blank) -> Option<(Asked, [bool; 3], Option<i32>)>
    requires name { blank.name ≡ L.name }
    requires parts { blank.parts ≡ L.parts }
    requires two { blank.parts ≡ 2 }
{
    let mut steps = Steps::<L>::new(blank);
    let mut live = MarkTree::new(alloc, 0).ok()?;
    let asked = asked(&mut live, &mut steps);
    let added = add(&mut live, Mark { place: 1, end: 9 }, 1, 5, &mut steps);
    let grown = [
        added.ok() == Some(true),
        live.reserve_capacity(usize::MAX).is_err(),
        live.reserve_capacity(40).is_ok(),
    ];
    Some((asked, grown, below(&mut live, 8, 2, &mut steps)))
}

fn asked_row<L: Ledger>(alloc: Global, blank: Blank) -> Option<Asked>
    requires name { blank.name ≡ L.name }
    requires parts { blank.parts ≡ L.parts }
    requires two { blank.parts ≡ 2 }
{
    let mut steps = Steps::<L>::new(blank);
    let mut live = MarkRow::new(alloc, 0).ok()?;
    Some(asked(&mut live, &mut steps))
}

#[test]
fn too_much_room_is_refused(rt: HostRuntime) {
    assert!(rt; MarkList::new(rt.alloc(), usize::MAX).is_err());
    assert!(rt; MarkTree::new(rt.alloc(), usize::MAX).is_err());
    assert!(rt; MarkRow::new(rt.alloc(), usize::MAX).is_err());
}

#[test]
fn single_answers_of_a_row(rt: HostRuntime) {
    let answers = asked_row::<Brand>(rt.alloc(), Blank::new(2));
    assert!(rt; answers == Some(AS_WANTED), "{answers:?}");
}

#[test]
fn single_answers_of_a_list(rt: HostRuntime) {
    let answers = asked_list::<Brand>(rt.alloc(), Blank::new(2));
    assert!(rt;
        answers == Some((AS_WANTED, [true; 3], [Some(0), Some(1)])),
        "{answers:?}"
    );
}

#[test]
fn single_answers_of_a_tree(rt: HostRuntime) {
    let answers = asked_tree::<Brand>(rt.alloc(), Blank::new(2));
    assert!(rt;
        answers == Some((AS_WANTED, [true; 3], Some(1))),
        "{answers:?}"
    );
}

// Whether a list whose growth may be refused, and its copy, have what was added; None where it isn't made.
fn grown_list_stands<L: Ledger>(alloc: Global, blank: Blank) -> Option<bool>
    requires name { blank.name ≡ L.name }
    requires parts { blank.parts ≡ L.parts }
    requires two { blank.parts ≡ 2 }
{
    let mut steps = Steps::<L>::new(blank);
    let mut live = MarkList::new(alloc, 1).ok()?;
    let last = last_added(&mut live, &mut steps);
    let copied = match live.clone() {
        Ok(mut copy) => below(&mut copy, 8, 99, &mut steps),
        Err(_) => last,
    };
    let is_refused = live.reserve_capacity(usize::MAX).is_err();
    let _reserved = live.reserve_capacity(40);
    let kept = below(&mut live, 8, 99, &mut steps);
    Some(last.is_some() && copied == last && is_refused && kept == last)
}

// As `grown_list_stands`.
fn grown_tree_stands<L: Ledger>(alloc: Global, blank: Blank) -> Option<bool>
    requires name { blank.name ≡ L.name }
    requires parts { blank.parts ≡ L.parts }
    requires two { blank.parts ≡ 2 }
{
    let mut steps = Steps::<L>::new(blank);
    let mut live = MarkTree::new(alloc, 1).ok()?;
    Some(last_added(&mut live, &mut steps).is_some())
}

// As these run here nothing is refused. A run that refuses the first allocation, or the second and so on, passes them too.
#[test]
fn growth_refused(rt: HostRuntime) {
    let stands = grown_list_stands::<Brand>(rt.alloc(), Blank::new(2));
    assert!(rt; stands != Some(false));
}

#[test]
fn tree_growth_refused(rt: HostRuntime) {
    let stands = grown_tree_stands::<Brand>(rt.alloc(), Blank::new(2));
    assert!(rt; stands != Some(false));
}

#[test]
fn greatest_numbers(rt: HostRuntime) {
    assert!(rt; EMPTY_REF == 4294967295);
    assert!(rt; u8::max_expiration() == 255 && u64::max_expiration() == 18446744073709551615);
    assert!(rt; i8::max_expiration() == 127 && i64::max_expiration() == 9223372036854775807);
}
