//! Coordinates, points, turns and distances.

use super::all_answered;
use super::words::point_from;
use plane_base::distance::squared_distance;
use plane_base::fault::Fault;
use plane_base::int::{OverlayInt, WideIntNumber};
use plane_base::orientation::orientation;
use plane_base::range::is_in_range;
use row_words::Words;
use std::fmt::Write;
use std::test::Fail;

// Whether a row of points is answered as it says. Its coordinates are `i32`, `i16` where it begins with `small`, or `i64` where it
// begins with `wide`.
fn is_answered(words: &mut Words<'_>) -> bool {
    match words.next() {
        "small" => is_answered_by::<i16>(words.next(), words),
        "wide" => is_answered_by::<i64>(words.next(), words),
        name => is_answered_by::<i32>(name, words),
    }
}

fn is_answered_by<I: OverlayInt>(name: &str, words: &mut Words<'_>) -> bool {
    match name {
        "limits" => has_limits::<I>(words),
        "range" => is_range::<I>(words),
        "order" => is_order::<I>(words),
        "turn" => is_turn::<I>(words),
        "distance" => is_distance::<I>(words),
        _ => false,
    }
}

fn has_limits<I: OverlayInt>(words: &mut Words<'_>) -> bool {
    let least = words.number();
    let greatest = words.number();
    let is_narrow = words.flag();
    I::MIN_COORDINATE.to_i64() == least
        && I::MAX_COORDINATE.to_i64() == greatest
        && I::IS_NARROW == is_narrow
}

fn is_range<I: OverlayInt>(words: &mut Words<'_>) -> bool {
    let number = words.number();
    let wanted = words.flag();
    if !I::in_range(number) {
        return !wanted;
    }
    wanted && I::from_i64(number).to_i64() == number
}

fn is_order<I: OverlayInt>(words: &mut Words<'_>) -> bool {
    let a = point_from::<I>(words);
    let b = point_from(words);
    let wanted = words.ordering();
    a.cmp(&b) == wanted && (a == b) == wanted.is_eq()
}

fn is_turn<I: OverlayInt>(words: &mut Words<'_>) -> bool {
    let a = point_from::<I>(words);
    let b = point_from(words);
    let c = point_from(words);
    let wanted = words.ordering();
    is_in_range(a) && is_in_range(b) && is_in_range(c) && orientation(a, b, c) == wanted
}

fn is_distance<I: OverlayInt>(words: &mut Words<'_>) -> bool {
    let a = point_from::<I>(words);
    let b = point_from(words);
    let wanted = words.wide();
    is_in_range(a) && is_in_range(b) && squared_distance(a, b).to_i128() == wanted
}

const ROWS: &str = "\
# the least and the greatest coordinate, and whether each has 20 bits at most
limits -524288 524287 true
small limits -16384 16383 true
wide limits -68719476736 68719476735 false
# whether a number is a coordinate, which then comes back
small range -16385 false
small range -16384 true
small range -1 true
small range 0 true
small range 1 true
small range 16383 true
small range 16384 false
small range -9223372036854775808 false
small range 9223372036854775807 false
range -524289 false
range -524288 true
range -1 true
range 0 true
range 1 true
range 524287 true
range 524288 false
range -9223372036854775808 false
range 9223372036854775807 false
wide range -68719476737 false
wide range -68719476736 true
wide range -524289 true
wide range 0 true
wide range 68719476735 true
wide range 68719476736 false
wide range -9223372036854775808 false
wide range 9223372036854775807 false
# points are ordered by x and then y
order 0 5 1 -5 Less
order 1 -5 0 5 Greater
order 2 3 2 4 Less
order 2 4 2 3 Greater
order -7 9 -7 9 Equal
# the third point left of, right of and on the way through the first two, also at the corners of the range
turn 0 0 1 0 0 1 Greater
turn 0 0 0 1 1 0 Less
turn 0 0 2 1 4 2 Equal
turn 3 3 3 3 5 1 Equal
turn -524288 -524288 524287 -524288 524287 524287 Greater
turn -524288 524287 524287 524287 524287 -524288 Less
turn -524288 -524288 524287 524287 0 0 Equal
turn -524288 -524288 524287 524287 524287 524286 Less
small turn -16384 -16384 16383 -16384 16383 16383 Greater
small turn -16384 16383 16383 16383 16383 -16384 Less
small turn -16384 -16384 16383 16383 0 0 Equal
small turn -16384 -16384 16383 16383 16383 16382 Less
small turn -16384 -16384 16383 16383 16382 16383 Greater
wide turn -68719476736 -68719476736 68719476735 -68719476736 68719476735 68719476735 Greater
wide turn -68719476736 68719476735 68719476735 68719476735 68719476735 -68719476736 Less
wide turn -68719476736 -68719476736 68719476735 68719476735 0 0 Equal
wide turn -68719476736 -68719476736 68719476735 68719476735 68719476735 68719476734 Less
wide turn -68719476736 -68719476736 68719476735 68719476735 68719476734 68719476735 Greater
# squared distances
distance 2 2 0 3 5
distance -524288 -524288 524287 524287 2199019061250
small distance -16384 -16384 16383 16383 2147352578
wide distance -68719476736 -68719476736 68719476735 68719476735 37778931862407405895682
";

#[test]
fn answers_rows_of_points(rt: HostRuntime) {
    all_answered(&rt, ROWS, is_answered);
}

#[test]
fn faults_have_codes_and_names(rt: HostRuntime) -> Result<(), Fail> {
    let faults = [Fault::Memory, Fault::Count, Fault::Edges, Fault::Failed];
    let mut text = String::new(rt.alloc());
    for fault in faults {
        write!(text, "{fault} {} ", fault.code())?;
    }
    assert!(rt; text.as_str() == "Memory 1 Count 2 Edges 3 Failed 4 ");
    Ok(())
}
