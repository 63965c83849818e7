//! What the types of coordinates reckon, and what is asked of the numbers that they give.

ghost use Rattle.std.specs.Prelude.{◌^◌, pos, IsTrue};
ghost use Rattle.plane_base.specs.Plane.{HasSize, IsWeight};

use super::all_answered;
use plane_base::int::{OverlayInt, WideIntNumber};
use row_words::Words;
use std::cmp::Ordering;

// How far coordinates of 20 bits lie apart at most, and what they weigh at most.
const SPAN: i64 = 1_048_575;

const MOST: i64 = 2_199_023_255_552;

// The same of wide coordinates.
const FAR_SPAN: i64 = 2_199_023_255_551;

const FAR_MOST: i128 = 9_671_406_556_917_033_397_649_408;

// How far from 0 a number of 128 bits may lie whose size is asked for.
const FAR: i128 = 85_070_591_730_234_615_865_843_651_857_942_052_864;

// Whether a row of kernels, or of a number, is answered as it says.
fn is_answered(words: &mut Words<'_>) -> bool {
    match words.next() {
        "products" => are_products(words),
        "mean" => has_mean(words),
        "far_products" => are_far_products(words),
        "far_mean" => has_far_mean(words),
        "number" => is_number(words),
        "wide" => is_wide(words),
        _ => false,
    }
}

fn are_products(words: &mut Words<'_>) -> bool {
    let x = words.number();
    let y = words.number();
    let other_x = words.number();
    let other_y = words.number();
    let cross = words.number();
    let inner = words.number();
    let key = words.number();
    if !lies_near(x) {
        return false;
    }
    if !lies_near(y) {
        return false;
    }
    if !lies_near(other_x) {
        return false;
    }
    if !lies_near(other_y) {
        return false;
    }
    i32::cross_product(x, y, other_x, other_y) == cross
        && i32::inner_product(x, y, other_x, other_y) == inner
        && i32::key(x, y) == key
}

fn lies_near(way: i64) -> bool
    ensures { IsTrue result → HasSize (pos 1048575) way }
{
    -SPAN <= way && way <= SPAN
}

fn has_mean(words: &mut Words<'_>) -> bool {
    let a = words.number();
    let b = words.number();
    let u = words.number();
    let v = words.number();
    let nearest = words.number();
    let floor = words.number();
    let is_nearest = words.flag();
    if !i32::in_range(a) {
        return false;
    }
    if !i32::in_range(b) {
        return false;
    }
    if !i32::in_range(nearest) {
        return false;
    }
    if !is_weight(u) {
        return false;
    }
    if !is_weight(v) {
        return false;
    }
    i32::nearest_mean(a, b, u, v) == nearest
        && i32::floor_mean(a, b, u, v) == floor
        && i32::is_mean(a, b, u, v, nearest) == is_nearest
}

fn is_weight(weight: i64) -> bool
    ensures { IsTrue result → IsWeight (pos (2 ^ 41)) weight }
{
    0 < weight && weight <= MOST
}

fn are_far_products(words: &mut Words<'_>) -> bool {
    let x = words.number();
    let y = words.number();
    let other_x = words.number();
    let other_y = words.number();
    let cross = words.wide();
    let inner = words.wide();
    let key = words.wide();
    if !lies_far(x) {
        return false;
    }
    if !lies_far(y) {
        return false;
    }
    if !lies_far(other_x) {
        return false;
    }
    if !lies_far(other_y) {
        return false;
    }
    i64::cross_product(x, y, other_x, other_y) == cross
        && i64::inner_product(x, y, other_x, other_y) == inner
        && i64::key(x, y) == key
}

fn lies_far(way: i64) -> bool
    ensures { IsTrue result → HasSize (pos 2199023255551) way }
{
    -FAR_SPAN <= way && way <= FAR_SPAN
}

fn has_far_mean(words: &mut Words<'_>) -> bool {
    let a = words.number();
    let b = words.number();
    let u = words.wide();
    let v = words.wide();
    let nearest = words.number();
    let floor = words.number();
    let is_nearest = words.flag();
    if !i64::in_range(a) {
        return false;
    }
    if !i64::in_range(b) {
        return false;
    }
    if !i64::in_range(nearest) {
        return false;
    }
    if !is_far_weight(u) {
        return false;
    }
    if !is_far_weight(v) {
        return false;
    }
    i64::nearest_mean(a, b, u, v) == nearest
        && i64::floor_mean(a, b, u, v) == floor
        && i64::is_mean(a, b, u, v, nearest) == is_nearest
}

fn is_far_weight(weight: i128) -> bool
    ensures { IsTrue result → IsWeight (pos (2 ^ 83)) weight }
{
    0 < weight && weight <= FAR_MOST
}

fn is_number(words: &mut Words<'_>) -> bool {
    let number = words.number();
    -MOST <= number && number <= MOST && is_told(number, words)
}

fn is_wide(words: &mut Words<'_>) -> bool {
    let number = words.wide();
    -FAR <= number && number <= FAR && is_told(number, words)
}

fn is_told<W: WideIntNumber>(number: W, words: &mut Words<'_>) -> bool
    requires { HasSize W.limit (W.number number) }
{
    let is_told = match words.ordering() {
        Ordering::Less => number.is_negative() && !number.is_zero() && !number.is_positive(),
        Ordering::Equal => !number.is_negative() && number.is_zero() && !number.is_positive(),
        Ordering::Greater => !number.is_negative() && !number.is_zero() && number.is_positive(),
    };
    let size = number.size();
    let most = words.count() as u64;
    let is_at_most = words.flag();
    is_told && size.to_i128() == words.wide() && size.is_at_most(most) == is_at_most
}

const ROWS: &str = "\
# two ways, their cross and inner product, and the key of the first
products 1 2 3 4 -2 11 2097154
products 1048575 1048575 -1048575 1048575 2199019061250 0 2199022206975
products -1048575 1048575 1048575 1048575 -2199019061250 0 -2199020109825
products 0 0 1048575 -1048575 0 0 0
products -3 5 7 -11 -2 -76 -6291451
# two coordinates and what they weigh, the mean to the nearest and down, and whether it is the nearest
mean 0 1 1 1 1 0 false
mean 0 -1 1 1 0 -1 false
mean -524288 524287 1 1 0 -1 false
mean -524288 524287 2199023255552 1 524287 524286 false
mean 524287 -524288 1 2199023255552 524287 524286 false
mean 7 7 5 9 7 7 true
mean 0 10 3 7 3 3 true
mean -5 5 1 3 -2 -3 false
mean -524288 524287 2199023255551 2199023255552 -1 -1 false
# the same of wide coordinates
far_products 1 2 3 4 -2 11 4398046511106
far_products 2199023255551 2199023255551 -2199023255551 2199023255551 9671406556908237304627202 0 9671406556914834374393855
far_products -2199023255551 2199023255551 2199023255551 2199023255551 -9671406556908237304627202 0 -9671406556910436327882753
far_products -3 5 7 -11 -2 -76 -13194139533307
far_mean 0 1 1 1 1 0 false
far_mean 0 -1 1 1 0 -1 false
far_mean -68719476736 68719476735 1 1 0 -1 false
far_mean -68719476736 68719476735 9671406556917033397649408 1 68719476735 68719476734 false
far_mean 68719476735 -68719476736 1 9671406556917033397649408 68719476735 68719476734 false
far_mean 7 7 5 9 7 7 true
far_mean 0 10 3 7 3 3 true
# a number, its order with 0, a bound, whether its size keeps it, and the size
number 0 Equal 0 true 0
number 1 Greater 0 false 1
number -1 Less 1 true 1
number 2199023255552 Greater 2199023255552 true 2199023255552
number -2199023255552 Less 2199023255551 false 2199023255552
wide 0 Equal 0 true 0
wide -1 Less 0 false 1
wide 9223372036854775808 Greater 9223372036854775807 false 9223372036854775808
wide 18446744073709551615 Greater 18446744073709551615 true 18446744073709551615
wide -18446744073709551616 Less 18446744073709551615 false 18446744073709551616
wide 85070591730234615865843651857942052864 Greater 9223372036854775807 false 85070591730234615865843651857942052864
";

#[test]
fn answers_rows_of_kernels(rt: HostRuntime) {
    all_answered(&rt, ROWS, is_answered);
}
