//! What is reckoned with coordinates of 20 bits, in 64 bits. The greatest number, twice a difference of coordinates times a
//! weight, stays below 2^63. `wide` has the same functions in 128 bits: the text and the proofs are these, with other numerals.

ghost use Rattle.std.specs.Prelude.{◌≡◌, ◌+◌, ◌*◌, ◌<◌, ◌≤◌, ◌^◌, pos, negsuc, neg_ℤ, ◌+ℤ◌, ◌-ℤ◌, ◌*ℤ◌, ◌≤ℤ◌, ◌<ℤ◌};
ghost use Rattle.std.specs.Int.{int_div_euclid};
ghost use Rattle.std.specs.Ordering.{int_eq};
ghost use Rattle.plane_base.specs.Crossing.{floor, nearest};

// The cross product of two vectors between points in range.
pub(super) fn cross_product(x: i64, y: i64, other_x: i64, other_y: i64) -> i64
    requires x_fits { (negsuc 1048575 ≤ℤ x) × (x ≤ℤ pos 1048575) }
    requires y_fits { (negsuc 1048575 ≤ℤ y) × (y ≤ℤ pos 1048575) }
    requires other_x_fits { (negsuc 1048575 ≤ℤ other_x) × (other_x ≤ℤ pos 1048575) }
    requires other_y_fits { (negsuc 1048575 ≤ℤ other_y) × (other_y ≤ℤ pos 1048575) }
    ensures is { result ≡ (x *ℤ other_y) -ℤ (y *ℤ other_x) }
    ensures above { neg_ℤ (pos (2 ^ 41)) ≤ℤ result }
    ensures below { result ≤ℤ pos (2 ^ 41) }
{
    product(x, other_y) - product(y, other_x)
}

// The inner product of two such vectors.
pub(super) fn inner_product(x: i64, y: i64, other_x: i64, other_y: i64) -> i64
    requires x_fits { (negsuc 1048575 ≤ℤ x) × (x ≤ℤ pos 1048575) }
    requires y_fits { (negsuc 1048575 ≤ℤ y) × (y ≤ℤ pos 1048575) }
    requires other_x_fits { (negsuc 1048575 ≤ℤ other_x) × (other_x ≤ℤ pos 1048575) }
    requires other_y_fits { (negsuc 1048575 ≤ℤ other_y) × (other_y ≤ℤ pos 1048575) }
    ensures is { result ≡ (x *ℤ other_x) +ℤ (y *ℤ other_y) }
    ensures above { neg_ℤ (pos (2 ^ 41)) ≤ℤ result }
    ensures below { result ≤ℤ pos (2 ^ 41) }
{
    product(x, other_x) + product(y, other_y)
}

// A product of two differences of coordinates.
fn product(x: i64, y: i64) -> i64
    requires x_fits { (negsuc 1048575 ≤ℤ x) × (x ≤ℤ pos 1048575) }
    requires y_fits { (negsuc 1048575 ≤ℤ y) × (y ≤ℤ pos 1048575) }
    ensures is { result ≡ x *ℤ y }
    ensures above { neg_ℤ (pos (2 ^ 40)) ≤ℤ result }
    ensures below { result ≤ℤ pos (2 ^ 40) }
{
    x * y
}

// One number by which points stand by x, and at one x by y.
pub(super) fn key(x: i64, y: i64) -> i64
    requires x_fits { (negsuc 1048575 ≤ℤ x) × (x ≤ℤ pos 1048575) }
    requires y_fits { (negsuc 1048575 ≤ℤ y) × (y ≤ℤ pos 1048575) }
    ensures { result ≡ (pos 2097152 *ℤ x) +ℤ y }
{
    2_097_152 * x + y
}

// The whole number nearest to the mean of `a`, weighed by `v`, and `b`, weighed by `u`.
pub(super) fn nearest_mean(a: i64, b: i64, u: u64, v: u64) -> i64
    requires a_fits { (negsuc 524287 ≤ℤ a) × (a ≤ℤ pos 524287) }
    requires b_fits { (negsuc 524287 ≤ℤ b) × (b ≤ℤ pos 524287) }
    requires u_fits { (0 < u) × (u ≤ 2 ^ 41) }
    requires v_fits { (0 < v) × (v ≤ 2 ^ 41) }
    ensures { result ≡ nearest ((pos v *ℤ a) +ℤ (pos u *ℤ b)) (u + v) }
{
    let sum = (u + v) as i64;
    a + quotient(2 * weighed(b - a, u) + sum, 2 * sum)
}

// The greatest whole number that isn't above that mean.
pub(super) fn floor_mean(a: i64, b: i64, u: u64, v: u64) -> i64
    requires a_fits { (negsuc 524287 ≤ℤ a) × (a ≤ℤ pos 524287) }
    requires b_fits { (negsuc 524287 ≤ℤ b) × (b ≤ℤ pos 524287) }
    requires u_fits { (0 < u) × (u ≤ 2 ^ 41) }
    requires v_fits { (0 < v) × (v ≤ 2 ^ 41) }
    ensures { result ≡ floor ((pos v *ℤ a) +ℤ (pos u *ℤ b)) (u + v) }
{
    a + quotient(weighed(b - a, u), (u + v) as i64)
}

// Whether that mean is the number from `a` to `b`.
pub(super) fn is_mean(a: i64, b: i64, u: u64, v: u64, number: i64) -> bool
    requires a_fits { (negsuc 524287 ≤ℤ a) × (a ≤ℤ pos 524287) }
    requires b_fits { (negsuc 524287 ≤ℤ b) × (b ≤ℤ pos 524287) }
    requires number_fits { (negsuc 524287 ≤ℤ number) × (number ≤ℤ pos 524287) }
    requires u_fits { (0 < u) × (u ≤ 2 ^ 41) }
    requires v_fits { (0 < v) × (v ≤ 2 ^ 41) }
    ensures { result ≡ int_eq (pos (u + v) *ℤ number) ((pos v *ℤ a) +ℤ (pos u *ℤ b)) }
{
    weighed(number - a, u + v) == weighed(b - a, u)
}

// A difference of coordinates times a weight.
fn weighed(difference: i64, weight: u64) -> i64
    requires difference_fits { (negsuc 1048575 ≤ℤ difference) × (difference ≤ℤ pos 1048575) }
    requires weight_fits { weight ≤ 2 ^ 42 }
    ensures is { result ≡ difference *ℤ pos weight }
    ensures above { neg_ℤ (pos (2 ^ 20 * weight)) ≤ℤ result }
    ensures below { result ≤ℤ pos (2 ^ 20 * weight) }
{
    difference * (weight as i64)
}

// The quotient, rounded down.
fn quotient(number: i64, divisor: i64) -> i64
    requires { pos 0 <ℤ divisor }
    ensures { result ≡ int_div_euclid number divisor }
{
    number.div_euclid(divisor)
}
