//! What is reckoned with coordinates of 41 bits, in 128 bits. The greatest number, twice a difference of coordinates times a
//! weight, stays below 2^127. The text and the proofs are those of `narrow`, with other numerals.

ghost use Rattle.std.specs.Prelude.{◌≡◌, ◌+◌, ◌*◌, ◌<◌, ◌≤◌, ◌^◌, pos, negsuc, neg_ℤ, ◌+ℤ◌, ◌-ℤ◌, ◌*ℤ◌, ◌≤ℤ◌, ◌<ℤ◌};
ghost use Rattle.std.specs.Int.{int_div_euclid};
ghost use Rattle.std.specs.Ordering.{int_eq};
ghost use Rattle.plane_base.specs.Crossing.{floor, nearest};

// The cross product of two vectors between points in range.
#[inline(always)]
pub(super) fn cross_product(x: i128, y: i128, other_x: i128, other_y: i128) -> i128
    requires x_fits { (negsuc 2199023255551 ≤ℤ x) × (x ≤ℤ pos 2199023255551) }
    requires y_fits { (negsuc 2199023255551 ≤ℤ y) × (y ≤ℤ pos 2199023255551) }
    requires other_x_fits { (negsuc 2199023255551 ≤ℤ other_x) × (other_x ≤ℤ pos 2199023255551) }
    requires other_y_fits { (negsuc 2199023255551 ≤ℤ other_y) × (other_y ≤ℤ pos 2199023255551) }
    ensures is { result ≡ (x *ℤ other_y) -ℤ (y *ℤ other_x) }
    ensures above { neg_ℤ (pos (2 ^ 83)) ≤ℤ result }
    ensures below { result ≤ℤ pos (2 ^ 83) }
{
    product(x, other_y) - product(y, other_x)
}

// The inner product of two such vectors.
#[inline(always)]
pub(super) fn inner_product(x: i128, y: i128, other_x: i128, other_y: i128) -> i128
    requires x_fits { (negsuc 2199023255551 ≤ℤ x) × (x ≤ℤ pos 2199023255551) }
    requires y_fits { (negsuc 2199023255551 ≤ℤ y) × (y ≤ℤ pos 2199023255551) }
    requires other_x_fits { (negsuc 2199023255551 ≤ℤ other_x) × (other_x ≤ℤ pos 2199023255551) }
    requires other_y_fits { (negsuc 2199023255551 ≤ℤ other_y) × (other_y ≤ℤ pos 2199023255551) }
    ensures is { result ≡ (x *ℤ other_x) +ℤ (y *ℤ other_y) }
    ensures above { neg_ℤ (pos (2 ^ 83)) ≤ℤ result }
    ensures below { result ≤ℤ pos (2 ^ 83) }
{
    product(x, other_x) + product(y, other_y)
}

// A product of two differences of coordinates.
#[inline(always)]
fn product(x: i128, y: i128) -> i128
    requires x_fits { (negsuc 2199023255551 ≤ℤ x) × (x ≤ℤ pos 2199023255551) }
    requires y_fits { (negsuc 2199023255551 ≤ℤ y) × (y ≤ℤ pos 2199023255551) }
    ensures is { result ≡ x *ℤ y }
    ensures above { neg_ℤ (pos (2 ^ 82)) ≤ℤ result }
    ensures below { result ≤ℤ pos (2 ^ 82) }
{
    x * y
}

// One number by which points stand by x, and at one x by y.
#[inline(always)]
pub(super) fn key(x: i128, y: i128) -> i128
    requires x_fits { (negsuc 2199023255551 ≤ℤ x) × (x ≤ℤ pos 2199023255551) }
    requires y_fits { (negsuc 2199023255551 ≤ℤ y) × (y ≤ℤ pos 2199023255551) }
    ensures { result ≡ (pos 4398046511104 *ℤ x) +ℤ y }
{
    4_398_046_511_104 * x + y
}

// The whole number nearest to the mean of `a`, weighed by `v`, and `b`, weighed by `u`.
pub(super) fn nearest_mean(a: i128, b: i128, u: u128, v: u128) -> i128
    requires a_fits { (negsuc 1099511627775 ≤ℤ a) × (a ≤ℤ pos 1099511627775) }
    requires b_fits { (negsuc 1099511627775 ≤ℤ b) × (b ≤ℤ pos 1099511627775) }
    requires u_fits { (0 < u) × (u ≤ 2 ^ 83) }
    requires v_fits { (0 < v) × (v ≤ 2 ^ 83) }
    ensures { result ≡ nearest ((pos v *ℤ a) +ℤ (pos u *ℤ b)) (u + v) }
{
    let sum = (u + v) as i128;
    a + quotient(2 * weighed(b - a, u) + sum, 2 * sum)
}

// The greatest whole number that isn't above that mean.
pub(super) fn floor_mean(a: i128, b: i128, u: u128, v: u128) -> i128
    requires a_fits { (negsuc 1099511627775 ≤ℤ a) × (a ≤ℤ pos 1099511627775) }
    requires b_fits { (negsuc 1099511627775 ≤ℤ b) × (b ≤ℤ pos 1099511627775) }
    requires u_fits { (0 < u) × (u ≤ 2 ^ 83) }
    requires v_fits { (0 < v) × (v ≤ 2 ^ 83) }
    ensures { result ≡ floor ((pos v *ℤ a) +ℤ (pos u *ℤ b)) (u + v) }
{
    a + quotient(weighed(b - a, u), (u + v) as i128)
}

// Whether that mean is the number from `a` to `b`.
pub(super) fn is_mean(a: i128, b: i128, u: u128, v: u128, number: i128) -> bool
    requires a_fits { (negsuc 1099511627775 ≤ℤ a) × (a ≤ℤ pos 1099511627775) }
    requires b_fits { (negsuc 1099511627775 ≤ℤ b) × (b ≤ℤ pos 1099511627775) }
    requires number_fits { (negsuc 1099511627775 ≤ℤ number) × (number ≤ℤ pos 1099511627775) }
    requires u_fits { (0 < u) × (u ≤ 2 ^ 83) }
    requires v_fits { (0 < v) × (v ≤ 2 ^ 83) }
    ensures { result ≡ int_eq (pos (u + v) *ℤ number) ((pos v *ℤ a) +ℤ (pos u *ℤ b)) }
{
    weighed(number - a, u + v) == weighed(b - a, u)
}

// A difference of coordinates times a weight.
#[inline(always)]
fn weighed(difference: i128, weight: u128) -> i128
    requires difference_fits { (negsuc 2199023255551 ≤ℤ difference) × (difference ≤ℤ pos 2199023255551) }
    requires weight_fits { weight ≤ 2 ^ 84 }
    ensures is { result ≡ difference *ℤ pos weight }
    ensures above { neg_ℤ (pos (2 ^ 41 * weight)) ≤ℤ result }
    ensures below { result ≤ℤ pos (2 ^ 41 * weight) }
{
    difference * (weight as i128)
}

// The quotient, rounded down.
fn quotient(number: i128, divisor: i128) -> i128
    requires { pos 0 <ℤ divisor }
    ensures { result ≡ int_div_euclid number divisor }
{
    number.div_euclid(divisor)
}
