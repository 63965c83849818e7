//! The digits of a number, laid two at a time, by divide and conquer.
//!
//! A number is taken apart from above, by halves: eight digits are two times four, and four are two times two. So no step waits for
//! another, and none divides by ten. It takes constant time.

ghost use Rattle.std.specs.Prelude.{◌≡◌, ◌+◌, ◌≤◌, ◌<◌, ◌++◌, ◌∷◌, [], length, take, decimal};
ghost use Rattle.polybool.specs.Digits.{two_digits, four_digits, eight_digits};

// The two digits of each number below a hundred.
static PAIRS: [u8; 200] =
    *b"0001020304050607080910111213141516171819202122232425262728293031323334353637383940414243444546474849\
    5051525354555657585960616263646566676869707172737475767778798081828384858687888990919293949596979899";

/// Lays a number at a place, and tells the place behind it.
#[inline(always)]
pub fn lay_number(bytes: &mut [u8], at: usize, n: u64) -> usize
    requires { at + length (decimal n) ≤ length bytes.old }
    ensures text { take result bytes.new ≡ take at bytes.old ++ decimal n }
    ensures end { result ≡ at + length (decimal n) }
{
    if n < 100_000_000 {
        return lay_eight_at_most(bytes, at, n);
    }
    let next = lay_sixteen_at_most(bytes, at, n / 100_000_000);
    lay_eight(bytes, next, n % 100_000_000)
}

// Lays a number of sixteen digits at most. No coordinate of 20 bits comes here.
#[inline(never)]
fn lay_sixteen_at_most(bytes: &mut [u8], at: usize, n: u64) -> usize
    requires few { n < 10000000000000000 }
    requires room { at + length (decimal n) ≤ length bytes.old }
    ensures text { take result bytes.new ≡ take at bytes.old ++ decimal n }
    ensures end { result ≡ at + length (decimal n) }
{
    if n < 100_000_000 {
        return lay_eight_at_most(bytes, at, n);
    }
    let next = lay_eight_at_most(bytes, at, n / 100_000_000);
    lay_eight(bytes, next, n % 100_000_000)
}

// Lays a number of eight digits at most.
#[inline(always)]
fn lay_eight_at_most(bytes: &mut [u8], at: usize, n: u64) -> usize
    requires few { n < 100000000 }
    requires room { at + length (decimal n) ≤ length bytes.old }
    ensures text { take result bytes.new ≡ take at bytes.old ++ decimal n }
    ensures end { result ≡ at + length (decimal n) }
{
    if n < 10_000 {
        return lay_four_at_most(bytes, at, n);
    }
    let next = lay_four_at_most(bytes, at, n / 10_000);
    lay_four(bytes, next, n % 10_000)
}

// Lays a number of four digits at most.
fn lay_four_at_most(bytes: &mut [u8], at: usize, n: u64) -> usize
    requires few { n < 10000 }
    requires room { at + length (decimal n) ≤ length bytes.old }
    ensures text { take result bytes.new ≡ take at bytes.old ++ decimal n }
    ensures end { result ≡ at + length (decimal n) }
{
    if n < 100 {
        return lay_two_at_most(bytes, at, n);
    }
    let next = lay_two_at_most(bytes, at, n / 100);
    lay_two(bytes, next, n % 100)
}

// Lays a number of two digits at most.
fn lay_two_at_most(bytes: &mut [u8], at: usize, n: u64) -> usize
    requires few { n < 100 }
    requires room { at + length (decimal n) ≤ length bytes.old }
    ensures text { take result bytes.new ≡ take at bytes.old ++ decimal n }
    ensures end { result ≡ at + length (decimal n) }
{
    if n < 10 {
        return lay_digit(bytes, at, b'0' + n as u8);
    }
    lay_two(bytes, at, n)
}

// Lays eight digits of a number, with zeros before it.
#[inline(never)]
fn lay_eight(bytes: &mut [u8], at: usize, n: u64) -> usize
    requires few { n < 100000000 }
    requires room { at + 8 ≤ length bytes.old }
    ensures text { take result bytes.new ≡ take at bytes.old ++ eight_digits n }
    ensures end { result ≡ at + 8 }
{
    let next = lay_four(bytes, at, n / 10_000);
    lay_four(bytes, next, n % 10_000)
}

// Lays four digits of a number, with zeros before it.
fn lay_four(bytes: &mut [u8], at: usize, n: u64) -> usize
    requires few { n < 10000 }
    requires room { at + 4 ≤ length bytes.old }
    ensures text { take result bytes.new ≡ take at bytes.old ++ four_digits n }
    ensures end { result ≡ at + 4 }
{
    let next = lay_two(bytes, at, n / 100);
    lay_two(bytes, next, n % 100)
}

// Lays two digits of a number, with a zero before one digit.
fn lay_two(bytes: &mut [u8], at: usize, n: u64) -> usize
    requires few { n < 100 }
    requires room { at + 2 ≤ length bytes.old }
    ensures text { take result bytes.new ≡ take at bytes.old ++ two_digits n }
    ensures end { result ≡ at + 2 }
{
    let from = n as usize * 2;
    let (tens, ones) = (PAIRS[from], PAIRS[from + 1]);
    let next = lay_digit(bytes, at, tens);
    lay_digit(bytes, next, ones)
}

// Lays a digit.
fn lay_digit(bytes: &mut [u8], at: usize, digit: u8) -> usize
    requires { at < length bytes.old }
    ensures text { take result bytes.new ≡ take at bytes.old ++ digit ∷ [] }
    ensures end { result ≡ at + 1 }
{
    bytes[at] = digit;
    at + 1
}
