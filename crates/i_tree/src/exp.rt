//! Times, and keys and values that expire. A key lives before its expiration, a value up to it, that time
//! included. The order of keys need be lawful only among the live ones and the key of a call.
ghost use Rattle.std.specs.Prelude.{◌≡◌, ◌-◌, ◌^◌, pos};
ghost use Rattle.std.specs.declared.cmp.Ordering.{Ordering};

use std::cmp::Ordering;

/// A time. A key that expires at a time is no longer live then, and a value still is.
pub trait Expiration: Copy + Ord {
    /// The greatest time of the type.
    fn max_expiration() -> Self;
}

impl Expiration for u8 {
    fn max_expiration() -> Self
        ensures { result ≡ 2 ^ 8 - 1 }
    {
        u8::MAX
    }
}

impl Expiration for u16 {
    fn max_expiration() -> Self
        ensures { result ≡ 2 ^ 16 - 1 }
    {
        u16::MAX
    }
}

impl Expiration for u32 {
    fn max_expiration() -> Self
        ensures { result ≡ 2 ^ 32 - 1 }
    {
        u32::MAX
    }
}

impl Expiration for u64 {
    fn max_expiration() -> Self
        ensures { result ≡ 2 ^ 64 - 1 }
    {
        u64::MAX
    }
}

impl Expiration for usize {
    fn max_expiration() -> Self
        ensures { result ≡ 2 ^ 64 - 1 }
    {
        usize::MAX
    }
}

impl Expiration for i8 {
    fn max_expiration() -> Self
        ensures { result ≡ pos (2 ^ 7 - 1) }
    {
        i8::MAX
    }
}

impl Expiration for i16 {
    fn max_expiration() -> Self
        ensures { result ≡ pos (2 ^ 15 - 1) }
    {
        i16::MAX
    }
}

impl Expiration for i32 {
    fn max_expiration() -> Self
        ensures { result ≡ pos (2 ^ 31 - 1) }
    {
        i32::MAX
    }
}

impl Expiration for i64 {
    fn max_expiration() -> Self
        ensures { result ≡ pos (2 ^ 63 - 1) }
    {
        i64::MAX
    }
}

/// A key that expires. Its order need not be lawful among all keys: each call of a collection asks it of the live
/// keys and the key that the call names, and of no other.
pub trait ExpiredKey<E: Expiration>: Copy {
    /// The time from which the key is no longer live.
    ghost expires: { Self → E };

    /// How a key compares with another.
    ghost order: { Self → Self → Ordering };

    /// The time from which the key is no longer live.
    fn expiration(&self) -> E
        ensures { result ≡ expires self.now };

    /// How the key compares with another.
    fn key_order(&self, other: &Self) -> Ordering
        ensures { result ≡ order self.now other.now };
}

/// A value that expires.
pub trait ExpiredVal<E: Expiration>: Copy {
    /// The last time at which the value is still live.
    ghost expires: { Self → E };

    /// The last time at which the value is still live.
    fn expiration(&self) -> E
        ensures { result ≡ expires self.now };
}
