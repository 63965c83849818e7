//! An insertion, as the pool of a bucket tree keeps it: a value, its buckets, and the nodes that name its
//! place.
ghost use Rattle.std.specs.Prelude.{◌≤◌};

use std::alloc::AllocError;

/// A value with the buckets of its range, and the mask of the nodes that name its place.
pub(crate) struct Entity<V> {
    pub(crate) first: u32,
    pub(crate) last: u32,
    pub(crate) named: u64,
    pub(crate) value: V,
    ghost ordered: { first ≤ last },
    ghost inside: { last ≤ 31 },
}

impl<V: Copy> Clone for Entity<V> {
    fn clone(&self) -> Result<Self, AllocError> {
        Ok(*self)
    }
}

impl<V: Copy> Copy for Entity<V> {}
