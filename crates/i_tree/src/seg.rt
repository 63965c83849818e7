//! Ranges of numbers that expire, found by the buckets that they touch: a segment tree over 32 buckets
//! (`tree`), its layout, and its parts.
mod entity;
pub mod exp;
pub mod iter;
pub mod layout;
pub mod mask;
mod node;
mod pool;
pub mod tree;
