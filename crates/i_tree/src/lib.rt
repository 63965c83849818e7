//! Containers for a sweep line: collections whose keys expire as the sweep goes on.
//!
//! A collection of keys answers from its live list: the entries whose expiration is after the time asked, in the order
//! of their keys. Times don't go back, so what has expired never comes back. Every call that compares keys counts
//! its comparisons in a `Steps`.
#![tactic(auto)]

pub mod exp;
pub mod key;
pub mod laws;
pub mod seg;
pub mod set;
pub mod steps;
mod tree;

pub use exp::{Expiration, ExpiredKey, ExpiredVal};
pub use steps::Steps;

/// The index that stands for no element. No element ever has it.
pub const EMPTY_REF: u32 = u32::MAX;

/// The greatest number of insertions since a collection was made or cleared.
pub(crate) const MAX_INSERTIONS: u32 = (1 << 31) - 1;
