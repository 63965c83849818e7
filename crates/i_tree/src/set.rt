//! Sets of indexed values, by one trait (`sort`): a sorted vector (`list`) and a red-black tree (`tree`).
pub mod list;
pub mod sort;
pub mod tree;
