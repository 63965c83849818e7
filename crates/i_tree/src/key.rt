//! Collections of keys that expire, by one trait (`exp`): a sorted vector (`list`), the same by binary search
//! (`row`), and a red-black tree (`tree`).
pub mod exp;
pub mod list;
pub mod row;
mod search;
pub mod tree;
