//! Tests of the public calls of `i_tree`.
#![tactic(auto)]

#[cfg(test)]
mod tests;
