//! Tests of the public calls of `polygon_overlay`.
#![tactic(auto)]

#[cfg(test)]
mod tests;
