//! The engine for callers in C: functions over flat arrays, each condition of the engine tested and told by a status.
//!
//! Contours cross as the points of all of them in one array, and how many points each has in another; shapes as how many contours
//! each has. What is answered is written over arrays of the caller. No call leaves anything behind, and none shares anything with another.
//! `include/polygon_c.h` declares the functions.
#![tactic(auto)]

mod area;
mod arrays;
mod asked;
mod checked;
mod clip;
mod contain;
mod datum;
mod edges;
mod engine;
mod given;
mod hierarchy;
mod laid;
mod locate;
mod many;
mod overlay;
mod query;
mod refusal;
mod relate;
mod sized;
mod slice;
mod text;
mod version;
