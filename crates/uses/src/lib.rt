//! Callers of the engine, as a program would write them: `crates/polygon_overlay/CALLING.md` walks through them.
#![tactic(auto)]

pub mod blocks;
pub mod clips;
pub mod compared;
pub mod depths;
pub mod difference;
pub mod floods;
pub mod intersection;
pub mod islands;
pub mod locations;
pub mod masks;
pub mod owners;
pub mod parcels;
pub mod queries;
pub mod relations;
pub mod sheets;
pub mod simplification;
pub mod slices;
pub mod stores;
pub mod tiles;
