//! Red-black trees of nodes in a pool, named by their places: nodes and rotations (`pool`), in-order
//! predecessors (`order`), additions and removals with their fix-ups, and trees with entries.
pub mod addition;
pub mod entries;
pub mod insertion;
pub mod order;
pub mod pool;
pub mod removal;
