//! Clips and slices whose answers were worked out by hand, and drawn slices against a slow program.

mod clipped;
mod closed;
mod drawn;
mod looped;
mod made;
mod plain;
mod sliced;
mod starred;
