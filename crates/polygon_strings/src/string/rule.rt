//! What is made of a graph of strings.

/// What shapes are extracted from a graph of a shape and strings.
#[derive(Clone, Copy, Debug, PartialEq, Eq)]
pub enum StringRule {
    /// The pieces into which strings slice the shape.
    Slice,
}
