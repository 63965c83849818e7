//! Depths: how often a point is wound round at least where `AtLeast` fills it. Degenerate cases: below 1 there is none.

ghost use Rattle.std.specs.Prelude.{◌≡◌, ◌≤ℤ◌, ◌<ℤ◌, pos, MatchOption};

/// A number of windings, 1 or more.
#[derive(Clone, Copy, Debug, PartialEq, Eq)]
pub struct Depth {
    windings: i32,
    ghost some: { pos 1 ≤ℤ windings },
}

impl Depth {
    ghost use Rattle.segment_arrangement.specs.Depths.{windings_of};

    /// The depth of n windings; none exactly where n is below 1.
    pub fn new(n: i32) -> Option<Depth>
        ensures { MatchOption result (n <ℤ pos 1) (λ depth. (pos 1 ≤ℤ n) × (windings_of depth ≡ n)) }
    {
        if n < 1 {
            None
        } else {
            Some(Depth { windings: n })
        }
    }

    /// How many windings these are.
    pub fn get(self) -> i32
        ensures { result ≡ windings_of self }
    {
        self.windings
    }
}
