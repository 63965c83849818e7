//! How segments are cut: which road finds the pairs, and how near to an end a crossing goes to it. The redrawn map depends on the
//! precision alone, and never on the strategy.

ghost use Rattle.std.specs.Prelude.{◌≡◌};
ghost use Rattle.segment_split.specs.declared.solver.Strategy.TheVariants.{Auto};
ghost use Rattle.segment_split.specs.declared.solver.Strategy.TheVariants as strategy;
ghost use Rattle.segment_split.specs.Passes.{radius};

/// How a pass finds the pairs of segments that meet. Every strategy finds the same marks.
#[derive(Clone, Copy, Debug, PartialEq, Eq)]
pub enum Strategy {
    /// Each segment is held against those that follow it in the list, up to the first that begins past its end.
    List,
    /// By 32 buckets of y, laid out from the least to the greatest y of a pass: each segment is held against earlier ones that reach
    /// the x where it begins and share a bucket with it. As `List` where all y span less than 31.
    Tree,
    /// By columns of x: no more pairs are looked at than reach one of 32 columns together, which are laid out from the least to the
    /// greatest x of a pass, summed over the columns. They are found by rows of y. Where all x span less than 31, no more than `List`
    /// would.
    Frag,
    /// As `List` in a pass of fewer than 64 segments, else as `Frag`. From 64 segments on a map of horizontal and vertical ones alone
    /// may be redrawn by one sweep over the lines on which they run, in the place of passes. Where a few slanted ones stand among them,
    /// that sweep may be part of the first pass.
    Auto,
}

/// How near to an end a crossing off the grid has to be to go to it. In the pass k, counted from 0, that is where the
/// squared distance of the rounded crossing is at most 2 to the power of `start + k * progression`, or of 60 where that is less.
#[derive(Clone, Copy, Debug, PartialEq, Eq)]
pub struct Precision {
    pub start: usize,
    pub progression: usize,
}

impl Precision {
    /// The radius stays 1.
    pub const ABSOLUTE: Precision = Precision {
        start: 0,
        progression: 0,
    };

    /// 1, then twice as much from pass to pass.
    pub const HIGH: Precision = Precision {
        start: 0,
        progression: 1,
    };

    /// 2, then twice as much from pass to pass.
    pub const MEDIUM_HIGH: Precision = Precision {
        start: 1,
        progression: 1,
    };

    /// 1, then four times as much from pass to pass.
    pub const MEDIUM: Precision = Precision {
        start: 0,
        progression: 2,
    };

    /// 4, then four times as much from pass to pass.
    pub const MEDIUM_LOW: Precision = Precision {
        start: 2,
        progression: 2,
    };

    /// 4, then eight times as much from pass to pass.
    pub const LOW: Precision = Precision {
        start: 2,
        progression: 3,
    };

    /// How near to an end a crossing off the grid goes to it in the pass `k`: a squared distance.
    pub fn radius(self, k: usize) -> u64
        ensures { result ≡ radius self k }
    {
        let power = self
            .progression
            .saturating_mul(k)
            .saturating_add(self.start)
            .min(60);
        1 << power
    }
}

/// So many passes let a crossing go to an end that is near.
pub(crate) const EARLY_PASSES: usize = 256;

/// The strategy and the precision of a splitting.
#[derive(Clone, Copy, Debug, PartialEq, Eq)]
pub struct Solver {
    pub strategy: Strategy,
    pub precision: Precision,
}

impl Solver {
    /// `Strategy::List` at `Precision::HIGH`.
    pub const LIST: Solver = Solver {
        strategy: Strategy::List,
        precision: Precision::HIGH,
    };

    /// `Strategy::Tree`, by buckets of y, at `Precision::HIGH`.
    pub const TREE: Solver = Solver {
        strategy: Strategy::Tree,
        precision: Precision::HIGH,
    };

    /// `Strategy::Frag`, by columns of x, at `Precision::HIGH`.
    pub const FRAG: Solver = Solver {
        strategy: Strategy::Frag,
        precision: Precision::HIGH,
    };

    /// `Strategy::Auto`, as a map asks for it, at `Precision::HIGH`.
    pub const AUTO: Solver = Solver {
        strategy: Strategy::Auto,
        precision: Precision::HIGH,
    };

    /// The strategy `Auto` at this precision.
    pub fn with_precision(precision: Precision) -> Solver
        ensures { result ≡ record { strategy = Auto; precision = precision } }
    {
        Solver::with_strategy_and_precision(Strategy::Auto, precision)
    }

    /// This strategy at this precision.
    pub fn with_strategy_and_precision(strategy: Strategy, precision: Precision) -> Solver
        ensures { result ≡ record { strategy = strategy; precision = precision } }
    {
        Solver {
            strategy,
            precision,
        }
    }
}

impl Default for Solver {
    ghost is_default = { λ s. s ≡ record { strategy = Auto; precision = record { start = 0; progression = 1 } } };

    fn default() -> Solver {
        Solver::AUTO
    }
}

/// The numbers of the six precisions.
pub fn precisions_are_these()
    ensures absolute { Precision.ABSOLUTE ≡ record { start = 0; progression = 0 } }
    ensures high { Precision.HIGH ≡ record { start = 0; progression = 1 } }
    ensures medium_high { Precision.MEDIUM_HIGH ≡ record { start = 1; progression = 1 } }
    ensures medium { Precision.MEDIUM ≡ record { start = 0; progression = 2 } }
    ensures medium_low { Precision.MEDIUM_LOW ≡ record { start = 2; progression = 2 } }
    ensures low { Precision.LOW ≡ record { start = 2; progression = 3 } }
{}

/// The strategies of the four solvers, all at one precision.
pub fn solvers_are_these()
    ensures list { Solver.LIST ≡ record { strategy = strategy.List; precision = Precision.HIGH } }
    ensures tree { Solver.TREE ≡ record { strategy = strategy.Tree; precision = Precision.HIGH } }
    ensures frag { Solver.FRAG ≡ record { strategy = strategy.Frag; precision = Precision.HIGH } }
    ensures auto { Solver.AUTO ≡ record { strategy = strategy.Auto; precision = Precision.HIGH } }
{}
