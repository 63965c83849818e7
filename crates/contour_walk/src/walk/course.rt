//! Which way walks turn at nodes, told by the end from which a walk passes its first link and by the output direction, before it begins.
//!
//! By kind, outlines turn through the region and holes through what lies outside: the end alone tells. Else all turn through the region: the output direction
//! tells. Both are told in constant time, and there is no degenerate case.

ghost use Rattle.std.specs.Prelude.{◌≡◌, true, false, not};

/// Which way outlines run, and which way a walk turns: clockwise or not.
#[derive(Clone, Copy, Debug)]
pub(crate) struct Course {
    /// Outlines run clockwise.
    pub output: bool,
    /// A walk turns clockwise that passes its first link from its greater end.
    pub back: bool,
    /// A walk turns clockwise that passes its first link from its lesser end.
    pub forth: bool,
}

impl Course {
    /// Outlines turn through the region, holes through what lies outside.
    pub(crate) fn by_kind(output: bool) -> Course
        ensures { result ≡ record { output = output; back = true; forth = false } }
    {
        Course {
            output,
            back: true,
            forth: false,
        }
    }

    /// All walks turn through the region.
    pub(crate) fn through_region(output: bool) -> Course
        ensures { result ≡ record { output = output; back = not output; forth = not output } }
    {
        Course {
            output,
            back: !output,
            forth: !output,
        }
    }
}
