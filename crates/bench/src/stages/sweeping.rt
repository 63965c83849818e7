//! Sweeps, timed.

ghost use Rattle.std.specs.Prelude.{◌≡◌, ◌<◌, ◌^◌, length, ⊤};
ghost use Rattle.segment_split.specs.SegmentViews.{entries_of, AreWithin};
ghost use Rattle.segment_arrangement.specs.SideLaws.{IsArrangement};

use crate::contours::Contours;
use i_tree::Steps;
use plane_base::fault::Fault;
use plane_base::int::OverlayInt;
use reference::arrangements::{BooleanSegment, arrangement_slowly};
use segment_arrangement::fill::SegmentFill;
use segment_arrangement::fill_rule::FillRule;
use segment_arrangement::handler::FillHandler;
use segment_arrangement::sweep::SweepRunner;
use segment_split::count::ShapeCountBoolean;
use segment_split::solver::Solver;
use std::alloc::Global;
use std::io;
use std::marker::Brand;
use std::ops::ControlFlow;
use std::rt::Clock;
use std::sync::ledger::{Blank, Ledger};
use std::time::Instant;

// How often a sweep is made.
const SWEEPS: u32 = 10;

/// Sweeps over the arrangement of contours some times over, and tells the sum of the fills of one sweep.
pub(crate) fn time_sweep(
    rt: &(impl Print + Eprint + Clock + AllocGlobal),
    name: &str,
    contours: Result<Contours, Fault>,
) -> io::Result<()> {
    let Ok(contours) = contours else {
        return println!(rt; "{name}: no memory");
    };
    let arranged = arrangement_slowly(
        rt.alloc(),
        &contours.subjects,
        &contours.clips,
        &Solver::LIST,
    );
    let found = match arranged {
        Ok(found) => found,
        Err(fault) => return println!(rt; "{name}: {fault}"),
    };
    let Some(segments) = found else {
        return println!(rt; "{name}: out of range");
    };
    let edges = segments.len();
    let start = Instant::now(rt)?;
    let Ok(sum) = sweep::<Brand>(rt.alloc(), &segments, Blank::new(2)) else {
        return println!(rt; "{name}: refused");
    };
    let nanoseconds = start.elapsed(rt)?.as_nanos() / u128::from(SWEEPS);
    eprintln!(rt; "sweep over {edges} edges of {name}: {nanoseconds} ns")?;
    println!(rt; "sweep over {edges} edges of {name}: the fills sum to {sum}")
}

// Sums the fills, wrapped.
#[derive(Drop)]
struct FillSum {
    sum: u32,
}

impl FillHandler<ShapeCountBoolean, i32, ()> for FillSum {
    type Output = u32;

    ghost handles = { λ _ _ _ _ _ _ _ _. ⊤ };

    ghost refuses = { λ _ _ _ _ _ _ _. ⊤ };

    ghost finishes = { λ _ _. ⊤ };

    fn handle(
        &mut self,
        _index: usize,
        _segment: &BooleanSegment<i32>,
        fill: SegmentFill,
    ) -> Result<ControlFlow<u32>, Fault> {
        self.sum = self.sum.wrapping_add(u32::from(fill));
        Ok(ControlFlow::Continue(()))
    }

    fn finish(self) -> u32 {
        self.sum
    }
}

// Sweeps so often over segments. Answers the sum of the fills by even-odd.
fn sweep<L: Ledger>(
    alloc: Global,
    segments: &[BooleanSegment<i32>],
    blank: Blank,
) -> Result<u32, Fault>
    requires in_range { AreWithin ⟦<i32 as OverlayInt>⟧.least ⟦<i32 as OverlayInt>⟧.greatest (entries_of ⟦<i32 as OverlayInt>⟧.value segments.now) }
    requires arrangement { IsArrangement (entries_of ⟦<i32 as OverlayInt>⟧.value segments.now) }
    requires few { length segments.now < 2 ^ 31 }
    requires name { blank.name ≡ L.name }
    requires parts { blank.parts ≡ L.parts }
    requires two { blank.parts ≡ 2 }
{
    let mut steps = Steps::<L>::new(blank);
    let mut runner = SweepRunner::new(alloc)?;
    let mut sum = 0;
    for _ in 0..SWEEPS {
        let handler = FillSum { sum: 0 };
        sum = runner.run_with_fill_rule(
            FillRule::EvenOdd,
            &Solver::TREE,
            segments,
            handler,
            &mut steps,
        )?;
    }
    Ok(sum)
}
