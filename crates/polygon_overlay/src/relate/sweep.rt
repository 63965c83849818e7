//! The sweep that tells a handler the fills of what is held, once that is redrawn. It takes the time of both, but for what the
//! handler breaks off.

ghost use Rattle.std.specs.Prelude.{◌≡◌, IfOk, IfErr, OnOk, OnErr};
ghost use Rattle.segment_split.specs.Holdings.{holding, failed};
ghost use Rattle.segment_arrangement.specs.Graphs.{all_links};
ghost use Rattle.segment_arrangement.specs.RuleViews.{fill_rule_of};
ghost use Rattle.polygon_overlay.specs.Builders.{IsHeld};
ghost use Rattle.polygon_overlay.specs.Overlays.{redrawn_of, IsQueryRefused};

use crate::predicate::PredicateHandler;
use crate::query::redraw_with_steps;
use i_tree::Steps;
use plane_base::fault::Fault;
use plane_base::int::OverlayInt;
use segment_arrangement::fill_rule::FillRule;
use segment_arrangement::sweep::SweepRunner;
use segment_split::count::ShapeCountBoolean;
use segment_split::given::held::Held;
use segment_split::solver::Solver;
use std::sync::ledger::{Blank, Ledger};

// What a handler answers for the links of what is held, by a count of steps that is thrown away. What is held is then redrawn.
pub(crate) fn sweep_held<I: OverlayInt, H: PredicateHandler<I>, L: Ledger>(
    held: &mut Held<ShapeCountBoolean, I, ()>,
    runner: &mut SweepRunner<I>,
    solver: &Solver,
    fill_rule: FillRule,
    handler: H,
    blank: Blank,
) -> Result<H::Output, Fault>
    requires held { IsHeld I.least I.greatest held.old.edges }
    requires name { blank.name ≡ L.name }
    requires parts { blank.parts ≡ L.parts }
    requires two { blank.parts ≡ 2 }
    ensures is { IfOk result (λ answer.
        answer ≡ H.answers handler (all_links (fill_rule_of fill_rule) (redrawn_of solver.now.precision held.old.edges))) }
    ensures redrawn { OnOk result (holding held.new ≡ record (holding held.old) { edges = redrawn_of solver.now.precision held.old.edges }) }
    ensures failed { OnErr result (holding held.new ≡ failed) }
    ensures held { IsHeld I.least I.greatest held.new.edges }
    ensures refused { IfErr result (IsQueryRefused solver.now.precision held.old.edges) }
{
    let mut steps = Steps::<L>::new(blank);
    redraw_with_steps(held, solver, &mut steps)?;
    match runner.run_with_fill_rule(fill_rule, solver, held.segments(), handler, &mut steps) {
        Ok(answer) => Ok(answer),
        Err(fault) => {
            held.fail();
            Err(fault)
        }
    }
}
