//! What verdicts say, and what is decided of a plan. Whole answers are shown on the built program, by
//! `tests/commands/golden` and `tests/commands/command-lines`.

use alt_graph::{check_chain, check_cycle};
use arc_choice::LeastSlack;
use plan_decide::{Aim, DecideFault, Decided, Watch, Within, decide};
use plan_verifier::{Verdict, Why};
use shop_base::Shaped;
use std::alloc::Global;

/// What the verdict says, with a makespan of 10 or evidence that stands its check.
pub(super) fn said(verdict: &Verdict) -> &'static str {
    match verdict {
        Verdict::Accepted(verified) if verified.makespan() == 10 => "accepted",
        Verdict::Refused(shaped, Why::Cycle(nodes)) if check_cycle(shaped, nodes) => "cycle",
        Verdict::Refused(shaped, Why::Late { leaves, chain, .. })
            if check_chain(shaped, chain) == Some(*leaves) => { "late" }
        _ => "another verdict",
    }
}

/// Looks at no choice.
#[derive(Drop)]
pub(super) struct Nobody;

impl Watch for Nobody {
    fn choice(&mut self, _choices: u64, _limit: u64, _found: Option<Within>) {}
}

/// What is decided of a plan, within ten choices a search.
pub(super) fn decided(alloc: Global, shaped: &Shaped, aim: Aim) -> Result<Decided, DecideFault> {
    decide(
        alloc,
        shaped,
        &shaped.plan().order,
        aim,
        10,
        &mut LeastSlack::new(alloc),
        &mut Nobody,
    )
}
