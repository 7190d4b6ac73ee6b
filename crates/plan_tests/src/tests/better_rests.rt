//! A better plan for the rest of a run, found by the annealing where there is memory enough; and the plan given back on
//! a fault.

ghost use Rattle.std.specs.Prelude.{None};

use super::plans::{is_text, planned};
use cell_tables::Rest;
use plan_improve::{
    AnnealingImprover, ImproveFault, Improved, Improver, MAX_ROUNDS, NotImproved, PartAhead,
    Proposed, Watch, better_rest,
};
use plan_text::PlanFault;
use plan_verifier::Judged;
use run_log::{LoggedRest, rest_at};
use shop_base::{Moment, Shaped};
use std::alloc::{AllocError, Global};
use std::cell::Cell;
use std::rc::Rc;
use std::test::Fail;

/// The total lateness and the makespan of the best plan before each of two rounds.
type Costs = [(Moment, Moment); 2];

/// Notes what it gets in each of two rounds.
#[derive(Drop)]
struct Noted {
    costs: Costs,
}

impl Watch for Noted {
    ghost reported = { λ _. None };

    fn round(&mut self, round: u32, late: Moment, makespan: Moment, _at_least: Moment) {
        if let Some(cost) = self.costs.get_mut(round as usize) {
            *cost = (late, makespan);
        }
    }
}

/// Job 0 goes over both machines, job 1 the other way round, and job 2 over machine 0 alone.
const RUSH: &[u8] = b"rush\n3 2\n0 3 1 2\n1 4 0 1\n0 2\n";

/// Job 0 is on machine 1 since 3, and job 1 waits outside.
const LOG: &[u8] = b"report 0 arrive 0\norder 0 0 out 0\nreport 0 arrive 1\n\
    report 3 finish 0 0\norder 3 0 0 1\n";

/// Job 2 comes last, and is late.
const AT_THE_END: &[u8] =
    b"release = [0, 0, 0]\nbudget = [5, 12, 8]\norder = [[0, 1, 2], [0, 1]]\n";

const BETWEEN: &[u8] = b"release = [0, 0, 0]\nbudget = [5, 12, 8]\norder = [[0, 2, 1], [0, 1]]\n";

/// Job 1 is late in each rest. It could be in time only before job 0, which has entered both machines.
const URGENT_AT_THE_END: &[u8] =
    b"release = [0, 0, 0]\nbudget = [99, 5, 99]\norder = [[0, 1, 2], [0, 1]]\n";

const URGENT_BETWEEN: &[u8] =
    b"release = [0, 0, 0]\nbudget = [99, 5, 99]\norder = [[0, 2, 1], [0, 1]]\n";

/// An improver that has no answer, and counts how often it is asked.
#[derive(Drop)]
struct Silent {
    questions: Rc<Cell<u32>>,
}

impl Improver for Silent {
    ghost may = { λ improver shaped rest round answer. Unit {0} };

    fn improve(&self, _: Global, _: &Shaped, _: Option<&PartAhead>, _: u32) -> Proposed {
        self.questions.set(self.questions.get().saturating_add(1));
        Ok(None)
    }
}

fn annealing(alloc: Global) -> Result<Box<dyn Improver>, AllocError> {
    let boxed: Box<dyn Improver> = Box::new(alloc, AnnealingImprover::new(0))?;
    Ok(boxed)
}

fn counting(alloc: Global, questions: &Rc<Cell<u32>>) -> Result<Box<dyn Improver>, AllocError> {
    let questions = questions.clone()?;
    let boxed: Box<dyn Improver> = Box::new(alloc, Silent { questions })?;
    Ok(boxed)
}

/// The annealing, and one that counts how often it is asked.
fn improvers(
    alloc: Global,
    questions: &Rc<Cell<u32>>,
) -> Result<Vec<Box<dyn Improver>>, AllocError> {
    let mut improvers = Vec::new(alloc);
    improvers.push(annealing(alloc)?)?;
    improvers.push(counting(alloc, questions)?)?;
    Ok(improvers)
}

/// Whether this plan is found, and whether its rest is accepted; or whether it comes back, and the fault.
type End = (bool, Result<bool, ImproveFault>);

fn is_end(
    alloc: Global,
    answer: &Result<Improved, NotImproved>,
    plan: &[u8],
) -> Result<End, PlanFault> {
    match answer {
        Ok(improved) => {
            let accepted = matches!(improved.verdict, Judged::Accepted(_));
            Ok((is_text(alloc, improved.shaped.plan(), plan)?, Ok(accepted)))
        }
        Err(refused) => {
            Ok((
                is_text(alloc, refused.start.plan(), plan)?,
                Err(refused.fault),
            ))
        }
    }
}

/// A search for the rest of the run in the log: the plan that is given, and the rounds.
#[derive(Clone, Copy)]
struct Search {
    plan: &'static [u8],
    rounds: u32,
}

/// What is left at moment 4 of the run in the log, by a plan.
fn left(alloc: Global, plan: &[u8]) -> Result<Rest<Shaped>, Fail> {
    let LoggedRest { rest, entries } = rest_at(alloc, planned(alloc, RUSH, plan)?, LOG, Some(4))??;
    drop(entries);
    Ok(rest)
}

/// How a search ends, where this plan is to be found or to come back.
fn improved(
    alloc: Global,
    search: Search,
    plan: &[u8],
    improvers: &[Box<dyn Improver>],
    watch: &mut Noted,
) -> Result<End, Fail> {
    let rest = left(alloc, search.plan)?;
    let answer = better_rest(alloc, rest, improvers, search.rounds, watch);
    let end = is_end(alloc, &answer, plan);
    drop(answer);
    Ok(end?)
}

/// The same by the annealing and an improver that counts its questions, and the costs that are noted.
fn end_and_costs(
    alloc: Global,
    search: Search,
    plan: &[u8],
    questions: &Rc<Cell<u32>>,
) -> Result<(End, Costs), Fail> {
    let improvers = improvers(alloc, questions)?;
    let mut watch = Noted {
        costs: [(0, 0), (0, 0)],
    };
    let end = improved(alloc, search, plan, &improvers, &mut watch);
    drop(improvers);
    Ok((end?, watch.costs))
}

/// The same, and how many questions there were.
fn searched(alloc: Global, search: Search, plan: &[u8]) -> Result<(End, Costs, u32), Fail> {
    let questions = Rc::new(alloc, Cell::new(0))?;
    let found = end_and_costs(alloc, search, plan, &questions);
    let count = questions.get();
    drop(questions);
    let (end, costs) = found?;
    Ok((end, costs, count))
}

const LATE: Search = Search {
    plan: AT_THE_END,
    rounds: 2,
};

const URGENT: Search = Search {
    plan: URGENT_AT_THE_END,
    ..LATE
};

#[test]
fn a_late_rest_is_mended(rt: HostRuntime) -> Result<(), Fail> {
    let found = searched(rt.alloc(), LATE, BETWEEN)?;
    assert!(rt; found == ((true, Ok(true)), [(4, 12), (0, 10)], 2));
    Ok(())
}

#[test]
fn a_rest_is_shortened(rt: HostRuntime) -> Result<(), Fail> {
    let found = searched(rt.alloc(), URGENT, URGENT_BETWEEN)?;
    assert!(rt; found == ((true, Ok(false)), [(5, 12), (5, 10)], 2));
    Ok(())
}

#[test]
fn a_plan_comes_back_with_the_fault(rt: HostRuntime) -> Result<(), Fail> {
    let search = Search {
        rounds: MAX_ROUNDS + 1,
        ..LATE
    };
    let found = searched(rt.alloc(), search, search.plan)?;
    assert!(rt;
        found
            == (
                (true, Err(ImproveFault::TooManyRounds)),
                [(0, 0), (0, 0)],
                0
            )
    );
    Ok(())
}
