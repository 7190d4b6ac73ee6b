//! The moves, one after the other.

ghost use Rattle.std.specs.Prelude.{◌≡◌, IfOk, IfErr, OnOk};
ghost use Rattle.alt_graph.specs.Solved.{HasCycle};
ghost use Rattle.cell_control.specs.Begun.{IsRestFault};
ghost use Rattle.plan_moves.specs.{MovesFrom.AreMovesFrom, NextReports.IsOver, RunsOn.RunsOn, RunsOn.IsOnTime};

use crate::next_report::next_report;
use cell_control::{Dues, RestController, RestFault, TourneyDues};
use cell_tables::Rest;
use shop_base::{Moment, MoveOrder, Shaped};
use std::alloc::{AllocError, Global};

/// The moves of the rest of a run, where every report comes when its activity is due, and what is overdue at the present
/// moment ends at it, in the order in which a controller gives them. Of reports at one moment that of the least job comes
/// first, and behind those of all jobs that of the least machine that is being cleaned. They end with the latest moment
/// that a report may have. The plan must have no cycle; budgets aren't asked for.
pub fn moves_from(alloc: Global, rest: Rest<Shaped>) -> Result<Vec<MoveOrder>, RestFault>
    ensures moves { IfOk result (λ moves. AreMovesFrom rest.plan rest.cell rest.present moves.items) }
    ensures acyclic { OnOk result (HasCycle rest.plan → ⊥) }
    ensures fault { IfErr result (IsRestFault rest.plan) }
{
    let present = rest.present();
    match RestController::<TourneyDues>::begin(alloc, rest) {
        Ok(mut controller) => {
            let moves = all_moves(alloc, &mut controller, present);
            drop(controller);
            Ok(moves?)
        }
        Err((fault, rest)) => {
            drop(rest);
            Err(fault)
        }
    }
}

/// The moves that have been ordered, and those of the reports that come, until nothing comes.
fn all_moves<D: Dues>(
    alloc: Global,
    controller: &mut RestController<D>,
    present: Moment,
) -> Result<Vec<MoveOrder>, AllocError>
    requires { IsOnTime controller.old.planned present controller.old.cell }
    ensures over { OnOk result (IsOver controller.old.planned present controller.new.cell) }
    ensures runs { IfOk result (λ moves. RunsOn controller.old.planned present controller.old.cell controller.old.orders
        controller.new.cell moves.items) }
{
    let mut moves = Vec::from_slice(alloc, controller.orders())?;
    run_on(controller, present, &mut moves)?;
    Ok(moves)
}

/// Reports what comes next until nothing does, and adds the moves that are ordered.
fn run_on<D: Dues>(
    controller: &mut RestController<D>,
    present: Moment,
    moves: &mut Vec<MoveOrder>,
) -> Result<(), AllocError>
    requires { IsOnTime controller.old.planned present controller.old.cell }
    ensures plan { controller.new.planned ≡ controller.old.planned }
    ensures over { OnOk result (IsOver controller.new.planned present controller.new.cell) }
    ensures runs { OnOk result (RunsOn controller.old.planned present controller.old.cell moves.old.items
        controller.new.cell moves.new.items) }
{
    'next: while let Some(report) = next_report(controller, present) {
        // Called for its clause alone: the plan is well shaped, the cell sound and at rest.
        let _plan = controller.shaped();
        match controller.report(report) {
            Ok(_ack) => moves.extend_from_slice(controller.orders())?,
            Err(_fault) => unreachable!(),
        }
    }
    Ok(())
}
