//! The rest of the run that a log records, from the present moment on.

ghost use Rattle.std.specs.Prelude.{◌≡◌, ◌*◌, vec_capacity, IfOk, IfErr};
ghost use Rattle.shop_base.specs.Ends.{stated_number};
ghost use Rattle.cell_tables.specs.Rests.{IsPresentFault};
ghost use Rattle.text_lines.specs.Lines.{ended_lines};
ghost use Rattle.run_log.specs.{Audits.IsReplayed, Present.IsPresent, Present.IsRunAt, Present.IsRunFault};
ghost use Rattle.run_log.specs.Present.{OnPresent};

use crate::audit_fault::AuditFault;
use crate::logged_run::{LoggedRun, run_or_fault};
use cell_tables::{Entry, PresentFault, Rest};
use shop_base::{Moment, Planned};
use std::alloc::{AllocError, Global};
use thiserror::Error;

/// Why there is no run up to the present moment: the first reason.
#[derive(Clone, Copy, Debug, PartialEq, Eq, Error)]
pub enum RunFault {
    /// The log's whole lines record no run of the plan: the first fault of the first bad one.
    #[error("Log {0}")]
    Log(AuditFault),
    /// The moment can't be the present one.
    #[error("{0}")]
    Present(PresentFault),
}

/// The rest of a run as far as the lines of a log record it.
#[derive(Debug, Drop)]
pub struct LoggedRest<P: Planned> {
    /// The cell after the last entry, and the present moment.
    pub rest: Rest<P>,
    /// The run's reports and orders, in the order of the log.
    pub entries: Vec<Entry>,
}

/// The rest of the run of the plan that the whole lines of a log record, at the moment that is given, or else at the
/// last one of the run. What comes after the last line feed is torn, and isn't looked at. The plan needn't be accepted,
/// nor be the one by which the log was written. There is room for all entries of a run, so that it can go on. Fails only
/// when out of memory.
pub fn rest_at<P: Planned>(
    alloc: Global,
    basis: P,
    text: &[u8],
    at: Option<Moment>,
) -> Result<Result<LoggedRest<P>, RunFault>, AllocError>
    ensures basis { IfOk result (λ found. IfOk found (λ here. here.rest.basis ≡ basis)) }
    ensures plan { IfOk result (λ found. IfOk found (λ here. here.rest.plan ≡ P.planned basis)) }
    ensures run { IfOk result (λ found. IfOk found (λ here.
        IsRunAt (ended_lines text.now) at (P.planned basis) here.rest.cell here.entries.items here.rest.present)) }
    ensures fault { IfOk result (λ found. IfErr found (IsRunFault (ended_lines text.now) at (P.planned basis))) }
    ensures room { IfOk result (λ found. IfOk found (λ here.
        vec_capacity here.entries ≡ 2 * stated_number (P.planned basis))) }
{
    match run_or_fault(alloc, basis, text)? {
        Ok(run) => Ok(rest_of(run, at)),
        Err(fault) => Ok(Err(RunFault::Log(fault))),
    }
}

/// The rest of a run that was read, at the moment that is given, or else at the last one.
fn rest_of<P: Planned>(run: LoggedRun<P>, at: Option<Moment>) -> Result<LoggedRest<P>, RunFault>
    requires { IsReplayed run.cell.plan run.cell.cell run.entries.items }
    ensures basis { IfOk result (λ here. here.rest.basis ≡ run.cell.basis) }
    ensures plan { IfOk result (λ here. here.rest.plan ≡ run.cell.plan) }
    ensures cell { IfOk result (λ here. here.rest.cell ≡ run.cell.cell) }
    ensures entries { IfOk result (λ here. here.entries ≡ run.entries) }
    ensures present { IfOk result (λ here. IsPresent at run.cell.cell.last here.rest.present) }
    ensures fault { IfErr result (OnPresent (IsPresentFault at run.cell.cell.last)) }
{
    let LoggedRun { cell, entries } = run;
    match Rest::at(cell, at) {
        Ok(rest) => {
            let _present = rest.present();
            Ok(LoggedRest { rest, entries })
        }
        Err((fault, cell)) => {
            drop(cell);
            drop(entries);
            Err(RunFault::Present(fault))
        }
    }
}
