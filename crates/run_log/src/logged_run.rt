//! The run that a log records.

ghost use Rattle.std.specs.Prelude.{◌≡◌, ◌*◌, ◌≤◌, [], length, vec_capacity, IfOk, OnOk, IfErr};
ghost use Rattle.shop_base.specs.Ends.{stated_number};
ghost use Rattle.text_lines.specs.Lines.{lines_of, ended_lines};
ghost use Rattle.event_lines.specs.LogLines.{LinesParse};
ghost use Rattle.run_log.specs.Audits.{IsReplayed, IsLineFault, IsFirstBad, IsAuditFault};
ghost use Rattle.run_log.specs.Audits.{fault_line, room_for};
ghost use Rattle.run_log.specs.Auditing.{IsLineReplayed, HasRoomForNext};

use crate::audit_fault::AuditFault;
use crate::entry_check::{check_entry, follow_entry};
use crate::run_log::most_entries;
use cell_tables::{Entry, WorkCell};
use event_lines::{entry_in, is_passed_over};
use shop_base::Planned;
use std::alloc::{AllocError, Global};
use text_lines::{ended_part, next_line};

/// A run as far as the lines of a log that were read record it.
#[derive(Debug, Drop)]
pub(crate) struct LoggedRun<P: Planned> {
    /// The cell after the last entry, at its moment; at the start of a run if there is no entry.
    pub cell: WorkCell<P>,
    /// Its reports and orders, in the order of the log.
    pub entries: Vec<Entry>,
}

/// The run of the plan that the whole lines of a log record, and the cell at its end, or the first fault of the lines.
/// What comes after the last line feed is torn, and isn't looked at. Whole lines are accepted exactly if an audit keeps
/// them, and the first fault of others is the audit's: the plan needn't be accepted, nor be the one by which the log was
/// written. There is room for all entries of a run, so that it can go on. Fails only when out of memory.
pub(crate) fn run_or_fault<P: Planned>(
    alloc: Global,
    basis: P,
    text: &[u8],
) -> Result<Result<LoggedRun<P>, AuditFault>, AllocError>
    ensures basis { IfOk result (λ found. IfOk found (λ run. run.cell.basis ≡ basis)) }
    ensures plan { IfOk result (λ found. IfOk found (λ run. run.cell.plan ≡ P.planned basis)) }
    ensures parses { IfOk result (λ found. IfOk found (λ run.
        LinesParse (P.planned basis) (ended_lines text.now) run.entries.items)) }
    ensures replayed { IfOk result
        (λ found. IfOk found (λ run. IsReplayed (P.planned basis) run.cell.cell run.entries.items)) }
    ensures fault { IfOk result (λ found. IfErr found (IsFirstBad (P.planned basis) (ended_lines text.now))) }
    ensures room { IfOk result
        (λ found. IfOk found (λ run. vec_capacity run.entries ≡ 2 * stated_number (P.planned basis))) }
{
    let room = most_entries(basis.shaped());
    let mut run = LoggedRun::with_room(alloc, basis, room)?;
    match run.take_lines(ended_part(text)) {
        Ok(()) => Ok(Ok(run)),
        Err(fault) => {
            drop(run);
            Ok(Err(fault))
        }
    }
}

/// The run that the log records, if all its lines record one. It has room for so many entries.
pub(crate) fn read_log<P: Planned>(
    alloc: Global,
    basis: P,
    text: &[u8],
    room: usize,
) -> Result<LoggedRun<P>, AuditFault>
    requires { room_for (P.planned basis) (lines_of text.now) ≤ room }
    ensures basis { IfOk result (λ run. run.cell.basis ≡ basis) }
    ensures plan { IfOk result (λ run. run.cell.plan ≡ P.planned basis) }
    ensures replayed { IfOk result (λ run. IsReplayed (P.planned basis) run.cell.cell run.entries.items) }
    ensures parses { IfOk result (λ run. LinesParse (P.planned basis) (lines_of text.now) run.entries.items) }
    ensures room { IfOk result (λ run. vec_capacity run.entries ≡ room) }
    ensures fault { IfErr result (IsAuditFault (P.planned basis) (lines_of text.now)) }
{
    let mut run = LoggedRun::with_room(alloc, basis, room)?;
    match run.take_lines(text) {
        Ok(()) => Ok(run),
        Err(fault) => {
            drop(run);
            Err(fault)
        }
    }
}

impl<P: Planned> LoggedRun<P> {
    /// A run with no entry yet, with room for so many.
    fn with_room(alloc: Global, basis: P, room: usize) -> Result<LoggedRun<P>, AllocError>
        ensures basis { IfOk result (λ run. run.cell.basis ≡ basis) }
        ensures plan { IfOk result (λ run. run.cell.plan ≡ P.planned basis) }
        ensures replayed { IfOk result (λ run. IsReplayed run.cell.plan run.cell.cell []) }
        ensures empty { IfOk result (λ run. run.entries.items ≡ []) }
        ensures room { IfOk result (λ run. vec_capacity run.entries ≡ room) }
    {
        match WorkCell::start(alloc, basis) {
            Ok(cell) => {
                let entries = Vec::with_capacity(alloc, room)?;
                Ok(LoggedRun { cell, entries })
            }
            Err(refused) => Err(refused.0),
        }
    }

    /// Takes the lines of the text one after another.
    fn take_lines(&mut self, text: &[u8]) -> Result<(), AuditFault>
        requires replayed { IsReplayed self.old.cell.plan self.old.cell.cell [] }
        requires empty { self.old.entries.items ≡ [] }
        requires room { room_for self.old.cell.plan (lines_of text.now) ≤ vec_capacity self.old.entries }
        ensures same_basis { OnOk result (self.new.cell.basis ≡ self.old.cell.basis) }
        ensures same_plan { OnOk result (self.new.cell.plan ≡ self.old.cell.plan) }
        ensures replayed { OnOk result (IsReplayed self.old.cell.plan self.new.cell.cell self.new.entries.items) }
        ensures parses { OnOk result (LinesParse self.old.cell.plan (lines_of text.now) self.new.entries.items) }
        ensures capacity { OnOk result (vec_capacity self.new.entries ≡ vec_capacity self.old.entries) }
        ensures fault { IfErr result (IsFirstBad self.old.cell.plan (lines_of text.now)) }
    {
        let mut number = 0;
        let mut rest = text;
        while let Some((line, after)) = next_line(rest) {
            number += 1;
            self.take_line(line, number)?;
            rest = after;
        }
        Ok(())
    }

    /// Takes the entry in the line of this number, if it isn't passed over.
    fn take_line(&mut self, line: &[u8], number: usize) -> Result<(), AuditFault>
        requires replayed { IsReplayed self.old.cell.plan self.old.cell.cell self.old.entries.items }
        requires room { HasRoomForNext self.old.cell.plan (length self.old.entries.items)
            (vec_capacity self.old.entries) }
        ensures same_basis { OnOk result (self.new.cell.basis ≡ self.old.cell.basis) }
        ensures same_plan { OnOk result (self.new.cell.plan ≡ self.old.cell.plan) }
        ensures replayed { OnOk result (IsReplayed self.old.cell.plan self.new.cell.cell self.new.entries.items) }
        ensures parses { OnOk result
            (IsLineReplayed self.old.cell.plan line.now self.old.entries.items self.new.entries.items) }
        ensures capacity { OnOk result (vec_capacity self.new.entries ≡ vec_capacity self.old.entries) }
        ensures number { IfErr result (λ fault. fault_line fault ≡ number) }
        ensures fault { IfErr result (IsLineFault self.old.cell.plan self.old.cell.cell line.now) }
    {
        let Some(entry) = entry_in(self.cell.shaped(), line) else {
            if is_passed_over(line) {
                return Ok(());
            }
            return Err(AuditFault::BadLine { line: number });
        };
        check_entry(&self.cell, entry, number)?;
        follow_entry(&mut self.cell, entry);
        self.entries.push_reserved(entry);
        Ok(())
    }
}
