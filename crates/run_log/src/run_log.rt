//! How many entries a run can have.

ghost use Rattle.std.specs.Prelude.{◌≡◌, ◌+◌, ◌*◌, ◌<◌, ◌≤◌, ◌↔◌, [], ◌∷◌, ◌++◌, length, map, vec_len, vec_capacity};
ghost use Rattle.std.specs.Prelude.{IfOk, OnOk, OnErr, IsErr};
ghost use Rattle.shop_base.specs.Ends.{stated_number};

use cell_tables::Entry;
use shop_base::{MoveOrder, Planned, Report, Shaped};
use std::alloc::{AllocError, Global};
use std::marker::Model;
use thiserror::Error;

/// Why nothing was noted.
#[derive(Clone, Copy, Debug, PartialEq, Eq, Error)]
pub enum LogFault {
    /// The reserved entries can't take all.
    #[error("Full")]
    Full,
}

/// The events of a run, in the order in which they happened. It reserves all its memory when it is made.
#[derive(Debug, Drop)]
pub struct RunLog {
    entries: Vec<Entry>,
}

impl Model for RunLog {
    ghost use Rattle.std.specs.Prelude.{vec_capacity};
    ghost use Rattle.run_log.specs.Log.{Noted};

    ghost Value = { Noted };

    ghost view = { λ l. record { entries = l.entries.items; reserved = vec_capacity l.entries } };
}

impl RunLog {
    ghost use Rattle.run_log.specs.Log.{Notes};

    /// An empty log with room for a whole run of the plan: twice as many entries as it has reports.
    pub fn for_run<P: Planned>(alloc: Global, basis: &P) -> Result<RunLog, AllocError>
        ensures { IfOk result (λ log.
            log ≡ record { entries = []; reserved = 2 * stated_number (P.planned basis.now) }) }
    {
        let reserved = most_entries(basis.shaped());
        let entries = Vec::with_capacity(alloc, reserved)?;
        Ok(RunLog { entries })
    }

    /// The log of these entries. It has the room that was reserved for them.
    pub fn of_entries(entries: Vec<Entry>) -> RunLog
        ensures { result ≡ record { entries = entries.items; reserved = vec_capacity entries } }
    {
        RunLog { entries }
    }

    /// Notes an accepted report.
    pub fn note_report(&mut self, report: Report) -> Result<(), LogFault>
        ensures noted { OnOk result (Notes self.old self.new (Entry.Report report ∷ [])) }
        ensures full { IsErr result ↔ (self.old.reserved < length self.old.entries + 1) }
        ensures unchanged { OnErr result (self.new ≡ self.old) }
    {
        if self.entries.len() == self.entries.capacity() {
            return Err(LogFault::Full);
        }
        self.entries.push_reserved(Entry::Report(report));
        Ok(())
    }

    /// Notes the moves that were ordered after a report, all or none.
    pub fn note_orders(&mut self, orders: &[MoveOrder]) -> Result<(), LogFault>
        ensures noted { OnOk result (Notes self.old self.new (map Entry.Order orders.now)) }
        ensures full { IsErr result ↔ (self.old.reserved < length self.old.entries + length orders.now) }
        ensures unchanged { OnErr result (self.new ≡ self.old) }
    {
        if orders.len() > self.entries.capacity() - self.entries.len() {
            return Err(LogFault::Full);
        }
        push_orders(&mut self.entries, orders);
        Ok(())
    }

    /// The entries, in the order in which they were noted.
    pub fn entries(&self) -> &[Entry]
        ensures { result.now ≡ self.now.entries }
    {
        self.entries.as_slice()
    }
}

fn push_orders(entries: &mut Vec<Entry>, orders: &[MoveOrder])
    requires { vec_len entries.old + length orders.now ≤ vec_capacity entries.old }
    ensures items { entries.new.items ≡ entries.old.items ++ map Entry.Order orders.now }
    ensures len { vec_len entries.new ≡ vec_len entries.old + length orders.now }
    ensures capacity { vec_capacity entries.new ≡ vec_capacity entries.old }
{
    for order in orders {
        entries.push_reserved(Entry::Order(*order));
    }
}

/// For how many entries a log of a run of the plan needs room: two for each report.
pub(crate) fn most_entries(shaped: &Shaped) -> usize
    ensures { result ≡ 2 * stated_number shaped.now }
{
    let _shop = shaped.shop();
    2 * shaped.report_count() as usize
}
