//! The audit of a log: whether its lines record a run of the plan.

ghost use Rattle.std.specs.Prelude.{◌≡◌, ◌≤◌, [], ◌∷◌, length, vec_capacity, IfOk, IfErr};
ghost use Rattle.shop_base.specs.Ends.{reports_in};
ghost use Rattle.text_lines.specs.Lines.{lines_of};
ghost use Rattle.cell_tables.specs.Events.{event_of, events_of};
ghost use Rattle.run_log.specs.Audits.{IsAudit, IsAuditFault, ParseAsRun, room_for};

use crate::audit_fault::AuditFault;
use crate::audit_result::Audit;
use crate::ended::has_ended;
use crate::logged_run::{LoggedRun, read_log};
use crate::run_log::most_entries;
use cell_tables::Entry;
use shop_base::Shaped;
use std::alloc::Global;
use text_lines::line_count;

/// Audits a log against a plan, which needn't be an accepted one. Empty lines and the other answers of a driven
/// cell (`late`, `refused`, `done`, `unfinished`) are passed over. Memory is allocated for as many entries as the text
/// has lines, or as a run of the plan can have, whichever is less.
pub fn audit(alloc: Global, shaped: &Shaped, text: &[u8]) -> Result<Audit, AuditFault>
    ensures kept { IfOk result (IsAudit shaped.now (lines_of text.now)) }
    ensures room { IfOk result (λ audit. vec_capacity audit.entries ≡ room_for shaped.now (lines_of text.now)) }
    ensures fault { IfErr result (IsAuditFault shaped.now (lines_of text.now)) }
    ensures only { ParseAsRun shaped.now (lines_of text.now) → IfErr result (λ fault. fault ≡ AuditFault.Memory) }
{
    let room = line_count(text).min(most_entries(shaped));
    match read_log(alloc, shaped, text, room) {
        Ok(LoggedRun { cell, entries }) => {
            let reports = report_count(&entries);
            Ok(Audit {
                reports,
                orders: entries.len() as u64 - reports,
                last: cell.last(),
                complete: has_ended(&cell),
                entries,
            })
        }
        Err(fault) => Err(fault),
    }
}

/// How many reports are among the entries.
fn report_count(entries: &[Entry]) -> u64
    ensures count { result ≡ reports_in (events_of entries.now) }
    ensures few { result ≤ length entries.now }
{
    let mut count = 0;
    for entry in entries {
        count += reports_of(*entry);
    }
    count
}

/// 1 for a report.
fn reports_of(entry: Entry) -> u64
    ensures count { result ≡ reports_in (event_of entry ∷ []) }
    ensures few { result ≤ 1 }
{
    match entry {
        Entry::Report(_) => 1,
        Entry::Order(_) => 0,
    }
}
