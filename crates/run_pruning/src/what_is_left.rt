//! A run without what is over.

ghost use Rattle.std.specs.Prelude.{◌≡◌, IfOk};
ghost use Rattle.shop_base.specs.Run.{IsRun, ends_in};
ghost use Rattle.cell_tables.specs.Events.{events_of};
ghost use Rattle.run_pruning.specs.{Pruned.pruned, Over.DropsAllThatIsOver};
ghost use Rattle.run_pruning.specs.PruningLaw.{pruned_run, run_owner, IsWhatIsLeft};

use crate::finding::jobs_to_keep;
use crate::kept_jobs::KeptJobs;
use crate::pruning::{prune, prune_entries};
use cell_tables::{Entry, WorkCell};
use shop_base::{Planned, Shaped};
use std::alloc::{AllocError, Global};

/// What is left of a run: the planned shop of the jobs that stay alone, their entries, and which jobs these are.
#[derive(Drop)]
pub struct LeftRun {
    pub shaped: Shaped,
    pub entries: Vec<Entry>,
    pub kept: KeptJobs,
}

/// What is left of a run without the jobs that are over at its end, of which these are the entries and this is the cell.
/// All else stays, by new numbers. It takes time linear in the entries and in the plan.
pub fn left_run<P: Planned>(
    alloc: Global,
    cell: &WorkCell<P>,
    entries: &[Entry],
) -> Result<LeftRun, AllocError>
    requires run { IsRun cell.now.plan (events_of entries.now) }
    requires ends { ends_in cell.now.plan (events_of entries.now) ≡ cell.now.cell }
    ensures kept { let last = run_owner cell.now.plan (events_of entries.now) in
        IfOk result (λ left. DropsAllThatIsOver cell.now.plan cell.now.cell last left.kept) }
    ensures shaped { IfOk result (λ left. left.shaped ≡ pruned left.kept cell.now.plan) }
    ensures entries { IfOk result (λ left.
        events_of left.entries.items ≡ pruned_run left.kept cell.now.plan (events_of entries.now)) }
    ensures is_left { IfOk result (λ left. IsWhatIsLeft left.kept cell.now.plan (events_of entries.now)) }
{
    let kept = jobs_to_keep(alloc, cell, entries)?;
    let shaped = prune(alloc, cell.shaped(), &kept)?;
    let entries = prune_entries(alloc, cell.shaped(), &kept, entries)?;
    Ok(LeftRun {
        shaped,
        entries,
        kept,
    })
}
