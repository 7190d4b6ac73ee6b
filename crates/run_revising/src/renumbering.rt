//! Changes by the numbers that jobs have once some are left out.

ghost use Rattle.std.specs.Prelude.{◌≡◌, IfOk, option_map};
ghost use Rattle.run_revising.specs.Renumbering.{renumbered_change, renumbered_changes, first_left_out};

use plan_revise::Change;
use run_pruning::KeptJobs;
use std::alloc::{AllocError, Global};

/// Changes by new numbers: all of them, or else those before the first that names a job that is left out, and its place.
#[derive(Drop)]
pub(crate) struct ByNewNumbers<'a> {
    pub(crate) changes: Vec<Change<'a>>,
    pub(crate) left_out: Option<usize>,
}

/// The changes by the numbers of the jobs that stay.
pub(crate) fn renumbered<'a>(
    alloc: Global,
    kept: &KeptJobs,
    changes: &[Change<'a>],
) -> Result<ByNewNumbers<'a>, AllocError>
    ensures changes { IfOk result (λ anew. anew.changes.items ≡ renumbered_changes kept.now changes.now) }
    ensures left_out { IfOk result (λ anew. anew.left_out ≡ first_left_out 0 kept.now changes.now) }
{
    let mut anew = Vec::new(alloc);
    for (place, change) in changes.iter().enumerate() {
        let Some(change) = renumbered_change(kept, *change) else {
            return Ok(ByNewNumbers {
                changes: anew,
                left_out: Some(place),
            });
        };
        anew.push(change)?;
    }
    Ok(ByNewNumbers {
        changes: anew,
        left_out: None,
    })
}

/// The change by the numbers of the jobs that stay; `None` if it names one that doesn't.
fn renumbered_change<'a>(kept: &KeptJobs, change: Change<'a>) -> Option<Change<'a>>
    ensures { result ≡ renumbered_change kept.now change.entry }
{
    match change {
        Change::Until { .. } | Change::Add { .. } | Change::Down { .. } | Change::Hold { .. } => {
            Some(change)
        }
        Change::Route { job, route } => Some(Change::Route {
            job: kept.number_behind(job)?,
            route,
        }),
        Change::Release { job, release } => Some(Change::Release {
            job: kept.number_behind(job)?,
            release,
        }),
        Change::Budget { job, budget } => Some(Change::Budget {
            job: kept.number_behind(job)?,
            budget,
        }),
        Change::Scrap { job } => Some(Change::Scrap {
            job: kept.number_behind(job)?,
        }),
    }
}
