//! When what goes on in the cell is due.

ghost use Rattle.std.specs.Prelude.{◌≡◌, ◌+◌, ◌<◌, ◌≤◌, IfSome};
ghost use Rattle.shop_base.specs.declared.limits.TheConstants.{MAX_MOMENT};
ghost use Rattle.shop_base.specs.Plan.{jobs, machines};
ghost use Rattle.shop_base.specs.Cell.{job_in, cleaning};
ghost use Rattle.shop_base.specs.Movers.{due_of_job, due_of_cleaning};

use crate::work_cell::WorkCell;
use shop_base::{JobNo, MachineNo, Moment, Planned};

impl<P: Planned> WorkCell<P> {
    /// When the job's activity is due, in time units from moment 0: its arrival at its release, its operation its
    /// nominal time after the entry. `None` if it has no activity.
    pub fn job_due(&self, job: JobNo) -> Option<Moment>
        requires { job < jobs self.now.plan }
        ensures due { result ≡ due_of_job self.now.plan job (job_in self.now.cell job) }
        ensures in_range { IfSome result (λ due. due ≤ MAX_MOMENT + MAX_MOMENT) }
    {
        let state = self.job_state(job);
        if state.ready {
            return None;
        }
        if state.made == 0 {
            return Some(self.shaped().release_of(job));
        }
        let step = self.shaped().step_of(job, state.made - 1)?;
        Some(state.since + step.nominal)
    }

    /// When the machine's cleaning is due: its cleaning time after it began. `None` if it isn't being cleaned.
    pub fn cleaning_due(&self, machine: MachineNo) -> Option<Moment>
        requires { machine < machines self.now.plan }
        ensures due { result ≡ due_of_cleaning self.now.plan machine (cleaning self.now.cell machine) }
        ensures in_range { IfSome result (λ due. due ≤ MAX_MOMENT + MAX_MOMENT) }
    {
        let from = self.cleaned_since(machine)?;
        Some(from + self.shaped().clean_of(machine))
    }
}
