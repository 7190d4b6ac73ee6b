//! Jobs whose promises can't be kept, whatever is of the others.

ghost use Rattle.std.specs.Prelude.{◌+◌, ◌<◌, IfOk, OnOk};
ghost use Rattle.shop_base.specs.Plan.{jobs};
ghost use Rattle.plan_decide.specs.Cases.{case_jobs};
ghost use Rattle.plan_decide.specs.Settings.{case_in};
ghost use Rattle.plan_decide.specs.Listed.{AreAllAlone, AreStandings};

use crate::decided::Excluded;
use crate::setting::Setting;
use crate::standing::{Standing, standing_of};
use shop_base::{JobNo, Planned};
use std::alloc::{AllocError, Global};

/// All jobs that are late alone, in ascending order.
pub(crate) fn all_alone<P: Planned>(
    alloc: Global,
    setting: &Setting<'_, P>,
    standings: &[Standing],
) -> Result<Vec<Excluded>, AllocError>
    requires { let t = case_in setting.now in AreStandings t (case_jobs t) standings.now }
    ensures { let t = case_in setting.now in
        IfOk result (λ listed. AreAllAlone t standings.now (case_jobs t) listed.items) }
{
    let mut listed = Vec::new(alloc);
    for job in 0..setting.cell().job_count() {
        add_alone(setting, standings, job, &mut listed)?;
    }
    Ok(listed)
}

/// Adds the job, if it is late alone.
fn add_alone<P: Planned>(
    setting: &Setting<'_, P>,
    standings: &[Standing],
    job: JobNo,
    listed: &mut Vec<Excluded>,
) -> Result<(), AllocError>
    requires job { job < jobs setting.now.plan }
    requires standings { let t = case_in setting.now in AreStandings t (case_jobs t) standings.now }
    requires known { AreAllAlone (case_in setting.now) standings.now job listed.old.items }
    ensures { OnOk result (AreAllAlone (case_in setting.now) standings.now (job + 1) listed.new.items) }
{
    let Standing::Late = standing_of(standings, job) else {
        return Ok(());
    };
    listed.push(Excluded::Alone(job))?;
    Ok(())
}
