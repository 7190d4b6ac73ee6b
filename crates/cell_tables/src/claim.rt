ghost use Rattle.std.specs.Prelude.{◌≡◌};
ghost use Rattle.shop_base.specs.Report.{at};
ghost use Rattle.cell_tables.specs.Claims.{claim_moment};

use shop_base::{JobNo, MachineNo, Moment, Report};

/// What is said to have ended: by a report, or by words that tell it apart from what ends elsewhere or later.
#[derive(Clone, Copy, Debug)]
pub enum Claim {
    /// A report.
    Report(Report),
    /// The machine has been cleaned after this job.
    CleanAfter {
        machine: MachineNo,
        job: JobNo,
        at: Moment,
    },
    /// The operation of this step of the job has ended. Steps are counted from 0.
    FinishStep {
        job: JobNo,
        step: u32,
        at: Moment,
    },
    /// The machine has been cleaned after this step of the job.
    CleanAfterStep {
        machine: MachineNo,
        job: JobNo,
        step: u32,
        at: Moment,
    },
}

impl Claim {
    /// The moment at which it is said to have ended.
    pub fn at(self) -> Moment
        ensures { result ≡ claim_moment self }
    {
        match self {
            Claim::Report(report) => report.at(),
            Claim::CleanAfter {
                machine: _,
                job: _,
                at,
            } => at,
            Claim::FinishStep {
                job: _,
                step: _,
                at,
            } => at,
            Claim::CleanAfterStep {
                machine: _,
                job: _,
                step: _,
                at,
            } => at,
        }
    }
}
