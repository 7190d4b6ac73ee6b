//! What is claimed to have ended, by a report or in words that tell it apart from what ends elsewhere or later.

ghost use Rattle.std.specs.Prelude.{OnOk, IfOk, IfErr};
ghost use Rattle.cell_tables.specs.Claims.{claimed};
ghost use Rattle.cell_control.specs.Examined.{IsExamined};
ghost use Rattle.cell_control.specs.Claims.{CanClaim, IsClaimReason, AnswersClaim};

use crate::ack::Ack;
use crate::checking::check_claim;
use crate::core_controller::Core;
use crate::dues::Dues;
use crate::possible::Possible;
use crate::report_fault::ReportFault;
use crate::timed::Timed;
use cell_tables::Claim;
use shop_base::{JobNo, MachineNo, Moment};

impl<P: Timed, D: Dues> Core<P, D> {
    /// Examines what is claimed to have ended, as [`Core::examine`] does a report. Nothing changes.
    #[inline(always)]
    pub fn examine_claim(&self, claim: Claim) -> Result<Possible, ReportFault>
        ensures possible { OnOk result (CanClaim self.now.planned self.now.cell claim) }
        ensures examined { IfOk result
            (IsExamined self.now.planned self.now.cell (claimed self.now.planned claim)) }
        ensures first_reason { IfErr result (IsClaimReason self.now.planned self.now.cell claim) }
    {
        // Called for its clause alone: the cell is sound.
        let _plan = self.shaped();
        let cell = &self.cell;
        let report = check_claim(cell, claim)?;
        Ok(self.examined(report))
    }

    /// Takes what is claimed to have ended. If it is possible it is accepted as its report, as [`Core::report`] does;
    /// if it isn't, the call returns the first reason, which is unique, and nothing changes. What is named by its step
    /// isn't accepted twice in a run, at whatever moments; nor is an arrival, nor what is named by its machine and its
    /// job where the job visits the machine once (`no_claim_is_accepted_twice` of [`crate::laws`]).
    pub fn claim(&mut self, claim: Claim) -> Result<Ack, ReportFault>
        ensures { AnswersClaim self.old claim result self.new }
    {
        // Called for its clause alone: the cell is sound.
        let _plan = self.shaped();
        let possible = self.examine_claim(claim)?;
        Ok(self.accept(possible))
    }

    /// Takes the claim that the machine has been cleaned after this job, as [`Core::claim`] does. It is expected only
    /// while the machine is being cleaned after just that job.
    pub fn clean_after(
        &mut self,
        machine: MachineNo,
        job: JobNo,
        at: Moment,
    ) -> Result<Ack, ReportFault>
        ensures { AnswersClaim self.old (Claim.CleanAfter machine job at) result self.new }
    {
        self.claim(Claim::CleanAfter { machine, job, at })
    }

    /// Takes the claim that the operation of this step of the job has ended, as [`Core::claim`] does. It is expected
    /// only while the job is at work on just that step.
    pub fn finish_step(&mut self, job: JobNo, step: u32, at: Moment) -> Result<Ack, ReportFault>
        ensures { AnswersClaim self.old (Claim.FinishStep job step at) result self.new }
    {
        self.claim(Claim::FinishStep { job, step, at })
    }

    /// Takes the claim that the machine has been cleaned after this step of the job, as [`Core::claim`] does. It is
    /// expected only while the machine is being cleaned after just that step.
    pub fn clean_after_step(
        &mut self,
        machine: MachineNo,
        job: JobNo,
        step: u32,
        at: Moment,
    ) -> Result<Ack, ReportFault>
        ensures { AnswersClaim self.old (Claim.CleanAfterStep machine job step at) result self.new }
    {
        self.claim(Claim::CleanAfterStep {
            machine,
            job,
            step,
            at,
        })
    }
}
