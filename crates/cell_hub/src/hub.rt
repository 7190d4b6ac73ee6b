ghost use Rattle.std.specs.Prelude.{◌≡◌, ◌↔◌, None, option_copied, Ok, IfOk, IfErr, IfSome, IsOk, OnErr};
ghost use Rattle.shop_base.specs.Report.{CanReport};
ghost use Rattle.cell_hub.specs.Hub.{hub_from, cell_at, AreSerialsBelow};
ghost use Rattle.cell_hub.specs.Calls.{IsAdmitted, IsPossibleAt, IsSeated, IsNotAdmitted, IsReported, IsNotClaimed, IsOnlyRefusal};
ghost use Rattle.cell_hub.specs.Calls.{AnswersOnTicket, EndsNow, IsDismissed, IsCall, Admitted, Reported, Shown, Dismissed};

use crate::hub_fault::HubFault;
use crate::slots::{Placed, Ticket, accept_in, cell_in, report_in, reserve_slot, take_from};
use cell_control::{
    Ack, Claim, Controller, Core, Dues, LeanController, LeanPlan, Possible, Report, Timed,
};
use plan_verifier::Verified;
use shop_base::{JobNo, MachineNo, Moment};
use slab::Slab;
use std::alloc::Global;
use std::marker::Model;

/// Runs many cells, each by an accepted plan and under a ticket of its own.
pub type Hub<D> = HubOf<Verified, D>;

/// A [`Hub`] of controllers of such plans.
///
/// The cells are in slots, which are used again after a dismissal. A ticket's serial distinguishes its cell from the
/// others that were or will be in its slot. Only [`HubOf::admit`] takes memory; the other calls take as long with a
/// thousand cells as with one. A contract sees the hub as a finite map from tickets to what their controllers hold, and
/// the serial of the next ticket: neither slots, nor which of them are vacant.
#[derive(Drop)]
pub struct HubOf<P: Timed, D: Dues> {
    alloc: Global,
    cells: Slab<Placed<P, D>>,
    next_serial: u64,
}

impl<P: Timed, D: Dues> Model for HubOf<P, D> {
    ghost use Rattle.cell_hub.specs.Hub.{HubState, AreSerialsBelow};

    ghost Value = { HubState };

    ghost use Rattle.cell_hub.specs.Slots.{hub_of};

    ghost view = { λ h. hub_of h.cells h.next_serial };

    ghost invariant = { λ h. AreSerialsBelow (hub_of h.cells h.next_serial) };
}

impl<P: Timed, D: Dues> HubOf<P, D> {
    /// A hub without cells. Its serials begin at 0.
    pub fn new(alloc: Global) -> HubOf<P, D>
        ensures { result ≡ hub_from 0 }
    {
        HubOf::with_serial(alloc, 0)
    }

    /// A hub without cells, whose serials begin at `first`. `u64::MAX` is never a serial.
    pub fn with_serial(alloc: Global, first: u64) -> HubOf<P, D>
        ensures { result ≡ hub_from first }
    {
        HubOf {
            alloc,
            cells: Slab::new(alloc),
            next_serial: first,
        }
    }

    /// Takes a controller in, and gives its ticket. On an error the controller comes back.
    fn seat(&mut self, controller: Core<P, D>) -> Result<Ticket, (HubFault, Core<P, D>)>
        ensures seated { IfOk result (λ ticket. IsSeated self.old controller ticket self.new) }
        ensures refused { IfErr result (λ refused. IsNotAdmitted self.old refused.0) }
        ensures handed_back { IfErr result (λ refused. refused.1 ≡ controller) }
        ensures unchanged { OnErr result (self.new ≡ self.old) }
    {
        let serial = self.next_serial;
        if serial == u64::MAX {
            return Err((HubFault::SerialsSpent, controller));
        }
        if let Err(error) = reserve_slot(&mut self.cells) {
            return Err((HubFault::from(error), controller));
        }
        let slot = self.cells.insert_reserved(Placed { serial, controller });
        self.next_serial = serial + 1;
        Ok(Ticket { slot, serial })
    }

    /// Takes a report on the ticket's cell, which answers it as a controller alone does: it is accepted exactly if it
    /// is possible in that cell.
    pub fn report(&mut self, ticket: Ticket, report: Report) -> Result<Ack, HubFault>
        ensures reported { IfOk result (λ ack. IsReported self.old ticket report ack self.new) }
        ensures possible { IfSome (cell_at self.old ticket) (λ c. IsOk result ↔ CanReport c.planned c.cell report) }
        ensures never_refused { IfSome (cell_at self.old ticket) (λ c. EndsNow c report → IsOk result) }
        ensures refused { IfErr result (IsNotClaimed self.old ticket (Claim.Report report)) }
        ensures only_reason { IfErr result (IsOnlyRefusal self.old ticket (Claim.Report report)) }
        ensures unchanged { OnErr result (self.new ≡ self.old) }
        ensures no_such_cell { (result ≡ Err HubFault.NoSuchCell) ↔ (cell_at self.old ticket ≡ None) }
        ensures called { IsCall self.old (Reported ticket report result) self.new }
    {
        report_in(&mut self.cells, ticket, report)
    }

    /// Accepts a report that was found possible in the ticket's cell, as [`HubOf::report`] does.
    pub fn accept(&mut self, ticket: Ticket, possible: Possible) -> Ack
        requires { IsPossibleAt self.old ticket possible }
        ensures reported { IsReported self.old ticket possible.report result self.new }
        ensures called { IsCall self.old (Reported ticket possible.report (Ok result)) self.new }
    {
        accept_in(&mut self.cells, ticket, possible)
    }

    /// Takes what is claimed to have ended in the ticket's cell, which answers it as a controller alone does: it is
    /// accepted, as its report, exactly if it is possible in that cell.
    pub fn claim(&mut self, ticket: Ticket, claim: Claim) -> Result<Ack, HubFault>
        ensures { AnswersOnTicket self.old ticket claim result self.new }
    {
        let Some(cell) = self.cell(ticket) else {
            return Err(HubFault::NoSuchCell);
        };
        // Called for its clause alone: what holds of every controller.
        let _plan = cell.shaped();
        match cell.examine_claim(claim) {
            Ok(possible) => Ok(self.accept(ticket, possible)),
            Err(reason) => Err(HubFault::Cell(reason)),
        }
    }

    /// Takes the claim that the machine has been cleaned after this job, as [`HubOf::claim`] does.
    pub fn clean_after(
        &mut self,
        ticket: Ticket,
        machine: MachineNo,
        job: JobNo,
        at: Moment,
    ) -> Result<Ack, HubFault>
        ensures { AnswersOnTicket self.old ticket (Claim.CleanAfter machine job at) result self.new }
    {
        self.claim(ticket, Claim::CleanAfter { machine, job, at })
    }

    /// Takes the claim that the operation of this step of the job has ended, as [`HubOf::claim`] does.
    pub fn finish_step(
        &mut self,
        ticket: Ticket,
        job: JobNo,
        step: u32,
        at: Moment,
    ) -> Result<Ack, HubFault>
        ensures { AnswersOnTicket self.old ticket (Claim.FinishStep job step at) result self.new }
    {
        self.claim(ticket, Claim::FinishStep { job, step, at })
    }

    /// Takes the claim that the machine has been cleaned after this step of the job, as [`HubOf::claim`] does.
    pub fn clean_after_step(
        &mut self,
        ticket: Ticket,
        machine: MachineNo,
        job: JobNo,
        step: u32,
        at: Moment,
    ) -> Result<Ack, HubFault>
        ensures { AnswersOnTicket self.old ticket (Claim.CleanAfterStep machine job step at) result self.new }
    {
        self.claim(
            ticket,
            Claim::CleanAfterStep {
                machine,
                job,
                step,
                at,
            },
        )
    }

    /// The ticket's cell, if it has one.
    pub fn cell(&self, ticket: Ticket) -> Option<&Core<P, D>>
        ensures cell { option_copied result ≡ cell_at self.now ticket }
        ensures called { IsCall self.now (Shown ticket (option_copied result)) self.now }
        ensures serials { AreSerialsBelow self.now }
    {
        cell_in(&self.cells, ticket)
    }

    /// Takes the ticket's cell out of the hub. The ticket never answers again.
    pub fn dismiss(&mut self, ticket: Ticket) -> Result<Core<P, D>, HubFault>
        ensures dismissed { IfOk result (λ content. IsDismissed self.old ticket content self.new) }
        ensures no_such_cell { (result ≡ Err HubFault.NoSuchCell) ↔ (cell_at self.old ticket ≡ None) }
        ensures refused { IfErr result (λ fault. fault ≡ HubFault.NoSuchCell) }
        ensures unchanged { OnErr result (self.new ≡ self.old) }
        ensures called { IsCall self.old (Dismissed ticket result) self.new }
    {
        take_from(&mut self.cells, ticket)
    }
}

impl<D: Dues> HubOf<Verified, D> {
    /// Makes a cell that is run by the plan, and gives its ticket. On an error the plan comes back and nothing
    /// changes, so a serial that wasn't given is the next one's. It is `SerialsSpent` exactly where no serial is left,
    /// else `Memory`, of a request for memory that was refused; when one is, no clause says.
    pub fn admit(&mut self, verified: Verified) -> Result<Ticket, (HubFault, Verified)>
        ensures admitted { IfOk result (λ ticket. IsAdmitted self.old verified ticket self.new) }
        ensures refused { IfErr result (λ refused. IsNotAdmitted self.old refused.0) }
        ensures handed_back { IfErr result (λ refused. refused.1 ≡ verified) }
        ensures unchanged { OnErr result (self.new ≡ self.old) }
        ensures called { IsCall self.old (Admitted verified result) self.new }
    {
        if self.next_serial == u64::MAX {
            return Err((HubFault::SerialsSpent, verified));
        }
        match Controller::new(self.alloc, verified) {
            Ok(controller) => match self.seat(controller) {
                Ok(ticket) => Ok(ticket),
                Err((fault, controller)) => Err((fault, controller.into_verified())),
            },
            Err((error, verified)) => Err((HubFault::from(error), verified)),
        }
    }
}

impl<D: Dues> HubOf<LeanPlan, D> {
    /// Makes a cell that is run by the plan, and gives its ticket, as [`HubOf::admit`] does. On an error the plan is
    /// gone.
    pub fn admit_lean(&mut self, plan: LeanPlan) -> Result<Ticket, HubFault>
        ensures admitted { IfOk result (λ ticket. IsAdmitted self.old plan ticket self.new) }
        ensures refused { IfErr result (IsNotAdmitted self.old) }
        ensures unchanged { OnErr result (self.new ≡ self.old) }
    {
        if self.next_serial == u64::MAX {
            drop(plan);
            return Err(HubFault::SerialsSpent);
        }
        match LeanController::start(self.alloc, plan) {
            Ok(controller) => match self.seat(controller) {
                Ok(ticket) => Ok(ticket),
                Err((fault, controller)) => {
                    drop(controller);
                    Err(fault)
                }
            },
            Err((error, plan)) => {
                drop(plan);
                Err(HubFault::from(error))
            }
        }
    }
}
