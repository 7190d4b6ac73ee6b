//! A cell that is only simulated, without orders: where the jobs are, and who can move.
//!
//! Sums saturate: an entered step is one of at most 100, and no moment comes near the bound within 100,000
//! choices of at most 1,000,000 time units each.

use shop_base::{JobNo, MachineNo, Moment, Shop, Step};
use std::alloc::{AllocError, Global};

/// A job in the simulated cell.
#[derive(Clone, Copy)]
pub(crate) struct Part {
    /// How many steps of its route it has entered.
    entered: usize,
    /// The machine that it is on, none outside the cell.
    machine: Option<MachineNo>,
    /// The moment at which its operation there ends, 0 before its first one.
    ends: Moment,
    /// It has left the cell.
    gone: bool,
}

/// Where each job is, and which job each machine holds.
#[derive(Drop)]
pub(crate) struct SimulatedCell {
    parts: Vec<Part>,
    holders: Vec<Option<JobNo>>,
}

impl SimulatedCell {
    /// The cell at the start, with all jobs outside.
    pub fn new(alloc: Global, shop: &Shop) -> Result<SimulatedCell, AllocError> {
        let mut parts = Vec::new(alloc);
        for _ in 0..shop.jobs() {
            parts.push(Part {
                entered: 0,
                machine: None,
                ends: 0,
                gone: false,
            })?;
        }
        let mut holders = Vec::new(alloc);
        for _ in 0..shop.machines() {
            holders.push(None)?;
        }
        Ok(SimulatedCell { parts, holders })
    }

    /// The same cell, to look ahead in.
    pub fn copy(&self, alloc: Global) -> Result<SimulatedCell, AllocError> {
        Ok(SimulatedCell {
            parts: self.parts.as_slice().to_vec(alloc)?,
            holders: self.holders.as_slice().to_vec(alloc)?,
        })
    }

    /// Whether all jobs have left.
    pub fn is_done(&self) -> bool {
        self.parts.iter().all(|part| part.gone)
    }

    /// How many jobs are in the cell.
    pub fn inside(&self) -> usize {
        self.holders
            .iter()
            .filter(|holder| holder.is_some())
            .count()
    }

    /// Whether the job is on a machine.
    pub fn is_inside(&self, job: JobNo) -> bool {
        match self.parts.get(job as usize) {
            Some(part) => part.machine.is_some(),
            None => false,
        }
    }

    /// Whether the job is in no operation at this moment, and not gone.
    pub fn is_ready(&self, job: JobNo, now: Moment) -> bool {
        match self.parts.get(job as usize) {
            Some(part) => !part.gone && part.ends <= now,
            None => false,
        }
    }

    /// The first moment after this one at which an operation ends, if there is one.
    pub fn next_end(&self, now: Moment) -> Option<Moment> {
        let mut next = None;
        for part in &self.parts {
            if part.machine.is_some() && part.ends > now {
                next = Some(sooner(next, part.ends));
            }
        }
        next
    }

    /// The step that the job enters next; `None` if it leaves the cell or is gone.
    pub fn next_step(&self, shop: &Shop, job: JobNo) -> Option<Step> {
        let part = self.parts.get(job as usize)?;
        shop.route(job)?.get(part.entered).copied()
    }

    /// Whether the machine holds no job.
    fn is_free(&self, machine: MachineNo) -> bool {
        match self.holders.get(machine as usize) {
            Some(holder) => holder.is_none(),
            None => false,
        }
    }

    /// Whether the way of a job that isn't gone is free.
    pub fn can_move(&self, shop: &Shop, job: JobNo) -> bool {
        match self.next_step(shop, job) {
            Some(step) => self.is_free(step.machine),
            None => true,
        }
    }

    /// Moves the job on to its next machine, or out of the cell.
    pub fn advance(&mut self, shop: &Shop, job: JobNo, now: Moment) {
        let Some(part) = self.parts.get(job as usize).copied() else {
            return;
        };
        if let Some(machine) = part.machine {
            self.set_holder(machine, None);
        }
        let moved = match self.next_step(shop, job) {
            Some(step) => {
                self.set_holder(step.machine, Some(job));
                Part {
                    entered: part.entered.saturating_add(1),
                    machine: Some(step.machine),
                    ends: now.saturating_add(step.nominal),
                    gone: false,
                }
            }
            None => Part {
                machine: None,
                gone: true,
                ..part
            },
        };
        if let Some(place) = self.parts.get_mut(job as usize) {
            *place = moved;
        }
    }

    fn set_holder(&mut self, machine: MachineNo, job: Option<JobNo>) {
        if let Some(holder) = self.holders.get_mut(machine as usize) {
            *holder = job;
        }
    }

    /// Whether the job, once it has moved on, would be in a cycle of jobs that each wait for the machine of
    /// the next one.
    pub fn closes_cycle(&self, shop: &Shop, job: JobNo) -> bool {
        let Some(target) = self.next_step(shop, job) else {
            return false;
        };
        let mut waiting = self.step_after(shop, job);
        for _ in 0..self.holders.len() {
            let Some(step) = waiting else {
                return false;
            };
            if step.machine == target.machine {
                return true;
            }
            match self.holder_but(step.machine, job) {
                Some(holder) => waiting = self.next_step(shop, holder),
                None => return false,
            }
        }
        false
    }

    /// The step after the one that the job enters next.
    fn step_after(&self, shop: &Shop, job: JobNo) -> Option<Step> {
        let part = self.parts.get(job as usize)?;
        shop.route(job)?
            .get(part.entered.saturating_add(1))
            .copied()
    }

    /// The job that the machine holds, unless it is this one.
    fn holder_but(&self, machine: MachineNo, job: JobNo) -> Option<JobNo> {
        match self.holders.get(machine as usize) {
            Some(Some(holder)) if *holder != job => Some(*holder),
            _ => None,
        }
    }
}

/// The sooner of two moments, or the second if there is no first.
fn sooner(one: Option<Moment>, other: Moment) -> Moment {
    match one {
        Some(moment) if moment < other => moment,
        _ => other,
    }
}
