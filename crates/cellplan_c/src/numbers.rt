//! Reports, reasons, orders and phases as numbers.

ghost use Rattle.std.specs.Prelude.{◌≡◌, MatchOption};
ghost use Rattle.cellplan_c.specs.Numbers.{report_by, step_report_by, fault_number, NoReason, fault_detail};
ghost use Rattle.cellplan_c.specs.Numbers.{order_numbers, spot_number, phase_numbers};

use cell_control::{Claim, MoveOrder, Phase as Whereabouts, Report, ReportFault, Spot};

/// The number in place of a machine that stands for outside the cell.
pub const OUT: u32 = u32::MAX;

/// A move to be made: the job, the machine that it leaves and the one that it enters, and the moment.
#[repr(C)]
#[derive(Clone, Copy)]
pub struct Order {
    pub job: u32,
    pub source: u32,
    pub target: u32,
    pub at: u64,
}

/// Where a job is: 0 outside, 1 on the machine, or 2 gone at the moment; ready where its activity has ended.
#[repr(C)]
#[derive(Clone, Copy)]
pub struct Phase {
    pub place: u32,
    pub machine: u32,
    pub ready: bool,
    pub at: u64,
}

/// What is claimed to have ended by this kind, if it is one: an arrival, an operation, a cleaning, or a cleaning after a
/// job.
pub fn report_by(kind: u32, job: u32, machine: u32, at: u64) -> Option<Claim>
    ensures { result ≡ report_by kind job machine at }
{
    match kind {
        0 => Some(Claim::Report(Report::Arrive { job, at })),
        1 => Some(Claim::Report(Report::Finish { job, machine, at })),
        2 => Some(Claim::Report(Report::Clean { machine, at })),
        3 => Some(Claim::CleanAfter { machine, job, at }),
        _ => None,
    }
}

/// What is claimed to have ended by this kind, if it is one that names a step: an operation, or a cleaning after one.
pub fn step_report_by(kind: u32, job: u32, step: u32, machine: u32, at: u64) -> Option<Claim>
    ensures { result ≡ step_report_by kind job step machine at }
{
    match kind {
        1 => Some(Claim::FinishStep { job, step, at }),
        3 => Some(Claim::CleanAfterStep {
            machine,
            job,
            step,
            at,
        }),
        _ => None,
    }
}

/// The number of a reason.
pub fn fault_number(fault: ReportFault) -> u32
    ensures { result ≡ fault_number fault }
{
    match fault {
        ReportFault::JobOutOfRange => 16,
        ReportFault::MachineOutOfRange => 17,
        ReportFault::MomentTooLarge => 18,
        ReportFault::Backwards { last: _ } => 19,
        ReportFault::NotExpected => 20,
        ReportFault::WrongKind => 21,
        ReportFault::WrongMachine { actual: _ } => 22,
        ReportFault::StepOutOfRange => 23,
    }
}

/// A reason with this number, if there is one. What it names is 0.
pub fn reason_by(number: u32) -> Option<ReportFault>
    ensures { MatchOption result (NoReason number) (λ fault. fault_number fault ≡ number) }
{
    match number {
        16 => Some(ReportFault::JobOutOfRange),
        17 => Some(ReportFault::MachineOutOfRange),
        18 => Some(ReportFault::MomentTooLarge),
        19 => Some(ReportFault::Backwards { last: 0 }),
        20 => Some(ReportFault::NotExpected),
        21 => Some(ReportFault::WrongKind),
        22 => Some(ReportFault::WrongMachine { actual: 0 }),
        23 => Some(ReportFault::StepOutOfRange),
        _ => None,
    }
}

/// The moment or the machine that a reason names, 0 if it names none.
pub fn fault_detail(fault: ReportFault) -> u64
    ensures { result ≡ fault_detail fault }
{
    match fault {
        ReportFault::Backwards { last } => last,
        ReportFault::WrongMachine { actual } => u64::from(actual),
        _ => 0,
    }
}

fn spot_number(spot: Spot) -> u32
    ensures { result ≡ spot_number spot }
{
    match spot {
        Spot::Out => OUT,
        Spot::At(machine) => machine,
    }
}

/// The order as its numbers.
pub fn order_numbers(order: MoveOrder) -> Order
    ensures { result ≡ order_numbers order }
{
    Order {
        job: order.job,
        source: spot_number(order.source),
        target: spot_number(order.target),
        at: order.at,
    }
}

/// Where a job is as its numbers.
pub fn phase_numbers(phase: Whereabouts) -> Phase
    ensures { result ≡ phase_numbers phase }
{
    match phase {
        Whereabouts::Outside { ready } => Phase {
            place: 0,
            machine: 0,
            ready,
            at: 0,
        },
        Whereabouts::OnMachine { machine, ready } => Phase {
            place: 1,
            machine,
            ready,
            at: 0,
        },
        Whereabouts::Gone { at } => Phase {
            place: 2,
            machine: 0,
            ready: false,
            at,
        },
    }
}
