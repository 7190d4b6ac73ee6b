//! The status at which each fault of a command ends the program, and what faults say.

use super::shelf::{LATE, TWO};
use cell_drive::ResumeFault;
use cell_tables::PresentFault;
use command_answers::{CommandFault, Loaded, load};
use command_words::WordsFault;
use orlib_read::OrFault;
use people_names::NamesFault;
use plan_seek::SeekFault;
use plan_text::PlanFault;
use plan_verifier::{Verdict, Why};
use run_log::{AuditFault, RunFault};
use shop_base::{ShapeFault, Shaped, ShopFault};
use std::alloc::{AllocError, Global};
use std::fmt::Display;
use std::test::Fail;

/// Whether this is the text of the fault.
fn says(alloc: Global, fault: &impl Display, text: &str) -> Result<bool, AllocError> {
    Ok(fault.to_string(alloc)?.as_str() == text)
}

/// Whether this is the text of the fault, and its status.
fn has(alloc: Global, fault: CommandFault, text: &str, status: u8) -> Result<bool, AllocError> {
    let is = says(alloc, &fault, text);
    let ends = fault.status() == status;
    drop(fault);
    Ok(is? && ends)
}

/// Whether each of these faults of a text has its text and its status.
fn of_texts(alloc: Global) -> Result<[bool; 5], AllocError> {
    let sizes = CommandFault::Instance(OrFault::BadSizes { line: 5 });
    let sizes = has(alloc, sizes, "Instance BadSizes line 5", 3)?;
    let jobs = CommandFault::Instance(OrFault::Shop(ShopFault::NoJobs));
    let jobs = has(alloc, jobs, "Instance Shop NoJobs", 3)?;
    let key = CommandFault::Plan(PlanFault::UnknownKey);
    let key = has(alloc, key, "Plan UnknownKey", 3)?;
    let back = CommandFault::Plan(PlanFault::NotReadBack);
    let back = has(alloc, back, "Plan NotReadBack", 3)?;
    let clock = CommandFault::Names(NamesFault::BadClock);
    let clock = has(alloc, clock, "Names BadClock", 3)?;
    Ok([sizes, jobs, key, back, clock])
}

/// The same of the other faults.
fn of_devices(alloc: Global) -> Result<[bool; 6], AllocError> {
    let memory = has(alloc, CommandFault::Memory, "Memory", 4)?;
    let read = has(alloc, CommandFault::Read, "Read", 5)?;
    let write = has(alloc, CommandFault::Write, "Write", 5)?;
    let input = has(alloc, CommandFault::InputTooLong, "InputTooLong", 5)?;
    let log = has(alloc, CommandFault::Log, "Log", 5)?;
    let in_use = has(alloc, CommandFault::LogInUse, "LogInUse", 5)?;
    Ok([memory, read, write, input, log, in_use])
}

/// Whether each of these faults, which end the program by the status of another one, has its text.
fn are_written(alloc: Global) -> Result<[bool; 5], AllocError> {
    let log = ResumeFault::Run(RunFault::Log(AuditFault::NotReady { line: 4567 }));
    let log = says(alloc, &log, "Log NotReady line 4567")?;
    let past = ResumeFault::Run(RunFault::Present(PresentFault::Past { last: 45 }));
    let past = says(alloc, &past, "Past 45")?;
    let of_resume = says(alloc, &ResumeFault::Memory, "Memory")?;
    let of_words = says(alloc, &WordsFault::Memory, "Memory")?;
    let of_seek = says(alloc, &SeekFault::Memory, "Memory")?;
    Ok([log, past, of_resume, of_words, of_seek])
}

#[test]
fn faults_have_a_text_and_a_status(rt: HostRuntime) -> Result<(), Fail> {
    assert!(rt; of_texts(rt.alloc())? == [true; 5]);
    assert!(rt; of_devices(rt.alloc())? == [true; 6]);
    assert!(rt; are_written(rt.alloc())? == [true; 5]);
    Ok(())
}

/// The faults of a plan's shape, and their texts.
const SHAPES: &[(ShapeFault, &str)] = &[
    (ShapeFault::ReleaseCount, "ReleaseCount"),
    (ShapeFault::BudgetCount, "BudgetCount"),
    (ShapeFault::OrderCount, "OrderCount"),
    (ShapeFault::CleanCount, "CleanCount"),
    (
        ShapeFault::ReleaseTooLarge { job: 7 },
        "ReleaseTooLarge job 7",
    ),
    (
        ShapeFault::BudgetTooLarge { job: 7 },
        "BudgetTooLarge job 7",
    ),
    (
        ShapeFault::CleanTooLarge { machine: 8 },
        "CleanTooLarge machine 8",
    ),
    (
        ShapeFault::JobOutOfRange {
            machine: 8,
            place: 9,
        },
        "JobOutOfRange machine 8 place 9",
    ),
    (
        ShapeFault::NotOnRoute {
            machine: 8,
            place: 9,
        },
        "NotOnRoute machine 8 place 9",
    ),
    (
        ShapeFault::JobTwice {
            machine: 8,
            place: 9,
        },
        "JobTwice machine 8 place 9",
    ),
    (
        ShapeFault::JobMissing { machine: 8, job: 7 },
        "JobMissing machine 8 job 7",
    ),
];

#[test]
fn faults_of_a_shape_have_a_text(rt: HostRuntime) -> Result<(), Fail> {
    for &(fault, text) in SHAPES {
        assert!(rt; says(rt.alloc(), &fault, text)?, "{text}");
    }
    Ok(())
}

/// Whether the text of the fault leaves out the refused plan and the reason against it.
fn leaves_out(alloc: Global, shaped: Shaped, why: Why) -> Result<bool, AllocError> {
    says(alloc, &ResumeFault::Refused(shaped, why), "Refused")
}

/// The plan of a verdict that refuses it, and why.
fn refused(loaded: Loaded) -> Result<(Shaped, Why), Loaded> {
    match loaded {
        Loaded::Judged(Verdict::Refused(shaped, why)) => Ok((shaped, why)),
        other => Err(other),
    }
}

#[test]
fn a_fault_leaves_a_refused_plan_out_of_its_text(rt: HostRuntime) -> Result<(), Fail> {
    let (shaped, why) = refused(load(rt.alloc(), TWO, None, LATE)?)?;
    assert!(rt; leaves_out(rt.alloc(), shaped, why)?);
    Ok(())
}
