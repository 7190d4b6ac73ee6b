//! The texts of faults, the names of reasons, and the statuses at which faults end the program.

use cell_control::ReportFault;
use cell_drive::{DriveFault, ReadFault};
use cell_hub::HubFault;
use run_log::{AuditFault, LogFault, WriteFault};
use std::alloc::{AllocError, Global};
use std::fmt::Display;
use std::process::Abort;
use std::test::Fail;

/// Whether this is the text of the fault.
fn says(alloc: Global, fault: &impl Display, text: &str) -> Result<bool, AllocError> {
    Ok(fault.to_string(alloc)?.as_str() == text)
}

/// Each reason for which a report is refused, its text and its name.
const REASONS: &[(ReportFault, &str, &str)] = &[
    (ReportFault::JobOutOfRange, "JobOutOfRange", "JobOutOfRange"),
    (
        ReportFault::MachineOutOfRange,
        "MachineOutOfRange",
        "MachineOutOfRange",
    ),
    (
        ReportFault::MomentTooLarge,
        "MomentTooLarge",
        "MomentTooLarge",
    ),
    (ReportFault::NotExpected, "NotExpected", "NotExpected"),
    (ReportFault::WrongKind, "WrongKind", "WrongKind"),
    (
        ReportFault::Backwards { last: 12 },
        "Backwards last 12",
        "Backwards",
    ),
    (
        ReportFault::WrongMachine { actual: 34 },
        "WrongMachine actual 34",
        "WrongMachine",
    ),
];

const OF_HUBS: &[(HubFault, &str)] = &[
    (HubFault::NoSuchCell, "NoSuchCell"),
    (HubFault::SerialsSpent, "SerialsSpent"),
    (HubFault::Memory, "Memory"),
    (
        HubFault::Cell(ReportFault::WrongMachine { actual: 1 }),
        "Cell WrongMachine actual 1",
    ),
];

const OF_AUDITS: &[(AuditFault, &str)] = &[
    (AuditFault::BadLine { line: 2 }, "BadLine line 2"),
    (AuditFault::NotExpected { line: 1 }, "NotExpected line 1"),
    (AuditFault::Backwards { line: 2 }, "Backwards line 2"),
    (AuditFault::NotReady { line: 1 }, "NotReady line 1"),
    (AuditFault::Occupied { line: 7 }, "Occupied line 7"),
    (AuditFault::NotClean { line: 8 }, "NotClean line 8"),
    (AuditFault::OutOfOrder { line: 2 }, "OutOfOrder line 2"),
    (AuditFault::WrongPlace { line: 2 }, "WrongPlace line 2"),
    (AuditFault::Memory, "Memory"),
];

const OF_DRIVEN_CELLS: &[(DriveFault, &str, u8)] = &[
    (DriveFault::Read, "Read", 5),
    (DriveFault::Write, "Write", 5),
    (DriveFault::InputTooLong, "InputTooLong", 5),
    (DriveFault::Memory, "Memory", 4),
];

fn reasons_say_it(rt: &(impl Abort + AllocGlobal)) -> Result<(), AllocError> {
    for &(reason, text, name) in REASONS {
        assert!(rt;
            says(rt.alloc(), &reason, text)? && reason.name() == name,
            "{text}"
        );
    }
    Ok(())
}

fn hubs_say_it(rt: &(impl Abort + AllocGlobal)) -> Result<(), AllocError> {
    for &(fault, text) in OF_HUBS {
        assert!(rt; says(rt.alloc(), &fault, text)?, "{text}");
    }
    Ok(())
}

fn audits_say_it(rt: &(impl Abort + AllocGlobal)) -> Result<(), AllocError> {
    for &(fault, text) in OF_AUDITS {
        assert!(rt; says(rt.alloc(), &fault, text)?, "{text}");
    }
    Ok(())
}

fn driven_cells_say_it(rt: &(impl Abort + AllocGlobal)) -> Result<(), AllocError> {
    for &(fault, text, status) in OF_DRIVEN_CELLS {
        assert!(rt;
            says(rt.alloc(), &fault, text)? && fault.status() == status,
            "{text}"
        );
    }
    Ok(())
}

#[test]
fn each_fault_has_a_text(rt: HostRuntime) -> Result<(), Fail> {
    reasons_say_it(&rt)?;
    hubs_say_it(&rt)?;
    audits_say_it(&rt)?;
    driven_cells_say_it(&rt)?;
    let read = says(rt.alloc(), &ReadFault, "Read")?;
    let write = says(rt.alloc(), &WriteFault, "Write")?;
    let full = says(rt.alloc(), &LogFault::Full, "Full")?;
    assert!(rt; (read, write, full) == (true, true, true));
    Ok(())
}
