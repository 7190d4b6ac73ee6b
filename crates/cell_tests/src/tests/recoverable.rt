//! Runs that are recovered from what a crash left of their logs.

use super::cells::shaped;
use super::memory_log::MemoryLog;
use super::two_jobs::{
    CROSSED, CROSSED_IN_V2, DIGITS, FIRST, LINE, RINSES, Shift, driven, is_joined,
};
use byte_streams::{Buffered, BufferedSink, FromRead};
use cell_drive::replay_in;
use logged_drive::{LoggedEnd, RecoveredLog, continue_logged, recover_log};
use run_journal::{LogFile, UnknownHistory, read_log};
use std::alloc::Global;
use std::test::Fail;

/// The log of the run, each answer of which is shown before the next report comes, behind the line of its plan. So many
/// calls of it don't fail.
fn broken_off(alloc: Global, shift: Shift, calls: usize) -> Result<MemoryLog, Fail> {
    let LoggedEnd { log, output, .. } = driven(alloc, shift, LINE, calls, 16)?;
    drop(output);
    Ok(log)
}

/// The log at the end of the run that is recovered from these bytes, to which all reports are sent once more.
fn recoverable(alloc: Global, shift: Shift, left: Vec<u8>) -> Result<Vec<u8>, Fail> {
    let mut output = Buffered::new(alloc, 16, Vec::new(alloc))?;
    let mut log = MemoryLog::new(left, 1000, 0);
    let text = read_log(alloc, &mut log)?;
    let shaped = shaped(alloc, shift.texts)?;
    let Ok(ready) = recover_log(alloc, shaped, &mut log, &text, None, &DIGITS) else {
        return Err("the run isn't recovered".into());
    };
    drop(text);
    let RecoveredLog { recovered, room } = ready;
    let run = replay_in(recovered, shift.protocol, &mut output)?;
    match output.flush() {
        Ok(()) => {}
        Err(fault) => {
            drop(run);
            drop(room);
            return Err(fault.into());
        }
    }
    let mut reader = FromRead::new(shift.reports);
    let LoggedEnd {
        mut log,
        output,
        ..
    } = continue_logged(
        run,
        room,
        shift.protocol,
        &mut reader,
        log,
        output,
        UnknownHistory,
    );
    drop(output);
    let whole = log.read(alloc, 1000);
    drop(log);
    Ok(whole?)
}

/// These lines without the empty ones.
fn without_empty_lines(alloc: Global, lines: &[u8]) -> Result<Vec<u8>, Fail> {
    let mut others = Vec::new(alloc);
    let mut last = b'\n';
    for byte in lines {
        if *byte != b'\n' || last != b'\n' {
            others.push(*byte)?;
        }
        last = *byte;
    }
    Ok(others)
}

/// Whether the run that is recovered from these bytes comes to the same events.
fn comes_to_its_end(alloc: Global, shift: Shift, left: Vec<u8>) -> Result<bool, Fail> {
    let whole = recoverable(alloc, shift, left)?;
    let others = without_empty_lines(alloc, &whole);
    drop(whole);
    Ok(is_joined(&others?, &[LINE, FIRST, shift.later]))
}

/// Whether it does whatever a crash leaves of its log.
fn goes_on(alloc: Global, shift: Shift, log: &MemoryLog) -> Result<bool, Fail> {
    let (least, most) = log.bounds();
    for count in least..most.saturating_add(1) {
        for unwritten in 0..2 {
            let left = log.after_crash(alloc, count, unwritten)?;
            if !comes_to_its_end(alloc, shift, left)? {
                return Ok(false);
            }
        }
    }
    Ok(true)
}

/// Whether a run with a log of which so many calls don't fail goes on after each crash.
fn survives(alloc: Global, shift: Shift, calls: usize) -> Result<bool, Fail> {
    let log = broken_off(alloc, shift, calls)?;
    let on = goes_on(alloc, shift, &log);
    drop(log);
    on
}

#[test]
fn a_run_goes_on_after_each_crash(rt: HostRuntime) -> Result<(), Fail> {
    for calls in 0..14 {
        assert!(rt; survives(rt.alloc(), CROSSED, calls)?);
    }
    Ok(())
}

#[test]
fn a_run_in_version_2_goes_on_after_a_crash(rt: HostRuntime) -> Result<(), Fail> {
    assert!(rt; survives(rt.alloc(), CROSSED_IN_V2, 5)?);
    Ok(())
}

/// The log ends with the end of the bath, and then with the cleaning or the order by which the rack comes to the tank
/// again. All that was sent comes once more then, with the copies.
#[test]
fn a_run_that_comes_to_a_machine_again_goes_on_after_each_crash(
    rt: HostRuntime,
) -> Result<(), Fail> {
    for calls in 8..14 {
        assert!(rt; survives(rt.alloc(), RINSES, calls)?);
    }
    Ok(())
}
