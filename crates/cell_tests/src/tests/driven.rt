//! A cell that is driven with a log in memory, of which each call fails in turn, or whose bytes are known.

use super::cells::{CROSSING, accepted, shaped};
use super::from_nothing::{driven_from_nothing, gone_on_from_nothing};
use super::memory_log::MemoryLog;
use super::two_jobs::{CROSSED, FIRST, LATER, PLAIN, REPORTS, driven, is_joined};
use byte_streams::{Buffered, DriveFault};
use cell_drive::DriveEnd;
use logged_drive::LoggedEnd;
use run_journal::LogText;
use std::alloc::Global;
use std::test::Fail;

/// The answer to a line that is none.
const REFUSED: &[u8] = b"refused 3 BadLine\n";

/// The closing line.
const DONE: &[u8] = b"done 9\n";

/// Whether the log failed, how many bytes of whole lines a crash leaves of it, and how many are shown.
fn left_of(
    alloc: Global,
    run: LoggedEnd<DriveEnd, Buffered<Vec<u8>>, MemoryLog>,
) -> Result<(bool, usize, usize), Fail> {
    let LoggedEnd {
        end,
        log_failed,
        log,
        output,
    } = run;
    let failed = matches!(end, Err(DriveFault::Write)) && log_failed;
    let left = log.after_crash(alloc, 5, 3);
    drop(log);
    let text = output.into_inner();
    let shown = text.len();
    drop(text);
    let left = LogText::new(left?);
    let count = left.lines().len();
    drop(left);
    Ok((failed, count, shown))
}

#[test]
fn nothing_is_shown_that_is_not_in_the_log(rt: HostRuntime) -> Result<(), Fail> {
    for calls in 0..2 {
        let run = driven(rt.alloc(), CROSSED, b"", calls, 1000)?;
        assert!(rt; left_of(rt.alloc(), run)? == (true, 0, 0));
    }
    Ok(())
}

/// Whether the log and the output are these texts, one after another.
fn have(both: (Vec<u8>, Vec<u8>), log: &[&[u8]], output: &[&[u8]]) -> bool {
    is_joined(&both.0, log) && is_joined(&both.1, output)
}

#[test]
fn a_new_log_has_what_is_shown(rt: HostRuntime) -> Result<(), Fail> {
    let verified = accepted(rt.alloc(), CROSSING)?;
    let both = driven_from_nothing(rt.alloc(), verified, PLAIN, REPORTS)?;
    assert!(rt; have(both, &[FIRST, LATER], &[FIRST, REFUSED, LATER, DONE]));
    Ok(())
}

#[test]
fn a_log_that_is_gone_on_with_has_what_is_shown(rt: HostRuntime) -> Result<(), Fail> {
    let shaped = shaped(rt.alloc(), CROSSING)?;
    let both = gone_on_from_nothing(rt.alloc(), shaped, PLAIN, REPORTS)?;
    assert!(rt;
        have(
            both,
            &[b"\n", FIRST, LATER],
            &[b"\n", FIRST, REFUSED, LATER, DONE]
        )
    );
    Ok(())
}
