//! A log that is made in a folder in memory, of which each call fails in turn.

use super::memory_logs::MemoryLogs;
use super::two_jobs::DIGITS;
use run_journal::{new_log, open_log};
use std::alloc::Global;
use std::test::Fail;

/// Whether the log of this path is there, none on a fault.
fn is_there(alloc: Global, logs: &mut MemoryLogs, path: &str) -> Option<bool> {
    match open_log(alloc, logs, path).ok() {
        Some(log) => Some(log.is_some()),
        None => None,
    }
}

/// Whether a log that isn't there is made.
fn makes(alloc: Global, logs: &mut MemoryLogs) -> bool {
    is_there(alloc, logs, "run.log") == Some(false)
        && new_log(logs, "run.log", None, &DIGITS).is_ok()
}

#[test]
fn a_new_log_has_its_name_on_the_disk(rt: HostRuntime) -> Result<(), Fail> {
    let alloc = rt.alloc();
    for calls in 0..8 {
        let mut logs = MemoryLogs::new(alloc, b"run.log".to_vec(alloc)?, calls);
        let made = makes(alloc, &mut logs);
        let has_log = logs.has_log();
        drop(logs);
        // The log that is made counts its own calls from there on, an append and a sync; the name is synced by the
        // folder.
        assert!(rt; (made, has_log) == (calls >= 4, (calls >= 2, calls >= 3)));
    }
    Ok(())
}

#[test]
fn a_log_that_is_there_is_opened(rt: HostRuntime) -> Result<(), Fail> {
    let alloc = rt.alloc();
    let mut logs = MemoryLogs::new(alloc, b"run.log".to_vec(alloc)?, 9);
    let made = new_log(&mut logs, "run.log", None, &DIGITS).is_ok();
    let opened = is_there(alloc, &mut logs, "run.log");
    let other = is_there(alloc, &mut logs, "other.log");
    let again = new_log(&mut logs, "run.log", None, &DIGITS).is_ok();
    drop(logs);
    assert!(rt; (made, opened, other, again) == (true, Some(true), Some(false), false));
    Ok(())
}
