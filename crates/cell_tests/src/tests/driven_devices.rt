//! Inputs that are driven over devices that give pieces and fail. Whole runs stand in `tests/commands/runs`.

use super::devices::{GOOD, Limits, driven_over};
use super::driven_inputs::{DRIVEN, Driven};
use cell_drive::DriveFault;
use std::process::Abort;
use std::test::Fail;

#[test]
fn the_answers_do_not_depend_on_the_pieces(rt: HostRuntime) -> Result<(), Fail> {
    for driven in DRIVEN {
        for piece in [1, 2, 3, 7, 74, 185] {
            let outcome = driven_over(rt.alloc(), driven, Limits { piece, ..GOOD })?;
            assert!(rt;
                outcome.is(Ok(driven.end), driven.text.len()),
                "pieces of {piece}"
            );
        }
    }
    Ok(())
}

/// A failed write leaves the first bytes of the answers.
fn failed_writes_leave_the_first_bytes(
    rt: &(impl Abort + AllocGlobal),
    driven: &Driven,
    limits: Limits,
) -> Result<(), Fail> {
    for writes in 0..driven.text.len() {
        let outcome = driven_over(rt.alloc(), driven, Limits { writes, ..limits })?;
        assert!(rt;
            outcome.is(Err(DriveFault::Write), writes),
            "after {writes} writes"
        );
    }
    Ok(())
}

#[test]
fn a_failed_write_leaves_the_first_bytes(rt: HostRuntime) -> Result<(), Fail> {
    for driven in DRIVEN {
        for &(piece, buffered, takes_nothing) in driven.writers {
            let limits = Limits {
                piece,
                buffered,
                takes_nothing,
                ..GOOD
            };
            failed_writes_leave_the_first_bytes(&rt, driven, limits)?;
        }
    }
    Ok(())
}

/// How many bytes are out once so many were read.
fn answered_within(driven: &Driven, read: usize) -> usize {
    let mut out = 0;
    for &(complete, written) in driven.answered {
        if complete <= read {
            out = written;
        }
    }
    out
}

/// The reader gives a byte a call.
const BYTES: Limits = Limits { piece: 1, ..GOOD };

/// Before the read that fails the answers of the lines that are complete were out, and nothing more comes.
#[test]
fn a_failed_read_leaves_the_answers_of_the_complete_lines(rt: HostRuntime) -> Result<(), Fail> {
    for driven in DRIVEN {
        for reads in 0..driven.input.len() + 1 {
            let outcome = driven_over(rt.alloc(), driven, Limits { reads, ..BYTES })?;
            let out = answered_within(driven, reads);
            let found = (
                outcome.is(Err(DriveFault::Read), out),
                outcome.before_last_read,
            );
            assert!(rt; found == (true, out), "{found:?} after {reads} reads");
        }
    }
    Ok(())
}

/// What was answered is out where a flush fails, of which there is one before each read of a byte, and one at the end;
/// and nothing is read behind it.
fn failed_flushes_leave_what_was_answered(
    rt: &(impl Abort + AllocGlobal),
    driven: &Driven,
    limits: Limits,
) -> Result<(), Fail> {
    let all_reads = driven.input.len() + 1;
    for shows in 0..all_reads + 1 {
        let outcome = driven_over(rt.alloc(), driven, Limits { shows, ..limits })?;
        let out = if shows < all_reads {
            answered_within(driven, shows)
        } else {
            driven.text.len()
        };
        let found = (outcome.is(Err(DriveFault::Write), out), outcome.reads);
        assert!(rt; found == (true, shows), "{found:?} after {shows} flushes");
    }
    Ok(())
}

#[test]
fn a_failed_flush_leaves_what_was_answered(rt: HostRuntime) -> Result<(), Fail> {
    for driven in DRIVEN {
        for buffered in [0, 3, 1000] {
            failed_flushes_leave_what_was_answered(&rt, driven, Limits { buffered, ..BYTES })?;
        }
    }
    Ok(())
}
