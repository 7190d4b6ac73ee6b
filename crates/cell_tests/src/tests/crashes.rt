//! Runs over a file that fails at each of its calls, and what each crash leaves of it.

use super::memory_log::MemoryLog;
use byte_streams::{Buffered, BufferedSink, WriteFault, put_all};
use run_journal::{
    FileFault, LogFile, LogText, Logged, UnknownHistory, WritingRoom, cut_end, read_log,
};
use std::alloc::Global;
use std::test::Fail;

/// What a log held as a crash left it.
const HELD: &[&[u8]] = &[
    b"",
    b"report 0 arrive 0\n",
    b"report 0 arrive 0\norder 0 0 ou",
    b"report 0 arrive 0\nord\0\0\0",
];

/// What is answered, each part shown before the next one comes, and how many bytes of it a log gets.
const PARTS: &[(&[u8], usize)] = &[
    (b"\n", 1),
    (b"report 1 arrive 1\nlate 1\norder 1 1 out 0\n", 41),
    (b"refused 2 BadLine\n", 0),
    (b"refused 3 Backwards\nreport 2 finish 1 0\n", 20),
    (b"done 2\n", 0),
];

/// All of these that a log gets.
const EVENTS: &[u8] = b"\nreport 1 arrive 1\nlate 1\norder 1 1 out 0\nreport 2 finish 1 0\n";

/// How many bytes an append that fails appends.
const TORN: &[usize] = &[0, 5, 100];

/// A log as a run leaves it that some call has ended, and how many bytes of it were shown at least.
fn run(alloc: Global, held: &[u8], calls: usize, torn: usize) -> Result<(MemoryLog, usize), Fail> {
    let mut log = MemoryLog::new(held.to_vec(alloc)?, calls, torn);
    let Ok(text) = read_log(alloc, &mut log) else {
        return Ok((log, 0));
    };
    let cut = cut_end(&mut log, &text);
    drop(text);
    if cut.is_err() {
        return Ok((log, 0));
    }
    let output = Buffered::new(alloc, 16, Vec::new(alloc))?;
    let mut logged = Logged::new(WritingRoom::new(alloc)?, log, output, UnknownHistory);
    let mut shown = 0_usize;
    for (bytes, events) in PARTS {
        if put_all(&mut logged, bytes).is_ok() && logged.flush().is_ok() {
            shown = shown.saturating_add(*events);
        }
    }
    let (log, _) = logged.into_parts();
    Ok((log, shown))
}

/// Whether the whole lines of what is left are those that were held, and then events, so many bytes at least.
fn is_kept(left: &[u8], held: &[u8], shown: usize) -> bool {
    match left.strip_prefix(held) {
        Some(events) => EVENTS.starts_with(events) && events.len() >= shown,
        None => false,
    }
}

/// Whether each crash keeps the lines that were held, and what was shown.
fn keeps_all(alloc: Global, log: &MemoryLog, held: &[u8], shown: usize) -> Result<bool, Fail> {
    let (least, most) = log.bounds();
    for count in least..most.saturating_add(1) {
        for unwritten in 0..3 {
            let left = LogText::new(log.after_crash(alloc, count, unwritten)?);
            let kept = is_kept(left.lines(), held, shown);
            drop(left);
            if !kept {
                return Ok(false);
            }
        }
    }
    Ok(true)
}

/// Whether it is so wherever a run ends, of a log that held these whole lines.
fn each_run_keeps(alloc: Global, held: &[u8], lines: &[u8]) -> Result<bool, Fail> {
    for calls in 0..14 {
        for torn in TORN {
            let (log, shown) = run(alloc, held, calls, *torn)?;
            let keeps = keeps_all(alloc, &log, lines, shown);
            drop(log);
            if !keeps? {
                return Ok(false);
            }
        }
    }
    Ok(true)
}

fn all_runs_keep(alloc: Global, held: &[u8]) -> Result<bool, Fail> {
    let text = LogText::new(held.to_vec(alloc)?);
    let keep = each_run_keeps(alloc, held, text.lines());
    drop(text);
    keep
}

#[test]
fn each_crash_keeps_what_was_shown(rt: HostRuntime) -> Result<(), Fail> {
    for held in HELD {
        assert!(rt; all_runs_keep(rt.alloc(), held)?);
    }
    Ok(())
}

/// Whether a read gives these bytes behind the first line.
fn is_read(bytes: Vec<u8>, events: &[u8]) -> bool {
    bytes.strip_prefix(b"order 0 0 out 0\n".as_slice()) == Some(events)
}

/// Whether a read of no more than so many bytes gives these ones behind the first line.
fn gives(
    alloc: Global,
    log: &mut MemoryLog,
    most: usize,
    events: &[u8],
) -> Result<bool, FileFault> {
    match log.read(alloc, most) {
        Ok(bytes) => Ok(is_read(bytes, events)),
        Err(fault) => Err(fault),
    }
}

/// Whether a read of no more than so many bytes is refused.
fn is_refused(alloc: Global, log: &mut MemoryLog, most: usize) -> bool {
    log.read(alloc, most).is_err()
}

/// Whether the log has just so many bytes, these ones behind the first line.
fn has(
    alloc: Global,
    log: &mut MemoryLog,
    length: usize,
    events: &[u8],
) -> Result<bool, FileFault> {
    let given = gives(alloc, log, length, events)?;
    Ok(given && is_refused(alloc, log, length.saturating_sub(1)))
}

#[test]
fn a_whole_run_is_in_the_log(rt: HostRuntime) -> Result<(), Fail> {
    let (mut log, shown) = run(rt.alloc(), b"order 0 0 out 0\nrepo", 14, 0)?;
    let found = has(rt.alloc(), &mut log, 78, EVENTS);
    drop(log);
    assert!(rt; shown == 62 && found?);
    Ok(())
}

type Answers = Logged<Buffered<Vec<u8>>, MemoryLog, UnknownHistory>;

/// Answers with an empty log, of which so many calls don't fail.
fn output_with_log(alloc: Global, calls: usize) -> Result<Answers, Fail> {
    let output = Buffered::new(alloc, 16, Vec::new(alloc))?;
    let room = WritingRoom::new(alloc)?;
    let log = MemoryLog::new(Vec::new(alloc), calls, 0);
    Ok(Logged::new(room, log, output, UnknownHistory))
}

/// How many bytes are shown, how many a crash leaves of the log, and how many of its calls don't fail any more.
fn ends(answers: Answers) -> (usize, (usize, usize), usize) {
    let (log, output) = answers.into_parts();
    let (bounds, calls) = (log.bounds(), log.calls_left());
    drop(log);
    let text = output.into_inner();
    let shown = text.len();
    drop(text);
    (shown, bounds, calls)
}

/// Puts many answers, and shows them at once.
fn put_many(answers: &mut Answers) -> Result<(), WriteFault> {
    for _ in 0..1000 {
        put_all(answers, b"report 1000000000 finish 100 50\n")?;
        put_all(answers, b"order 1000000000 100 50 51\n")?;
        put_all(answers, b"order 1000000000 101 49 50\n")?;
    }
    answers.flush()
}

#[test]
fn many_answers_are_synced_at_once(rt: HostRuntime) -> Result<(), Fail> {
    let mut answers = output_with_log(rt.alloc(), 40)?;
    let put = put_many(&mut answers);
    let found = ends(answers);
    assert!(rt; put.is_ok() && found == (86_000, (86_000, 86_000), 36));
    Ok(())
}

/// Puts three answers that add nothing to a log, each shown before the next one.
fn put_refusals(answers: &mut Answers) -> Result<(), WriteFault> {
    for _ in 0..3 {
        put_all(answers, b"refused 1 BadLine\n")?;
        answers.flush()?;
    }
    Ok(())
}

#[test]
fn an_answer_that_adds_nothing_is_not_synced(rt: HostRuntime) -> Result<(), Fail> {
    let mut answers = output_with_log(rt.alloc(), 2)?;
    let put = put_refusals(&mut answers);
    let (shown, _, calls) = ends(answers);
    assert!(rt; put.is_ok() && (shown, calls) == (54, 2));
    Ok(())
}
