//! The lines of what is decided.

ghost use Rattle.std.specs.Prelude.{◌≡◌, ◌++◌, OnOk, codes};
ghost use Rattle.people_names.specs.Words.{job_word};
ghost use Rattle.command_answers.specs.DecisionLines.{bounds_line, excluded_words, fewer_if, words_of_jobs, least_line};
ghost use Rattle.command_answers.specs.DecisionLines.{never_line, never_lines, within_line};

use crate::lines::push_fact;
use people_names::{LONGEST_NAME, Names};
use plan_decide::{Excluded, Within};
use shop_base::{JobNo, Moment};
use std::alloc::AllocError;
use text_lines::LineText;

/// The bytes of a job's word and the blank before it.
const ROOM: usize = LONGEST_NAME + 1;

/// Adds `never jobs J0 J1 ..` for each of these.
pub(crate) fn push_never_lines(
    text: &mut Vec<u8>,
    names: &Names,
    excluded: &[Excluded],
) -> Result<(), AllocError>
    ensures { OnOk result (text.new.items ≡ text.old.items ++ never_lines names.now excluded.now) }
{
    for several in excluded {
        push_never_line(text, names, several)?;
    }
    Ok(())
}

/// Adds `never jobs J0 J1 ..`, and ` or fewer` where that is so.
fn push_never_line(text: &mut Vec<u8>, names: &Names, excluded: &Excluded) -> Result<(), AllocError>
    ensures { OnOk result (text.new.items ≡ text.old.items ++ never_line names.now excluded.now) }
{
    text.extend_from_slice(b"never jobs")?;
    push_excluded(text, names, excluded)?;
    text.push(b'\n')?;
    Ok(())
}

/// Adds the words of the jobs, and that fewer of them may do.
fn push_excluded(text: &mut Vec<u8>, names: &Names, excluded: &Excluded) -> Result<(), AllocError>
    ensures { OnOk result (text.new.items ≡ text.old.items ++ excluded_words names.now excluded.now) }
{
    match excluded {
        Excluded::Alone(job) => push_jobs(text, names, &[*job]),
        Excluded::Pair {
            lesser,
            greater,
            or_fewer,
        } => {
            push_jobs(text, names, &[*lesser, *greater])?;
            push_fewer(text, *or_fewer)
        }
        Excluded::Several { jobs, or_fewer } => {
            push_jobs(text, names, jobs)?;
            push_fewer(text, *or_fewer)
        }
    }
}

/// Adds the words of the jobs, with a blank before each.
fn push_jobs(text: &mut Vec<u8>, names: &Names, jobs: &[JobNo]) -> Result<(), AllocError>
    ensures { OnOk result (text.new.items ≡ text.old.items ++ words_of_jobs names.now jobs.now) }
{
    for job in jobs {
        push_job(text, names, *job)?;
    }
    Ok(())
}

/// Adds the word of a job, with a blank before it.
fn push_job(text: &mut Vec<u8>, names: &Names, job: JobNo) -> Result<(), AllocError>
    ensures { OnOk result (text.new.items ≡ text.old.items ++ (codes " " ++ job_word names.now job)) }
{
    let mut word = LineText::<ROOM>::empty();
    names.put_job(&mut word, job);
    word.put_text(b" ");
    text.extend_from_slice(word.bytes())?;
    Ok(())
}

fn push_fewer(text: &mut Vec<u8>, or_fewer: bool) -> Result<(), AllocError>
    ensures { OnOk result (text.new.items ≡ text.old.items ++ fewer_if or_fewer) }
{
    if or_fewer {
        text.extend_from_slice(b" or fewer")?;
    }
    Ok(())
}

/// Adds `# least X`, or `# at most X at least B`.
pub(crate) fn push_within_line(text: &mut Vec<u8>, within: Within) -> Result<(), AllocError>
    ensures { OnOk result (text.new.items ≡ text.old.items ++ within_line within) }
{
    if within.at_least == within.at_most {
        return push_least_line(text, within.at_most);
    }
    push_bounds_line(text, within)
}

fn push_least_line(text: &mut Vec<u8>, least: Moment) -> Result<(), AllocError>
    ensures { OnOk result (text.new.items ≡ text.old.items ++ least_line least) }
{
    push_fact(text, b"# least ", least)?;
    text.push(b'\n')?;
    Ok(())
}

fn push_bounds_line(text: &mut Vec<u8>, within: Within) -> Result<(), AllocError>
    ensures { OnOk result (text.new.items ≡ text.old.items ++ bounds_line within.at_most within.at_least) }
{
    push_fact(text, b"# at most ", within.at_most)?;
    push_fact(text, b" at least ", within.at_least)?;
    text.push(b'\n')?;
    Ok(())
}
