//! A job that is asked for by its number.

ghost use Rattle.std.specs.Prelude.{◌≡◌, ◌<◌, ◌≤◌, Some, IfOk, IfSome, MatchOption};
ghost use Rattle.shop_base.specs.Plan.{jobs};
ghost use Rattle.command_answers.specs.AskedJobs.{no_job_line};

use crate::answer::{Answer, REFUSED};
use crate::lines::push_fact;
use shop_base::{JobNo, Shaped};
use std::alloc::{AllocError, Global};

/// The job that is asked for, if there is one and the shop hasn't got it.
pub(crate) fn absent_job(shaped: &Shaped, asked: Option<JobNo>) -> Option<JobNo>
    ensures { MatchOption result (IfSome asked (λ j. j < jobs shaped.now))
        (λ j. (asked ≡ Some j) × (jobs shaped.now ≤ j)) }
{
    match asked {
        Some(job) if shaped.job_count() <= job => Some(job),
        _ => None,
    }
}

/// The line of a job that isn't one of the shop.
pub(crate) fn no_job_answer(alloc: Global, job: JobNo) -> Result<Answer, AllocError>
    ensures { IfOk result (λ answer. (answer.text.items ≡ no_job_line job) × (answer.status ≡ 1)) }
{
    let (mut text, status) = (Vec::new(alloc), REFUSED);
    push_fact(&mut text, b"bad numbers JobOutOfRange job ", u64::from(job))?;
    text.push(b'\n')?;
    Ok(Answer { text, status })
}
