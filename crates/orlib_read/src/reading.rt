//! One instance, line by line.

ghost use Rattle.std.specs.Prelude.{◌+◌, ◌<◌, ◌^◌};
ghost use Rattle.shop_base.specs.Vectors.{lists_of};
ghost use Rattle.text_lines.specs.Searches.{GivesFirst};
ghost use Rattle.orlib_read.specs.Words.{words_of};
ghost use Rattle.orlib_read.specs.Cursor.{numbered_line, lines_left, with_left};
ghost use Rattle.orlib_read.specs.Reading.{Gives, GivesExactly, without_titles, head_at, step_at};
ghost use Rattle.orlib_read.specs.Reading.{steps_at, route_at, jobs_at, draft_at};
ghost use Rattle.orlib_read.specs.Views.{head_of, content_of};

use crate::kinds::{is_instance_line, sizes_of, worded_sizes_of};
use crate::lines::{Line, Lines};
use crate::named::{Draft, Head};
use crate::or_fault::OrFault;
use crate::words::{next_word, number_of, word_count};
use shop_base::Step;
use std::alloc::{AllocError, Global};

/// The next line that isn't an instance line, and the lines after it.
fn first_line<'a>(lines: Lines<'a>) -> Option<(Line<'a>, Lines<'a>)>
    ensures { GivesFirst numbered_line lines_left result (without_titles (lines_left lines.entry)) }
{
    let mut left = lines;
    while let Some((line, rest)) = left.next_unfilled() {
        if !is_instance_line(line.bytes) {
            return Some((line, rest));
        }
        left = rest;
    }
    None
}

#[tactic(auto, unfolding(crate::specs::Reading::head_at))]
fn read_head<'a>(lines: Lines<'a>) -> Result<(Head<'a>, Lines<'a>), OrFault>
    ensures { GivesExactly (with_left head_of) result (head_at (without_titles (lines_left lines.entry))) }
{
    let Some((first, lines)) = first_line(lines) else {
        return Err(OrFault::NoSizes);
    };
    if let Some(sizes) = sizes_of(first.bytes) {
        let head = Head {
            description: &[],
            sizes,
        };
        return Ok((head, lines));
    }
    let Some((line, lines)) = lines.next_unfilled() else {
        return Err(OrFault::NoSizes);
    };
    let Some(sizes) = worded_sizes_of(line.bytes) else {
        return Err(OrFault::BadSizes { line: line.number });
    };
    let head = Head {
        description: first.bytes,
        sizes,
    };
    Ok((head, lines))
}

#[tactic(auto, unfolding(crate::specs::Reading::step_at))]
fn step_of(line: usize, before: usize, machine: &[u8], nominal: &[u8]) -> Result<Step, OrFault>
    requires { before + 2 < 2 ^ 64 }
    ensures { GivesExactly (λ step. step) result (step_at line before machine.now nominal.now) }
{
    let Some(machine) = number_of(machine) else {
        return Err(OrFault::BadNumber {
            line,
            word: before + 1,
        });
    };
    let Some(nominal) = number_of(nominal) else {
        return Err(OrFault::BadNumber {
            line,
            word: before + 2,
        });
    };
    Ok(Step {
        machine,
        nominal: u64::from(nominal),
    })
}

/// The route on a job line.
#[tactic(auto, unfolding(crate::specs::Reading::route_at))]
pub(crate) fn route_of(alloc: Global, line: Line) -> Result<Vec<Step>, OrFault>
    ensures { Gives (λ route. route.items) result (route_at (numbered_line line.entry)) }
{
    let route = steps_of(alloc, line);
    // An odd number of words comes before a word that isn't a number.
    if route.is_err() && word_count(line.bytes) % 2 == 1 {
        return Err(OrFault::OddWords { line: line.number });
    }
    route
}

fn steps_of(alloc: Global, line: Line) -> Result<Vec<Step>, OrFault>
    ensures { Gives (λ route. route.items) result (steps_at line.entry.number 0 (words_of line.entry.bytes.now)) }
{
    let mut route = Vec::new(alloc);
    let mut before = 0;
    let mut rest = line.bytes;
    while let Some((machine, after)) = next_word(rest) {
        let Some((nominal, after)) = next_word(after) else {
            return Err(OrFault::OddWords { line: line.number });
        };
        let step = step_of(line.number, before, machine, nominal)?;
        route.push(step).map_err(AllocError::from)?;
        before += 2;
        rest = after;
    }
    Ok(route)
}

fn read_jobs<'a>(
    alloc: Global,
    jobs: u32,
    lines: Lines<'a>,
) -> Result<(Vec<Vec<Step>>, Lines<'a>), OrFault>
    ensures { Gives (with_left (λ routes. lists_of routes.items)) result (jobs_at 0 jobs (lines_left lines.entry)) }
{
    let mut routes = Vec::new(alloc);
    let mut left = lines;
    for job in 0..jobs {
        let Some((line, rest)) = left.next_unfilled() else {
            return Err(OrFault::MissingJob { job });
        };
        let route = route_of(alloc, line)?;
        routes.push(route).map_err(AllocError::from)?;
        left = rest;
    }
    Ok((routes, left))
}

#[tactic(auto, unfolding(crate::specs::Reading::draft_at))]
pub(crate) fn read_draft<'a>(
    alloc: Global,
    lines: Lines<'a>,
) -> Result<(Draft<'a>, Lines<'a>), OrFault>
    ensures { Gives (with_left content_of) result (draft_at (lines_left lines.entry)) }
{
    let (head, lines) = read_head(lines)?;
    let (routes, lines) = read_jobs(alloc, head.sizes.jobs, lines)?;
    let draft = Draft {
        description: head.description,
        machines: head.sizes.machines,
        recirculates: head.sizes.recirculates,
        routes,
    };
    Ok((draft, lines))
}
