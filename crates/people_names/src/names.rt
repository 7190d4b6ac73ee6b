ghost use Rattle.std.specs.Prelude.{◌≡◌, ◌+◌, ◌<◌, ◌≤◌, ◌++◌, map, length, slice_get};
ghost use Rattle.std.specs.Prelude.{option_map, string_bytes, true, None, IfErr, IfOk, OnErr, OnOk};
ghost use Rattle.std.specs.List.{All};
ghost use Rattle.people_names.specs.{NameBooks.no_names, Lists.AreShort, KeptNames.kept_names, NameLines.name_lines};
ghost use Rattle.people_names.specs.AddedNames.{AreJobNames, IsWhyUnnamed, why_unnamed, with_job};
ghost use Rattle.people_names.specs.Words.{word_of, job_word, visit_word, machine_word, two_digits, hour_and_minute};
ghost use Rattle.people_names.specs.Words.{day_words, minute_words, second_words, moment_by, moment_word};
ghost use Rattle.people_names.specs.Words.{is_budget_printed, is_deadline_printed};
ghost use Rattle.people_names.specs.declared.names.TheConstants.{LONGEST_NAME, LONGEST_VISIT, LONGEST_MOMENT};

use crate::clock::Clock;
use crate::document::{push_clock, push_list};
use crate::kept::{first_names, names_of_jobs};
use crate::keys::NamesKey;
use crate::unnamed::{NotNamed, add_name};
use shop_base::limits::MAX_MOMENT;
use shop_base::{JobNo, MachineNo, Moment};
use std::alloc::{AllocError, Global};
use std::marker::Model;
use text_lines::LineText;

/// The most bytes of a name, and so of the word for a job or a machine.
pub const LONGEST_NAME: usize = 40;

/// No word for a visit of a job has more bytes.
pub const LONGEST_VISIT: usize = LONGEST_NAME + 11;

/// No word for a moment has more bytes.
pub const LONGEST_MOMENT: usize = 29;

/// The last deadline that is printed for people: later ones only come of promises that nobody gave.
pub const LAST_PRINTED_DEADLINE: Moment = 500_000_000_000;

/// What people call jobs and machines, and the clock by which they read moments. Jobs and machines without a name keep
/// their numbers, and moments without a clock are numbers too.
#[derive(Drop)]
pub struct Names {
    jobs: Vec<String>,
    machines: Vec<String>,
    clock: Option<Clock>,
    people: bool,
    lists_jobs: bool,
    lists_machines: bool,
}

impl Model for Names {
    ghost use Rattle.std.specs.Prelude.{map, string_bytes};
    ghost use Rattle.people_names.specs.NameBooks.{NameBook};
    ghost use Rattle.people_names.specs.Lists.{AreShort};

    ghost Value = { NameBook };

    ghost view = { λ names. record {
      jobs = map string_bytes names.jobs.items;
      machines = map string_bytes names.machines.items;
      clock = names.clock;
      people = names.people;
      lists_jobs = names.lists_jobs;
      lists_machines = names.lists_machines;
    } };

    ghost invariant = { λ names.
        AreShort (map string_bytes names.jobs.items) × AreShort (map string_bytes names.machines.items) };
}

impl Names {
    /// No names: lines have numbers alone, as programs read them.
    pub fn none(alloc: Global) -> Names
        ensures { result ≡ no_names }
    {
        Names {
            jobs: Vec::new(alloc),
            machines: Vec::new(alloc),
            clock: None,
            people: false,
            lists_jobs: false,
            lists_machines: false,
        }
    }

    /// The names where the jobs with these numbers, in ascending order, stay, and so many of the first machines. The
    /// clock stays as it is.
    pub fn kept(&self, alloc: Global, jobs: &[JobNo], machines: u32) -> Result<Names, AllocError>
        ensures { IfOk result (λ kept. kept ≡ kept_names self.now jobs.now machines) }
    {
        Ok(Names {
            jobs: names_of_jobs(alloc, &self.jobs, jobs)?,
            machines: first_names(alloc, &self.machines, machines as usize)?,
            clock: self.clock,
            people: self.people,
            lists_jobs: self.lists_jobs,
            lists_machines: self.lists_machines,
        })
    }

    /// Adds the name of the job behind the others, if all of these have names, and it is none of them. Unless it is added
    /// all stays as it is.
    pub fn add_job(&mut self, alloc: Global, name: &str, all_named: bool) -> Result<(), NotNamed>
        ensures fine { OnOk result (why_unnamed self.old.jobs all_named name.now ≡ None) }
        ensures added { OnOk result (self.new ≡ with_job self.old name.now) }
        ensures readable { OnOk result (AreJobNames self.old.jobs → AreJobNames self.new.jobs) }
        ensures refused { IfErr result (IsWhyUnnamed (why_unnamed self.old.jobs all_named name.now)) }
        ensures unchanged { OnErr result (self.new ≡ self.old) }
    {
        add_name(alloc, &mut self.jobs, name, all_named)?;
        self.lists_jobs = true;
        Ok(())
    }

    /// A text of these names in TOML: a line for each key that there is.
    pub fn text(&self, alloc: Global) -> Result<Vec<u8>, AllocError>
        ensures { IfOk result (λ text. text.items ≡ name_lines self.now) }
    {
        let mut text = Vec::new(alloc);
        push_list(&mut text, NamesKey::Jobs, self.lists_jobs, &self.jobs)?;
        push_list(
            &mut text,
            NamesKey::Machines,
            self.lists_machines,
            &self.machines,
        )?;
        push_clock(&mut text, self.clock)?;
        Ok(text)
    }

    /// How many of the first jobs have names.
    pub fn named_jobs(&self) -> usize
        ensures { result ≡ length self.now.jobs }
    {
        self.jobs.len()
    }

    /// The job's name, if it has one.
    pub fn job_name(&self, job: JobNo) -> Option<&str>
        ensures { option_map (λ name. name.now) result ≡ slice_get self.now.jobs job }
    {
        name_at(&self.jobs, job)
    }

    /// The machine's name, if it has one.
    pub fn machine_name(&self, machine: MachineNo) -> Option<&str>
        ensures { option_map (λ name. name.now) result ≡ slice_get self.now.machines machine }
    {
        name_at(&self.machines, machine)
    }

    /// What the clock says at moment 0, if there is one.
    pub fn clock(&self) -> Option<Clock>
        ensures { result ≡ self.now.clock }
    {
        self.clock
    }

    /// Writes the job's word before what the line has.
    #[inline(always)]
    pub fn put_job<const ROOM: usize>(&self, line: &mut LineText<ROOM>, job: JobNo)
        requires { LONGEST_NAME + length line.old ≤ ROOM }
        ensures written { line.new ≡ job_word self.now job ++ line.old }
        ensures length { length line.new ≤ LONGEST_NAME + length line.old }
    {
        put_word(line, &self.jobs, job);
    }

    /// Writes the word of a visit of a job before what the line has: the job's word, and behind a dot the step by which
    /// its visits are told apart, if they are.
    #[inline(always)]
    pub fn put_visit<const ROOM: usize>(
        &self,
        line: &mut LineText<ROOM>,
        job: JobNo,
        step: Option<u32>,
    )
        requires { LONGEST_VISIT + length line.old ≤ ROOM }
        ensures written { line.new ≡ visit_word self.now job step ++ line.old }
        ensures length { length line.new ≤ LONGEST_VISIT + length line.old }
    {
        if let Some(step) = step {
            line.put_short_number(step);
            line.put_text(b".");
        }
        self.put_job(line, job);
    }

    /// Writes the machine's word before what the line has.
    #[inline(always)]
    pub fn put_machine<const ROOM: usize>(&self, line: &mut LineText<ROOM>, machine: MachineNo)
        requires { LONGEST_NAME + length line.old ≤ ROOM }
        ensures written { line.new ≡ machine_word self.now machine ++ line.old }
        ensures length { length line.new ≤ LONGEST_NAME + length line.old }
    {
        put_word(line, &self.machines, machine);
    }

    /// Writes the moment's word before what the line has.
    #[inline(always)]
    pub fn put_moment<const ROOM: usize>(&self, line: &mut LineText<ROOM>, moment: Moment)
        requires { LONGEST_MOMENT + length line.old ≤ ROOM }
        ensures written { line.new ≡ moment_word self.now moment ++ line.old }
        ensures length { length line.new ≤ LONGEST_MOMENT + length line.old }
    {
        put_moment_by(line, self.clock, moment);
    }

    /// Whether a line prints this budget: for people none that nobody gave.
    pub fn prints_budget(&self, budget: Moment) -> bool
        ensures { result ≡ is_budget_printed self.now budget }
    {
        !(self.people && budget == MAX_MOMENT)
    }

    /// Whether a line prints this deadline: for people none that only comes of such budgets.
    pub fn prints_deadline(&self, due: Moment) -> bool
        ensures { result ≡ is_deadline_printed self.now due }
    {
        !(self.people && LAST_PRINTED_DEADLINE < due)
    }
}

/// Names for people, of short names.
pub(crate) fn names_for_people(
    jobs: Vec<String>,
    machines: Vec<String>,
    clock: Option<Clock>,
    lists_jobs: bool,
    lists_machines: bool,
) -> Names
    requires jobs { AreShort (map string_bytes jobs.items) }
    requires machines { AreShort (map string_bytes machines.items) }
    ensures { result ≡ record {
      jobs = map string_bytes jobs.items;
      machines = map string_bytes machines.items;
      clock = clock;
      people = true;
      lists_jobs = lists_jobs;
      lists_machines = lists_machines;
    } }
{
    Names {
        jobs,
        machines,
        clock,
        people: true,
        lists_jobs,
        lists_machines,
    }
}

#[inline(always)]
pub(crate) fn name_at(names: &[String], number: u32) -> Option<&str>
    ensures { option_map (λ name. name.now) result ≡ slice_get (map string_bytes names.now) number }
{
    match names.get(number as usize) {
        Some(name) => Some(name.as_str()),
        None => None,
    }
}

/// Writes the name of this number, else the number.
#[inline(always)]
fn put_word<const ROOM: usize>(line: &mut LineText<ROOM>, names: &[String], number: u32)
    requires room { LONGEST_NAME + length line.old ≤ ROOM }
    requires short { AreShort (map string_bytes names.now) }
    ensures written { line.new ≡ word_of (map string_bytes names.now) number ++ line.old }
    ensures length { length line.new ≤ LONGEST_NAME + length line.old }
{
    match name_at(names, number) {
        Some(name) => line.put_text(name.as_bytes()),
        None => line.put_short_number(number),
    }
}

/// Writes the moment by the clock, if there is one.
#[inline(always)]
pub(crate) fn put_moment_by<const ROOM: usize>(
    line: &mut LineText<ROOM>,
    clock: Option<Clock>,
    moment: Moment,
)
    requires { LONGEST_MOMENT + length line.old ≤ ROOM }
    ensures written { line.new ≡ moment_by clock moment ++ line.old }
    ensures length { length line.new ≤ LONGEST_MOMENT + length line.old }
{
    match clock {
        None => line.put_number(moment),
        Some(Clock::Minutes(begin)) => put_minutes(line, begin, moment),
        Some(Clock::Seconds(begin)) => put_seconds(line, begin, moment),
    }
}

/// Writes what a clock says that is so many minutes past midnight at moment 0.
fn put_minutes<const ROOM: usize>(line: &mut LineText<ROOM>, begin: u32, moment: Moment)
    requires { LONGEST_MOMENT + length line.old ≤ ROOM }
    ensures written { line.new ≡ minute_words (begin + moment) ++ line.old }
    ensures length { length line.new ≤ LONGEST_MOMENT + length line.old }
{
    let minutes = moment % 1440 + u64::from(begin);
    put_days(line, moment / 1440 + minutes / 1440);
    put_hour_and_minute(line, minutes % 1440);
}

/// Writes what a clock says that is so many seconds past midnight at moment 0.
fn put_seconds<const ROOM: usize>(line: &mut LineText<ROOM>, begin: u32, moment: Moment)
    requires { LONGEST_MOMENT + length line.old ≤ ROOM }
    ensures written { line.new ≡ second_words (begin + moment) ++ line.old }
    ensures length { length line.new ≤ LONGEST_MOMENT + length line.old }
{
    let seconds = moment % 86400 + u64::from(begin);
    put_days(line, moment / 86400 + seconds / 86400);
    put_two_digits(line, seconds % 60);
    line.put_text(b":");
    put_hour_and_minute(line, seconds % 86400 / 60);
}

/// Writes which midnight was the last, but for the one before moment 0.
fn put_days<const ROOM: usize>(line: &mut LineText<ROOM>, days: u64)
    requires { 21 + length line.old ≤ ROOM }
    ensures written { line.new ≡ day_words days ++ line.old }
    ensures length { length line.new ≤ 21 + length line.old }
{
    if days > 0 {
        line.put_number(days);
        line.put_text(b"+");
    }
}

/// Writes the hour and the minute, of minutes within a day.
fn put_hour_and_minute<const ROOM: usize>(line: &mut LineText<ROOM>, minutes: u64)
    requires room { 5 + length line.old ≤ ROOM }
    requires day { minutes < 1440 }
    ensures written { line.new ≡ hour_and_minute minutes ++ line.old }
    ensures length { length line.new ≡ 5 + length line.old }
{
    put_two_digits(line, minutes % 60);
    line.put_text(b":");
    put_two_digits(line, minutes / 60);
}

fn put_two_digits<const ROOM: usize>(line: &mut LineText<ROOM>, number: u64)
    requires room { 2 + length line.old ≤ ROOM }
    requires small { number < 100 }
    ensures written { line.new ≡ two_digits number ++ line.old }
    ensures length { length line.new ≡ 2 + length line.old }
{
    let digits = [b'0' + (number / 10) as u8, b'0' + (number % 10) as u8];
    line.put_text(&digits);
}
