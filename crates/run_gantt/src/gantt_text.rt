//! The Gantt text of a run's events: each machine's visits, and a bar of which job is on it when.

ghost use Rattle.std.specs.Prelude.{◌≡◌, ℕ, ◌<◌, ◌≤◌, length, map, flat_map, slice_index_or, None};
ghost use Rattle.std.specs.Prelude.{Some, decimal, string_bytes, IfOk, OnOk};
ghost use Rattle.shop_base.specs.Plan.{machines};
ghost use Rattle.run_gantt.specs.Visits.{first_of, last_entry_moment, entry_moment};
ghost use Rattle.run_gantt.specs.GanttText.{gantt_text, scale_for, columns_for, row_lines, gantt_visit_word};
ghost use Rattle.run_gantt.specs.GanttText.{moment_or_unknown, sign_of, column_sign};
ghost use Rattle.people_names.specs.{NameBooks.no_names, Words.job_word, Words.machine_word, Words.moment_word};
ghost use Rattle.run_gantt.specs.Pushing.{IsPushed, all_lines, visits_to, SignsToo};
ghost use Rattle.run_gantt.specs.declared.bar.TheConstants.{MAX_COLUMNS, MAX_SCALE};

use crate::bar::{Bar, MAX_COLUMNS, sign_visit};
use crate::visits::{LoggedVisit, Visits, visits_of};
use cell_tables::Entry;
use itoa::Buffer;
use people_names::{LONGEST_MOMENT, Names};
use shop_base::{JobNo, MachineNo, Moment, Shaped};
use std::alloc::{AllocError, Global};
use text_lines::LineText;

/// The Gantt text of the entries, in numbers: [`gantt_for`] without names.
pub fn gantt(alloc: Global, shaped: &Shaped, entries: &[Entry]) -> Result<String, AllocError>
    ensures { IfOk result (λ text. string_bytes text ≡ gantt_text no_names (machines shaped.now) entries.now) }
{
    gantt_for(alloc, &Names::none(alloc), shaped, entries)
}

/// The Gantt text of the entries: the scale, which is the length of a bar's column, and for each machine of the
/// shop its visits as ` JOB:ENTER-FINISH-LEAVE` and its bar of at most 60 columns.
///
/// A column shows the job that is on the machine at the column's first moment, by the last digit of its number, or
/// `=` once its operation has ended. Any entries are drawn, whether they are a run's or not. But for the bar and the
/// scale, jobs, machines and moments are written by names and clock.
pub fn gantt_for(
    alloc: Global,
    names: &Names,
    shaped: &Shaped,
    entries: &[Entry],
) -> Result<String, AllocError>
    ensures { IfOk result (λ text. string_bytes text ≡ gantt_text names.now (machines shaped.now) entries.now) }
{
    let visits = visits_of(alloc, shaped, entries)?;
    let last = last_moment(entries);
    let scale = scale_for(last);
    let columns = columns_for(last, scale);
    let mut text = String::new(alloc);
    text.push_str("scale ")?;
    push_number(&mut text, scale)?;
    text.push_str("\n")?;
    visits.push_machines(&mut text, names, shaped.machine_count(), scale, columns)?;
    Ok(text)
}

/// The limit in numbers: the most columns of a bar.
pub fn the_columns_in_numbers()
    ensures { MAX_COLUMNS ≡ 60 }
{}

fn scale_for(last: Moment) -> Moment
    ensures scale { result ≡ scale_for last }
    ensures above { 0 < result }
    ensures below { result ≤ MAX_SCALE }
{
    last / MAX_COLUMNS as u64 + 1
}

fn columns_for(last: Moment, scale: Moment) -> usize
    requires { scale ≡ scale_for last }
    ensures columns { result ≡ columns_for last scale }
    ensures few { result ≤ MAX_COLUMNS }
{
    (last / scale + 1) as usize
}

fn last_moment(entries: &[Entry]) -> Moment
    ensures { result ≡ last_entry_moment entries.now }
{
    let mut last = 0;
    for entry in entries {
        last = last.max(entry_moment(*entry));
    }
    last
}

fn entry_moment(entry: Entry) -> Moment
    ensures { result ≡ entry_moment entry }
{
    match entry {
        Entry::Report(report) => report.at(),
        Entry::Order(order) => order.at,
    }
}

impl Visits {
    fn push_machines(
        &self,
        text: &mut String,
        names: &Names,
        machines: u32,
        scale: Moment,
        columns: usize,
    ) -> Result<(), AllocError>
        requires machines { length self.now ≡ machines }
        requires above { 0 < scale }
        requires below { scale ≤ MAX_SCALE }
        requires columns { columns ≤ MAX_COLUMNS }
        ensures { OnOk result (IsPushed text.old text.new (all_lines names.now scale columns self.now machines)) }
    {
        for machine in 0..machines {
            self.push_machine(text, names, machine, scale, columns)?;
        }
        Ok(())
    }

    /// The lines of a machine.
    fn push_machine(
        &self,
        text: &mut String,
        names: &Names,
        machine: MachineNo,
        scale: Moment,
        columns: usize,
    ) -> Result<(), AllocError>
        requires machine { machine < length self.now }
        requires above { 0 < scale }
        requires below { scale ≤ MAX_SCALE }
        requires columns { columns ≤ MAX_COLUMNS }
        ensures { OnOk result (IsPushed text.old text.new (row_lines names.now scale columns self.now machine)) }
    {
        text.push_str("machine ")?;
        push_machine_word(text, names, machine)?;
        let mut bar = [None; MAX_COLUMNS];
        self.push_visits(text, names, &mut bar, machine, scale)?;
        text.push_str("\nbar ")?;
        push_columns(text, &bar[..columns])?;
        text.push_str("\n")?;
        Ok(())
    }

    /// The words of a machine's visits, each of which is shown in the bar as well.
    fn push_visits(
        &self,
        text: &mut String,
        names: &Names,
        bar: &mut Bar,
        machine: MachineNo,
        scale: Moment,
    ) -> Result<(), AllocError>
        requires machine { machine < length self.now }
        requires above { 0 < scale }
        requires below { scale ≤ MAX_SCALE }
        ensures text { OnOk result
            (IsPushed text.old text.new (flat_map (gantt_visit_word names.now) (visits_to self.now machine))) }
        ensures bar { OnOk result
            (SignsToo scale (λ t. first_of (sign_of t) (visits_to self.now machine)) bar.old bar.new) }
    {
        let mut next = self.first[machine as usize];
        while let Some(place) = next {
            let linked = self.table[place];
            push_visit(text, names, linked.visit)?;
            sign_visit(bar, scale, linked.visit);
            next = linked.next;
        }
        Ok(())
    }
}

fn push_visit(text: &mut String, names: &Names, visit: LoggedVisit) -> Result<(), AllocError>
    ensures { OnOk result (IsPushed text.old text.new (gantt_visit_word names.now visit)) }
{
    text.push_str(" ")?;
    push_job_word(text, names, visit.job)?;
    text.push_str(":")?;
    push_moment(text, names, visit.enter)?;
    text.push_str("-")?;
    push_moment_or_unknown(text, names, visit.finish)?;
    text.push_str("-")?;
    push_moment_or_unknown(text, names, visit.leave)
}

fn push_moment_or_unknown(
    text: &mut String,
    names: &Names,
    moment: Option<Moment>,
) -> Result<(), AllocError>
    ensures { OnOk result (IsPushed text.old text.new (moment_or_unknown names.now moment)) }
{
    match moment {
        Some(moment) => push_moment(text, names, moment),
        None => text.push_str("?"),
    }
}

fn push_moment(text: &mut String, names: &Names, moment: Moment) -> Result<(), AllocError>
    ensures { OnOk result (IsPushed text.old text.new (moment_word names.now moment)) }
{
    let Some(_clock) = names.clock() else {
        return push_number(text, moment);
    };
    let mut word = LineText::<LONGEST_MOMENT>::empty();
    names.put_moment(&mut word, moment);
    match str::from_utf8(word.bytes()) {
        Ok(word) => text.push_str(word),
        Err(_) => unreachable!(),
    }
}

fn push_job_word(text: &mut String, names: &Names, job: JobNo) -> Result<(), AllocError>
    ensures { OnOk result (IsPushed text.old text.new (job_word names.now job)) }
{
    match names.job_name(job) {
        Some(name) => text.push_str(name),
        None => push_number(text, u64::from(job)),
    }
}

fn push_machine_word(text: &mut String, names: &Names, machine: MachineNo) -> Result<(), AllocError>
    ensures { OnOk result (IsPushed text.old text.new (machine_word names.now machine)) }
{
    match names.machine_name(machine) {
        Some(name) => text.push_str(name),
        None => push_number(text, u64::from(machine)),
    }
}

#[inline(always)]
fn push_number(text: &mut String, number: u64) -> Result<(), AllocError>
    ensures { OnOk result (IsPushed text.old text.new (decimal number)) }
{
    let mut buffer = Buffer::new();
    text.push_str(buffer.format(number))
}

fn push_columns(text: &mut String, columns: &[Option<char>]) -> Result<(), AllocError>
    requires { (c sign : ℕ) → slice_index_or columns.now c None ≡ Some sign → sign < 128 }
    ensures { OnOk result (IsPushed text.old text.new (map column_sign columns.now)) }
{
    for column in columns {
        text.push(column_sign(*column))?;
    }
    Ok(())
}

fn column_sign(column: Option<char>) -> char
    ensures { result ≡ column_sign column }
{
    match column {
        Some(sign) => sign,
        None => '.',
    }
}
