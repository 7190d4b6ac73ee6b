//! Cells under tickets. How cells under numbers run apart is shown by `tests/commands/runs`.

use super::cells::{CROSSING, INSTANT, RINSED, Texts, accepted};
use super::events::arrive;
use cell_control::{Ack, Dues, ReportFault, ScanDues, TourneyDues};
use cell_hub::{Hub, HubFault, Ticket};
use plan_verifier::Verified;
use std::alloc::Global;
use std::process::Abort;
use std::test::Fail;

/// The ticket of one more cell, with this plan.
fn admitted<D: Dues>(alloc: Global, hub: &mut Hub<D>, texts: Texts) -> Result<Ticket, Fail> {
    Ok(hub.admit(accepted(alloc, texts)?)?)
}

/// Whether the cell of the ticket is there and waits for so many reports.
fn waits_for<D: Dues>(hub: &Hub<D>, ticket: Ticket, left: u64) -> bool {
    match hub.cell(ticket) {
        Some(cell) => cell.reports_left() == left,
        None => false,
    }
}

/// Dismisses the ticket, and answers for how many reports its cell waits.
fn dismissed<D: Dues>(hub: &mut Hub<D>, ticket: Ticket) -> Option<u64> {
    match hub.dismiss(ticket) {
        Ok(cell) => Some(cell.reports_left()),
        Err(_) => None,
    }
}

/// Whether the first cell takes its first report, and is dismissed.
fn leaves<D: Dues>(hub: &mut Hub<D>, first: Ticket) -> bool {
    first == Ticket { slot: 0, serial: 0 }
        && hub.report(first, arrive(0, 0)).is_ok()
        && dismissed(hub, first) == Some(5)
}

/// Whether the second cell answers in its place, and not under its ticket.
fn follows<D: Dues>(hub: &mut Hub<D>, first: Ticket, second: Ticket) -> bool {
    second == Ticket { slot: 0, serial: 1 }
        && hub.report(first, arrive(1, 0)) == Err(HubFault::NoSuchCell)
        && hub.cell(first).is_none()
        && dismissed(hub, first).is_none()
        && hub.report(second, arrive(0, 0)) == Ok(Ack { late: false })
        && waits_for(hub, second, 5)
}

/// Admits two cells, the second once the first has left, and answers whether each did as it should.
fn succeed<D: Dues>(alloc: Global, hub: &mut Hub<D>) -> Result<(bool, bool), Fail> {
    let first = admitted(alloc, hub, CROSSING)?;
    let left = leaves(hub, first);
    let second = admitted(alloc, hub, CROSSING)?;
    Ok((left, follows(hub, first, second)))
}

fn a_dismissed_ticket_is_silent<D: Dues>(rt: &(impl Abort + AllocGlobal)) -> Result<(), Fail> {
    let mut hub: Hub<D> = Hub::new(rt.alloc());
    let found = succeed(rt.alloc(), &mut hub);
    drop(hub);
    assert!(rt; found? == (true, true));
    Ok(())
}

#[test]
fn dismissed_tickets_never_answer(rt: HostRuntime) -> Result<(), Fail> {
    a_dismissed_ticket_is_silent::<ScanDues>(&rt)?;
    a_dismissed_ticket_is_silent::<TourneyDues>(&rt)
}

/// Whether the plan is handed back, since all serials are spent.
fn hands_back<D: Dues>(hub: &mut Hub<D>, verified: Verified) -> bool {
    match hub.admit(verified).err() {
        Some((fault, back)) => fault == HubFault::SerialsSpent && back.makespan() == 10,
        None => false,
    }
}

/// The ticket of one more cell, and whether the next plan is handed back.
fn spent<D: Dues>(alloc: Global, hub: &mut Hub<D>) -> Result<(Ticket, bool), Fail> {
    let ticket = admitted(alloc, hub, CROSSING)?;
    let verified = accepted(alloc, CROSSING)?;
    Ok((ticket, hands_back(hub, verified)))
}

#[test]
fn spent_serials_hand_the_plan_back(rt: HostRuntime) -> Result<(), Fail> {
    let serial = u64::MAX - 1;
    let mut hub: Hub<TourneyDues> = Hub::with_serial(rt.alloc(), serial);
    let found = spent(rt.alloc(), &mut hub);
    drop(hub);
    assert!(rt; found? == (Ticket { slot: 0, serial }, true));
    Ok(())
}

/// Whether the ticket has a cell or none, as it should.
fn stays<D: Dues>(hub: &mut Hub<D>, ticket: Ticket, stays: bool) -> bool {
    hub.cell(ticket).is_some() == stays
        && hub.report(ticket, arrive(0, 0)).is_ok() == stays
        && dismissed(hub, ticket).is_some() == stays
}

/// Whether the ticket is the next one, and the cell before each third one is dismissed then.
fn follows_on<D: Dues>(hub: &mut Hub<D>, ticket: Ticket, serial: u64, before: Ticket) -> bool {
    ticket.serial == serial && (serial % 3 != 2 || dismissed(hub, before).is_some())
}

/// Admits many cells, each third one in place of the one before.
fn fills<D: Dues>(
    rt: &(impl Abort + AllocGlobal),
    hub: &mut Hub<D>,
    tickets: &mut Vec<Ticket>,
) -> Result<(), Fail> {
    let mut before = Ticket { slot: 0, serial: 0 };
    for serial in 0..1_101 {
        let ticket = admitted(rt.alloc(), hub, INSTANT)?;
        assert!(rt; follows_on(hub, ticket, serial, before), "{serial}");
        tickets.push(ticket)?;
        before = ticket;
    }
    Ok(())
}

/// Each ticket has its cell, but for those that were dismissed.
fn all_stay<D: Dues>(rt: &impl Abort, hub: &mut Hub<D>, tickets: &[Ticket]) {
    for &ticket in tickets {
        let serial = ticket.serial;
        assert!(rt; stays(hub, ticket, serial % 3 != 1), "{serial}");
    }
}

#[test]
fn slots_are_filled_again_and_again(rt: HostRuntime) -> Result<(), Fail> {
    let mut hub: Hub<ScanDues> = Hub::new(rt.alloc());
    let mut tickets: Vec<Ticket> = Vec::new(rt.alloc());
    let filled = fills(&rt, &mut hub, &mut tickets);
    all_stay(&rt, &mut hub, &tickets);
    drop(hub);
    drop(tickets);
    filled
}

const NOT_EXPECTED: Result<Ack, HubFault> = Err(HubFault::Cell(ReportFault::NotExpected));

/// Whether a rack comes to the tank again, where the end of its first rinsing isn't taken once more.
fn comes_again<D: Dues>(hub: &mut Hub<D>, ticket: Ticket) -> bool {
    hub.report(ticket, arrive(0, 0)).is_ok()
        && hub.report(ticket, arrive(1, 0)).is_ok()
        && hub.finish_step(ticket, 0, 0, 3).is_ok()
        && hub.finish_step(ticket, 0, 1, 5).is_ok()
        && hub.clean_after_step(ticket, 0, 0, 0, 9).is_ok()
        && hub.finish_step(ticket, 0, 0, 12) == NOT_EXPECTED
        && hub.finish_step(ticket, 0, 2, 12) == Ok(Ack { late: false })
}

/// Whether it does in two cells, each of which waits for its own reports.
fn come_again<D: Dues>(alloc: Global, hub: &mut Hub<D>) -> Result<bool, Fail> {
    let first = admitted(alloc, hub, RINSED)?;
    let second = admitted(alloc, hub, RINSED)?;
    Ok(
        comes_again(hub, first)
            && waits_for(hub, second, 9)
            && comes_again(hub, second)
            && waits_for(hub, first, 3)
            && waits_for(hub, second, 3),
    )
}

/// Two cells of `cells_are_apart` and `calls_make_the_controlled_runs` in which a job comes to a machine again.
#[test]
fn a_job_comes_again_in_its_own_cell(rt: HostRuntime) -> Result<(), Fail> {
    let mut hub: Hub<ScanDues> = Hub::new(rt.alloc());
    let come = come_again(rt.alloc(), &mut hub);
    drop(hub);
    assert!(rt; come?);
    Ok(())
}
