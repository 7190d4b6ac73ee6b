//! Several cells, in the order of their numbers, that are driven by the lines of one input.

ghost use Rattle.std.specs.Prelude.{◌≡◌, ◌≤◌, ◌↔◌, [], ◌∷◌, ◌++◌, vec_len, length, Err, Some, IfOk, IsTrue, MatchOption, OnOk};
ghost use Rattle.byte_streams.specs.{declared.rooms.TheConstants.MAX_PIECE, Streams.IsStreamed};
ghost use Rattle.byte_streams.specs.Lent.{WroteTo, WroteOneTo, streams_of};
ghost use Rattle.plan_verifier.specs.Accepted.{IsVerified};
ghost use Rattle.cell_hub.specs.{declared.slots.Ticket.Ticket, Hub.cell_at, Calls.IsAdmitted, Calls.IsPossibleAt};
ghost use Rattle.cell_drive.specs.Protocols.{plain_from};
ghost use Rattle.cell_drive.specs.ManyCells.{AreAllDone, AreVerified, hub_start};
ghost use Rattle.cell_drive.specs.ProtocolCells.{AreDrivesIn, AsksCell, AsksNoCell, HubAnswer, HubCloses, HubOfCells};
ghost use Rattle.cell_drive.specs.{declared.replies.TheConstants.MAX_PREFIX, Numbers.closing_text};
ghost use Rattle.cell_drive.specs.Tickets.{AnsweredByHub, AreSeatedInRun, HasCell, RepliesAt, Takes, cells_of};
ghost use Rattle.cell_drive.specs.Acceptances.{accepted_lines};
ghost use Rattle.cell_control.specs.Control.{IsControl};

use crate::protocol::Protocol;
use crate::replies::{put_closing, put_refused};
use crate::requests::{Acceptance, Written, consider, put_acceptance};
use byte_streams::{
    BufferedSink, DriveFault, LineHandler, Sink, Source, WriteFault, reading_room, stream,
};
use cell_control::{Dues, LeanController, LeanPlan, TourneyDues};
use cell_hub::{HubFault, HubOf, Ticket};
use cell_tables::Claim;
use event_lines::{Request, cell_prefix, cell_report_of, cell_request_of};
use plan_verifier::Verified;
use std::alloc::{AllocError, Global};
use std::marker::Model;

/// What several driven runs have come to at the end of their input.
#[derive(Clone, Copy, Debug, PartialEq, Eq)]
pub struct HubEnd {
    /// Whether the run of each cell has ended; true with no cells.
    pub all_done: bool,
}

/// A hub, the tickets of its cells in the order of their numbers, and the protocol by which their lines are read and
/// answered.
#[derive(Drop)]
struct HubSession<D: Dues> {
    protocol: Protocol,
    hub: HubOf<LeanPlan, D>,
    tickets: Vec<Ticket>,
}

impl<D: Dues> Model for HubSession<D> {
    ghost use Rattle.cell_drive.specs.ProtocolCells.{HubOfCells, hub_of};
    ghost use Rattle.cell_drive.specs.Tickets.{AreSeatedInRun, cells_of};

    ghost Value = { HubOfCells };

    ghost view = { λ s. hub_of s.protocol (cells_of s.hub s.tickets.items) };

    ghost invariant = { λ s. AreSeatedInRun s.hub s.tickets.items };
}

/// A hub with the cells of the plans before the first line, and their tickets in order.
fn begin<D: Dues>(
    alloc: Global,
    plans: Vec<LeanPlan>,
) -> Result<(HubOf<LeanPlan, D>, Vec<Ticket>), AllocError>
    ensures started { IfOk result (λ begun. cells_of begun.0 begun.1.items ≡ hub_start plans.items) }
    ensures verified { OnOk result (AreVerified plans.items) }
    ensures seated { IfOk result (λ begun. AreSeatedInRun begun.0 begun.1.items) }
{
    let mut hub = HubOf::new(alloc);
    let mut tickets = Vec::new(alloc);
    for plan in plans {
        seat(plan, &mut hub, &mut tickets)?;
    }
    Ok((hub, tickets))
}

/// Makes one more cell, behind these.
fn seat<D: Dues>(
    plan: LeanPlan,
    hub: &mut HubOf<LeanPlan, D>,
    tickets: &mut Vec<Ticket>,
) -> Result<(), AllocError>
    requires { hub.old.next_serial ≡ length tickets.old.items }
    ensures seated { OnOk result ((ticket : Ticket) × IsAdmitted hub.old plan ticket hub.new
        × (tickets.new.items ≡ tickets.old.items ++ ticket ∷ [])) }
    ensures verified { OnOk result (IsVerified plan) }
{
    // Called for its clause alone: the plan is an accepted one.
    let _plan = plan.shaped();
    if let Err(error) = tickets.reserve(1) {
        drop(plan);
        return Err(error);
    }
    match hub.admit_lean(plan) {
        Ok(ticket) => {
            tickets.push_reserved(ticket);
            Ok(())
        }
        Err(HubFault::Memory) => Err(AllocError),
        Err(_) => unreachable!(),
    }
}

/// What the line asks of a cell, and the number of that cell before it, if it asks for anything.
fn asked_of(version_2: bool, line: &[u8]) -> Option<(u32, Request)>
    ensures { MatchOption result (AsksNoCell version_2 line.now)
        (λ found. AsksCell version_2 line.now found.0 found.1) }
{
    if version_2 {
        return cell_request_of(line);
    }
    let (cell, report) = cell_report_of(line)?;
    Some((cell, Request::Claim(Claim::Report(report))))
}

/// The controller of the ticket's cell.
fn controller_of<D: Dues>(hub: &HubOf<LeanPlan, D>, ticket: Ticket) -> &LeanController<D>
    requires { HasCell hub.now ticket }
    ensures { cell_at hub.now ticket ≡ Some result.now }
{
    match hub.cell(ticket) {
        Some(controller) => controller,
        None => unreachable!(),
    }
}

/// Accepts what is to be accepted in the ticket's cell, and writes its lines.
#[inline(always)]
fn accept<D: Dues, W: Sink>(
    protocol: Protocol,
    prefix: &[u8],
    hub: &mut HubOf<LeanPlan, D>,
    ticket: Ticket,
    acceptance: Acceptance,
    writer: &mut W,
) -> Written
    requires possible { IsPossibleAt hub.old ticket acceptance.possible }
    requires prefix { length prefix.now ≤ MAX_PREFIX }
    ensures { (is : Takes hub.old ticket acceptance.possible.report hub.new) × IsControl is.1.after
        × WroteTo W.Sink result writer.old writer.new (accepted_lines protocol prefix.now is.1.after acceptance)
        × OnOk result (W.failed writer.new ≡ W.failed writer.old) }
{
    let Acceptance { possible, overdue } = acceptance;
    let (late, report) = (possible.is_late(), possible.report());
    hub.accept(ticket, possible);
    let controller = controller_of(hub, ticket);
    // Called for its clause alone: what holds of every such controller.
    let _plan = controller.shaped();
    put_acceptance(protocol, prefix, controller, report, late, overdue, writer)
}

/// Answers the request of the line of this number, in the ticket's cell.
fn reply_in<D: Dues, W: Sink>(
    protocol: Protocol,
    prefix: &[u8],
    hub: &mut HubOf<LeanPlan, D>,
    ticket: Ticket,
    number: u64,
    request: Request,
    writer: &mut W,
) -> Written
    requires there { HasCell hub.old ticket }
    requires prefix { length prefix.now ≤ MAX_PREFIX }
    ensures { WroteOneTo W.Sink result writer.old writer.new
        (RepliesAt protocol prefix.now hub.old ticket number request hub.new) }
{
    let controller = controller_of(hub, ticket);
    // Called for its clause alone: what holds of every such controller.
    let _plan = controller.shaped();
    match consider(protocol, prefix, number, controller, request, writer) {
        Ok(acceptance) => accept(protocol, prefix, hub, ticket, acceptance, writer),
        Err(written) => written,
    }
}

/// Answers a line. An empty one has no answer.
fn answer_line<D: Dues, W: Sink>(
    protocol: Protocol,
    hub: &mut HubOf<LeanPlan, D>,
    tickets: &[Ticket],
    number: u64,
    line: &[u8],
    writer: &mut W,
) -> Written
    requires { AreSeatedInRun hub.old tickets.now }
    ensures in_run { AreSeatedInRun hub.new tickets.now }
    ensures answered { WroteOneTo W.Sink result writer.old writer.new
        (AnsweredByHub protocol hub.old tickets.now number line.now hub.new) }
{
    if line.is_empty() {
        return Ok(());
    }
    let Some((cell, request)) = asked_of(protocol.version_2, line) else {
        return put_refused(number, b"BadLine", writer);
    };
    let place = cell as usize;
    if place >= tickets.len() {
        return put_refused(number, b"NoSuchCell", writer);
    }
    let prefix = cell_prefix(u64::from(cell));
    reply_in(
        protocol,
        prefix.bytes(),
        hub,
        tickets[place],
        number,
        request,
        writer,
    )
}

/// Writes the closing line of each cell.
fn put_closings<D: Dues, W: Sink>(
    hub: &HubOf<LeanPlan, D>,
    tickets: &[Ticket],
    writer: &mut W,
) -> Written
    requires { AreSeatedInRun hub.now tickets.now }
    ensures wrote { WroteTo W.Sink result writer.old writer.new (closing_text 0 (cells_of hub.now tickets.now)) }
    ensures unfailed { OnOk result (W.failed writer.new ≡ W.failed writer.old) }
{
    for cell in 0..tickets.len() {
        let prefix = cell_prefix(cell as u64);
        let controller = controller_of(hub, tickets[cell]);
        put_closing(prefix.bytes(), controller, writer)?;
    }
    Ok(())
}

/// Whether the run of each cell has ended.
fn all_done<D: Dues>(hub: &HubOf<LeanPlan, D>, tickets: &[Ticket]) -> bool
    requires { AreSeatedInRun hub.now tickets.now }
    ensures { IsTrue result ↔ AreAllDone (cells_of hub.now tickets.now) }
{
    for cell in 0..tickets.len() {
        if !controller_of(hub, tickets[cell]).is_done() {
            return false;
        }
    }
    true
}

impl<D: Dues> LineHandler for HubSession<D> {
    ghost use Rattle.cell_drive.specs.ProtocolCells.{HubAnswer, HubCloses};

    ghost answers = { HubAnswer };

    ghost closes = { HubCloses };

    fn answer<W: Sink>(
        &mut self,
        number: u64,
        line: Option<&[u8]>,
        writer: &mut W,
    ) -> Result<(), WriteFault> {
        match line {
            Some(line) => answer_line(
                self.protocol,
                &mut self.hub,
                &self.tickets,
                number,
                line,
                writer,
            ),
            None => put_refused(number, b"LongLine", writer),
        }
    }

    fn put_closing<W: Sink>(&self, writer: &mut W) -> Result<(), WriteFault> {
        put_closings(&self.hub, &self.tickets, writer)
    }
}

/// What the runs have come to.
fn end<D: Dues>(driven: HubSession<D>) -> HubEnd
    ensures { IsTrue result.all_done ↔ AreAllDone driven.cells }
{
    HubEnd {
        all_done: all_done(&driven.hub, &driven.tickets),
    }
}

/// Drives these cells to the end of their input, of which each piece is read into the room.
fn drive_cells<R: Source, W: BufferedSink>(
    driven: HubSession<TourneyDues>,
    room: Vec<u8>,
    reader: &mut R,
    writer: &mut W,
) -> Result<HubEnd, DriveFault>
    requires { vec_len room ≡ MAX_PIECE }
    ensures { (last : HubOfCells)
        × IsStreamed result MAX_PIECE HubAnswer HubCloses driven last
        (streams_of R.Source W.Sink W.pending reader.old writer.old)
        (streams_of R.Source W.Sink W.pending reader.new writer.new)
        × IfOk result (λ come_to. IsTrue come_to.all_done ↔ AreAllDone last.cells) }
{
    let (mut driven, mut room) = (driven, room);
    match stream(&mut driven, reader, &mut room, writer) {
        Ok(()) => Ok(end(driven)),
        Err(fault) => {
            drop(driven);
            Err(fault)
        }
    }
}

/// Drives a cell for each accepted plan, numbered from 0 in their order: takes a report on a cell from each line
/// of input, and writes the moves that it releases before the next line is answered.
///
/// Each cell is answered as by a controller alone that is given the reports on it, and so never goes wrong.
/// `Memory` is answered before the first byte is read. After a fault the plans are gone.
pub fn drive_hub<R: Source, W: BufferedSink>(
    alloc: Global,
    cells: Vec<Verified>,
    reader: &mut R,
    writer: &mut W,
) -> Result<HubEnd, DriveFault>
    ensures driven { AreDrivesIn (plain_from 0) cells.items (streams_of R.Source W.Sink W.pending reader.old writer.old)
        (streams_of R.Source W.Sink W.pending reader.new writer.new) result }
    ensures untouched { result ≡ Err DriveFault.Memory → (reader.new ≡ reader.old) × (writer.new ≡ writer.old) }
{
    let cells = lean_plans(alloc, cells)?;
    drive_hub_in(alloc, cells, Protocol::plain(), reader, writer)
}

/// The same plans, whose ranks and lengths are freed.
fn lean_plans(alloc: Global, plans: Vec<Verified>) -> Result<Vec<LeanPlan>, AllocError>
    ensures { IfOk result (λ lean. lean.items ≡ plans.items) }
{
    let mut lean = Vec::with_capacity(alloc, plans.len())?;
    for verified in plans {
        lean.push(LeanPlan::of(alloc, verified)?)
            .map_err(AllocError::from)?;
    }
    Ok(lean)
}

/// Drives a cell for each accepted plan, as [`drive_hub`] does, by this protocol.
///
/// Each cell reads and answers what a driven cell does by the protocol, after the cell's number; in version 2 of the
/// lines that stands before each refusal too by which a cell has answered. A leap counts from the last accepted report
/// of the same cell, or from `from` where that is later.
pub fn drive_hub_in<R: Source, W: BufferedSink>(
    alloc: Global,
    cells: Vec<LeanPlan>,
    protocol: Protocol,
    reader: &mut R,
    writer: &mut W,
) -> Result<HubEnd, DriveFault>
    ensures driven { AreDrivesIn protocol cells.items (streams_of R.Source W.Sink W.pending reader.old writer.old)
        (streams_of R.Source W.Sink W.pending reader.new writer.new) result }
    ensures untouched { result ≡ Err DriveFault.Memory → (reader.new ≡ reader.old) × (writer.new ≡ writer.old) }
{
    let room = match reading_room(alloc) {
        Ok(room) => room,
        Err(error) => {
            drop(cells);
            return Err(DriveFault::from(error));
        }
    };
    let begun: (HubOf<LeanPlan, TourneyDues>, Vec<Ticket>) = begin(alloc, cells)?;
    let (hub, tickets) = begun;
    let driven = HubSession {
        protocol,
        hub,
        tickets,
    };
    drive_cells(driven, room, reader, writer)
}
