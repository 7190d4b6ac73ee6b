//! A session: a controller, begun from any cell, whose lines are read and answered by a protocol.

ghost use Rattle.std.specs.Prelude.{◌≡◌, ◌+◌, ◌≤◌, ◌∷◌, length, map};
ghost use Rattle.run_log.specs.Log.{Notes};
ghost use Rattle.byte_streams.specs.Lent.{WroteOneTo};
ghost use Rattle.cell_drive.specs.{Replies.accepted_events, Session.AnswersRequest, Session.HoldsRun};

use crate::protocol::Protocol;
use crate::replies::{put_closing, put_refused};
use crate::requests::reply_to;
use byte_streams::{LineHandler, Sink, WriteFault};
use cell_control::{Core, Dues, Report, Timed};
use cell_tables::{Claim, Entry};
use event_lines::{Request, report_of, request_of};
use run_log::RunLog;
use shop_base::MoveOrder;
use std::marker::Model;

/// A controller, the protocol by which the lines of its cell are read and answered, and the log of the whole run.
#[derive(Drop)]
pub(crate) struct Session<P: Timed, D: Dues> {
    pub protocol: Protocol,
    pub controller: Core<P, D>,
    pub log: RunLog,
}

impl<P: Timed, D: Dues> Model for Session<P, D> {
    ghost use Rattle.cell_drive.specs.Session.{SessionState, HoldsRun, session_by};

    ghost Value = { SessionState };

    ghost view = { λ s. session_by s.protocol s.controller s.log };

    ghost invariant = { λ s. HoldsRun s.controller s.log };
}

/// Notes an accepted report and the moves that it released.
fn note(log: &mut RunLog, report: Report, orders: &[MoveOrder])
    requires { length log.old.entries + (1 + length orders.now) ≤ log.old.reserved }
    ensures { Notes log.old log.new (Entry.Report report ∷ map Entry.Order orders.now) }
{
    log.note_report(report).unwrap();
    log.note_orders(orders).unwrap();
}

/// Notes the report that was accepted, if one was, and the moves that it released.
#[inline(always)]
fn note_accepted<P: Timed, D: Dues>(
    log: &mut RunLog,
    controller: &Core<P, D>,
    accepted: Option<Report>,
)
    requires { length log.old.entries + length (accepted_events controller.now accepted) ≤ log.old.reserved }
    ensures { Notes log.old log.new (accepted_events controller.now accepted) }
{
    match accepted {
        Some(report) => note(log, report, controller.orders()),
        None => {}
    }
}

/// Answers what the line of this number asks for, and notes the events that this adds.
#[inline(always)]
fn answer_request<P: Timed, D: Dues, W: Sink>(
    protocol: Protocol,
    controller: &mut Core<P, D>,
    log: &mut RunLog,
    number: u64,
    request: Request,
    writer: &mut W,
) -> Result<(), WriteFault>
    requires { HoldsRun controller.old log.old }
    ensures kept { HoldsRun controller.new log.new }
    ensures answered { WroteOneTo W.Sink result writer.old writer.new
        (AnswersRequest protocol controller.old log.old number request controller.new log.new) }
{
    let reply = reply_to(protocol, b"", number, controller, request, writer);
    note_accepted(log, controller, reply.accepted);
    reply.written
}

impl<P: Timed, D: Dues> LineHandler for Session<P, D> {
    ghost use Rattle.cell_drive.specs.Session.{SessionAnswer, SessionCloses};

    ghost answers = { SessionAnswer };

    ghost closes = { SessionCloses };

    #[inline(never)]
    fn answer<W: Sink>(
        &mut self,
        number: u64,
        line: Option<&[u8]>,
        writer: &mut W,
    ) -> Result<(), WriteFault> {
        let Some(line) = line else {
            return put_refused(number, b"LongLine", writer);
        };
        if line.is_empty() {
            return Ok(());
        }
        if self.protocol.version_2 {
            let Some(request) = request_of(line) else {
                return put_refused(number, b"BadLine", writer);
            };
            return answer_request(
                self.protocol,
                &mut self.controller,
                &mut self.log,
                number,
                request,
                writer,
            );
        }
        let Some(report) = report_of(line) else {
            return put_refused(number, b"BadLine", writer);
        };
        let request = Request::Claim(Claim::Report(report));
        answer_request(
            self.protocol,
            &mut self.controller,
            &mut self.log,
            number,
            request,
            writer,
        )
    }

    fn put_closing<W: Sink>(&self, writer: &mut W) -> Result<(), WriteFault> {
        put_closing(b"", &self.controller, writer)
    }
}
