//! A run that is driven from its start to the end of its input.

ghost use Rattle.std.specs.Prelude.{◌≡◌, ◌≢◌, ◌↔◌, Err, IfOk, IsTrue};
ghost use Rattle.shop_base.specs.Ends.{HasEnded};
ghost use Rattle.byte_streams.specs.Lent.{streams_of};
ghost use Rattle.plan_verifier.specs.Accepted.{IsVerified};
ghost use Rattle.cell_control.specs.Control.{verified_in};
ghost use Rattle.cell_drive.specs.{Protocols.plain_from, Session.HoldsRun, Session.session_start};
ghost use Rattle.cell_drive.specs.InProtocol.{IsDriveIn, begun_in};

use crate::protocol::Protocol;
use crate::session::Session;
use byte_streams::{BufferedSink, DriveFault, Source, reading_room, stream};
use cell_control::{Controller, TourneyDues};
use plan_verifier::Verified;
use run_log::RunLog;
use shop_base::Moment;
use std::alloc::{AllocError, Global};
use std::marker::Model;

/// What a driven run has come to at the end of its input.
#[derive(Debug, Drop)]
pub struct DriveEnd {
    /// Whether the run has ended: all jobs are gone, and no machine is being cleaned.
    pub done: bool,
    /// The moment of the last accepted report, 0 before the first.
    pub last: Moment,
    /// How many reports are still to come.
    pub left: u64,
    /// What was accepted and ordered.
    pub log: RunLog,
    /// The plan.
    pub verified: Verified,
}

/// A run that has begun, with all the memory that driving it takes.
#[derive(Drop)]
pub struct Begun {
    session: Session<Verified, TourneyDues>,
    /// Where what is read lies at a time.
    room: Vec<u8>,
}

impl Model for Begun {
    ghost use Rattle.std.specs.Prelude.{◌≡◌, vec_len};
    ghost use Rattle.byte_streams.specs.declared.rooms.TheConstants.{MAX_PIECE};
    ghost use Rattle.cell_drive.specs.InProtocol.{BegunRun, IsUndriven, begun_by};

    ghost Value = { BegunRun };

    ghost view = { λ b. begun_by b.session };

    ghost invariant = { λ b. IsUndriven b.session × (vec_len b.room ≡ MAX_PIECE) };
}

impl Begun {
    /// The plan.
    pub fn verified(&self) -> &Verified
        ensures plan { result.now ≡ self.now.verified }
        ensures verified { IsVerified self.now.verified }
    {
        self.session.controller.verified()
    }
}

/// The session of an accepted plan before the first report, with an empty log.
fn begin(
    alloc: Global,
    verified: Verified,
    protocol: Protocol,
) -> Result<Session<Verified, TourneyDues>, AllocError>
    ensures { IfOk result (λ session. session ≡ session_start protocol verified) }
{
    let log = match RunLog::for_run(alloc, &verified) {
        Ok(log) => log,
        Err(error) => {
            drop(verified);
            return Err(error);
        }
    };
    match Controller::new(alloc, verified) {
        Ok(controller) => {
            // Called for its clauses alone: what holds of every such controller.
            let _plan = controller.verified();
            Ok(Session {
                protocol,
                controller,
                log,
            })
        }
        Err((error, verified)) => {
            drop(verified);
            Err(error)
        }
    }
}

/// What the run has come to.
fn end(session: Session<Verified, TourneyDues>) -> DriveEnd
    ensures kept { HoldsRun session.control session.log }
    ensures log { result.log ≡ session.log }
    ensures plan { result.verified ≡ verified_in session.control }
    ensures verified { IsVerified (verified_in session.control) }
    ensures done { IsTrue result.done ↔ HasEnded session.control.planned session.control.cell }
    ensures last { result.last ≡ session.control.cell.last }
    ensures left { result.left ≡ session.control.left }
{
    let Session {
        protocol: _,
        controller,
        log,
    } = session;
    // Called for its clauses alone: the plan is an accepted one.
    let _plan = controller.verified();
    DriveEnd {
        done: controller.is_done(),
        last: controller.now(),
        left: controller.reports_left(),
        log,
        verified: controller.into_verified(),
    }
}

/// Drives the cell of an accepted plan: takes a report from each line of input, and answers it by the moves that it
/// releases before it waits for the next line. The closing line says whether the run is done.
///
/// The lines are `arrive JOB MOMENT`, `finish JOB MACHINE MOMENT` and `clean MACHINE MOMENT`. What isn't possible is
/// refused by a line of its own, and changes nothing. A run that is done goes on to the end of its input.
///
/// `Memory` is answered before the first byte is read. A closing line is written only where nothing has failed before
/// it; of one whose own write fails the first bytes may be out. After a fault the plan is gone.
pub fn drive<R: Source, W: BufferedSink>(
    alloc: Global,
    verified: Verified,
    reader: &mut R,
    writer: &mut W,
) -> Result<DriveEnd, DriveFault>
    ensures driven { IsDriveIn (plain_from 0) verified (streams_of R.Source W.Sink W.pending reader.old writer.old)
        (streams_of R.Source W.Sink W.pending reader.new writer.new) result }
    ensures untouched { result ≡ Err DriveFault.Memory → (reader.new ≡ reader.old) × (writer.new ≡ writer.old) }
{
    drive_in(alloc, verified, Protocol::plain(), reader, writer)
}

/// Begins the run of an accepted plan, to be driven by this protocol.
///
/// In version 2 of the lines there are `clean MACHINE JOB MOMENT`, the cleaning after that job, and `status`, which
/// asks for the state; each refusal and each late report is written with what the controller has, and `done MOMENT` at
/// once. A report whose moment is further than `max_gap` from the last accepted one, or from `from` where that is
/// later, is refused as `Leap`, after `Backwards` in the order of reasons.
///
/// All memory is allocated here.
pub fn begin_in(alloc: Global, verified: Verified, protocol: Protocol) -> Result<Begun, AllocError>
    ensures { IfOk result (λ begun. begun ≡ begun_in protocol verified) }
{
    let room = match reading_room(alloc) {
        Ok(room) => room,
        Err(error) => {
            drop(verified);
            return Err(error);
        }
    };
    let session = begin(alloc, verified, protocol)?;
    Ok(Begun { session, room })
}

/// Drives a run that has begun, as [`drive`] does, by its protocol. `Memory` is never answered.
pub fn drive_begun<R: Source, W: BufferedSink>(
    begun: Begun,
    reader: &mut R,
    writer: &mut W,
) -> Result<DriveEnd, DriveFault>
    ensures driven { IsDriveIn begun.protocol begun.verified
        (streams_of R.Source W.Sink W.pending reader.old writer.old)
        (streams_of R.Source W.Sink W.pending reader.new writer.new) result }
    ensures memory { result ≢ Err DriveFault.Memory }
{
    let Begun {
        mut session,
        mut room,
    } = begun;
    match stream(&mut session, reader, &mut room, writer) {
        Ok(()) => Ok(end(session)),
        Err(fault) => {
            drop(session);
            Err(fault)
        }
    }
}

/// Drives the cell of an accepted plan, as [`drive`] does, by this protocol, as [`begin_in`] says of it.
pub fn drive_in<R: Source, W: BufferedSink>(
    alloc: Global,
    verified: Verified,
    protocol: Protocol,
    reader: &mut R,
    writer: &mut W,
) -> Result<DriveEnd, DriveFault>
    ensures driven { IsDriveIn protocol verified (streams_of R.Source W.Sink W.pending reader.old writer.old)
        (streams_of R.Source W.Sink W.pending reader.new writer.new) result }
    ensures untouched { result ≡ Err DriveFault.Memory → (reader.new ≡ reader.old) × (writer.new ≡ writer.old) }
{
    match begin_in(alloc, verified, protocol) {
        Ok(begun) => drive_begun(begun, reader, writer),
        Err(error) => Err(DriveFault::from(error)),
    }
}
