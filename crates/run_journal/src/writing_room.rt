use crate::logged::MAX_PENDING;
use crate::selection::DECIDING;
use std::alloc::{AllocError, Global};
use std::marker::Model;

/// All memory of an output with a log: the room for what it gathers, for what the log gets of that, and for the
/// first bytes of a line. So it can be had before
/// the log is touched. One is as good as any other.
#[derive(Drop)]
pub struct WritingRoom {
    pub(crate) buffered: Vec<u8>,
    pub(crate) events: Vec<u8>,
    pub(crate) front: Vec<u8>,
}

impl Model for WritingRoom {
    ghost use Rattle.std.specs.Prelude.{◌≡◌, ◌+◌, ◌≤◌, [], vec_capacity};
    ghost use Rattle.run_journal.specs.declared.logged.TheConstants.{MAX_PENDING};
    ghost use Rattle.run_journal.specs.declared.selection.TheConstants.{DECIDING};

    ghost Value = { Unit {0} };

    ghost view = { λ r. tt };

    ghost invariant = { λ r. (r.buffered.items ≡ []) × (MAX_PENDING ≤ vec_capacity r.buffered)
        × (MAX_PENDING + DECIDING ≤ vec_capacity r.events) × (r.front.items ≡ []) × (DECIDING ≤ vec_capacity r.front) };
}

impl WritingRoom {
    /// Such a room.
    pub fn new(alloc: Global) -> Result<WritingRoom, AllocError> {
        let buffered = Vec::with_capacity(alloc, MAX_PENDING)?;
        let events = Vec::with_capacity(alloc, MAX_PENDING + DECIDING)?;
        let front = Vec::with_capacity(alloc, DECIDING)?;
        Ok(WritingRoom {
            buffered,
            events,
            front,
        })
    }
}
