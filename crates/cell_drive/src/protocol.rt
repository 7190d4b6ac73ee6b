//! By which protocol a cell is driven.

ghost use Rattle.std.specs.Prelude.{◌≡◌};
ghost use Rattle.cell_drive.specs.Protocols.{leap_base, leaps, plain_from};

use shop_base::Moment;

/// By which protocol a cell is driven: which version of the lines it reads and writes, and which moments it refuses.
#[derive(Clone, Copy, Debug, PartialEq, Eq)]
pub struct Protocol {
    /// Version 2 of the lines: more can be asked for, and the answers say more. Else it is version 1.
    pub version_2: bool,
    /// The longest time that may pass to a report from the last accepted one, or from `from` where that is later;
    /// without one any may.
    pub max_gap: Option<Moment>,
    /// The moment from which a run goes on that was recovered, 0 for one that begins.
    pub from: Moment,
}

impl Protocol {
    /// The plain one: version 1 of the lines, and no moment leaps.
    pub fn plain() -> Protocol
        ensures { result ≡ plain_from 0 }
    {
        Protocol {
            version_2: false,
            max_gap: None,
            from: 0,
        }
    }

    /// The moment from which a leap counts, if `last` is the moment of the last accepted report.
    pub(crate) fn leap_base(self, last: Moment) -> Moment
        ensures { result ≡ leap_base self last }
    {
        if last < self.from { self.from } else { last }
    }

    /// Whether a report at this moment is a leap, if `last` is the moment of the last accepted one.
    pub(crate) fn leaps(self, last: Moment, at: Moment) -> bool
        ensures { result ≡ leaps self last at }
    {
        match self.max_gap {
            Some(max_gap) => max_gap < at.saturating_sub(self.leap_base(last)),
            None => false,
        }
    }
}
