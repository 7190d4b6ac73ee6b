ghost use Rattle.std.specs.Prelude.{◌≡◌};

use shop_base::Report;
use std::marker::Model;

/// A report that was found possible in the cell of a controller, and late there or not. Only [`crate::Core::examine`]
/// and [`crate::Core::examine_claim`] make one, and [`crate::Core::accept`] accepts it.
#[derive(Debug, Drop)]
pub struct Possible {
    pub(crate) report: Report,
    pub(crate) late: bool,
}

impl Model for Possible {
    ghost use Rattle.cell_control.specs.Examined.{ExaminedReport, examined_so};

    ghost Value = { ExaminedReport };

    ghost view = { λ j. examined_so j.report j.late };
}

impl Possible {
    /// The report.
    pub fn report(&self) -> Report
        ensures { result ≡ self.now.report }
    {
        self.report
    }

    /// Whether it is late.
    pub fn is_late(&self) -> bool
        ensures { result ≡ self.now.late }
    {
        self.late
    }
}
