//! The laws of lines. Two laws of the lines of a driven cell, whoever writes and reads them.

// Nothing is done here: a function's contract is the law, so a check of this crate proves it.

ghost use Rattle.shop_base.specs.Plan.{PlannedShop};
ghost use Rattle.event_lines.specs.ReadBack.{WhatIsWrittenIsRead, NumberedLinesAreLines};
ghost use Rattle.event_lines.specs.ReadBack.{WrittenEntriesParse, OtherAnswersParseNone};
ghost use Rattle.event_lines.specs.ReadBack.{OneEntry, OneReport, OneCellReport, OneRequest, OneCellRequest};

/// A line is written with words: texts of bytes above 32, and numbers below 2^64 with no more digits than they may
/// have. In front of any text it is the first line, and is read as the same words. A cell's number and a space before
/// it make such a line too. For a well-shaped plan the line of an event of the shop gives that event, and the lines
/// `late`, `refused`, `done` and `unfinished` give none.
pub fn what_is_written_is_read()
    ensures words { WhatIsWrittenIsRead }
    ensures numbered { NumberedLinesAreLines }
    ensures parsed { WrittenEntriesParse }
    ensures passed_over { (p : PlannedShop) → OtherAnswersParseNone p }
{}

/// A line gives one event at most. As a line that is sent, it is one report at most, and with a cell's number one
/// report on one cell; requests likewise.
pub fn a_line_has_one_reading()
    ensures parsed { OneEntry }
    ensures sent { OneReport }
    ensures on_cells { OneCellReport }
    ensures requested { OneRequest }
    ensures requested_on_cells { OneCellRequest }
{}
