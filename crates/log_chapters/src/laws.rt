//! The laws of a log that begins with its own texts.

// Nothing is done here: a function's contract is the law, so a check of this crate proves it.

ghost use Rattle.log_chapters.specs.ChapterLaw.{ChaptersHoldTheirTexts, ChaptersAreWholeOrNone, ChaptersRecordTheirEvents};

/// The lines behind each mark are the text with which the log was written: the instance, the plan, the names, and what each
/// job was. So a stream editor takes them from it.
pub fn chapters_hold_their_texts()
    ensures { ChaptersHoldTheirTexts }
{}

/// By its last line a log is that of its plan, and no beginning of it is the log of any plan, also with zeros behind it: it
/// has no whole line, or its last line of a plan is the one of zeros.
pub fn chapters_are_whole_or_none()
    ensures { ChaptersAreWholeOrNone }
{}

/// Its lines record its events, and nothing else: every reader of logs passes over the others.
pub fn chapters_record_their_events()
    ensures { ChaptersRecordTheirEvents }
{}
