//! How many choices a search has made, shown on a screen.

use crate::devices::Screen;
use plan_decide::{Watch, Within};
use text_lines::LineText;

/// The bytes of the longest line: four numbers of 20 digits, and the words before them.
const ROOM: usize = 111;

/// A line is shown once in so many choices.
const BETWEEN: u64 = 500;

/// Shows on a screen how many choices a search has made.
#[derive(Drop)]
pub(crate) struct ChoiceProgress<'a, S> {
    pub screen: &'a mut S,
}

impl<S: Screen> Watch for ChoiceProgress<'_, S> {
    fn choice(&mut self, choices: u64, limit: u64, found: Option<Within>) {
        if choices % BETWEEN != 0 {
            return;
        }
        let mut line: LineText<ROOM> = LineText::empty();
        if let Some(within) = found {
            line.put_number(within.at_most);
            line.put_text(b" at most ");
            line.put_number(within.at_least);
            line.put_text(b" at least ");
        }
        line.put_number(limit);
        line.put_text(b" of ");
        line.put_number(choices);
        line.put_text(b"choices ");
        self.screen.show(line.bytes());
    }
}
