//! How far a search is, shown on a screen.

ghost use Rattle.std.specs.Prelude.{None};

use crate::devices::Screen;
use plan_improve::Watch;
use shop_base::Moment;
use text_lines::LineText;

/// The bytes of the longest line: two numbers of 10 digits, three of 20, and the words before them.
const ROOM: usize = 119;

/// Shows each round on a screen.
#[derive(Drop)]
pub(crate) struct Progress<'a, S> {
    pub screen: &'a mut S,
    /// How many rounds there are.
    pub rounds: u32,
}

impl<S: Screen> Watch for Progress<'_, S> {
    ghost reported = { λ _. None };

    fn round(&mut self, round: u32, late: Moment, makespan: Moment, at_least: Moment) {
        let mut line: LineText<ROOM> = LineText::empty();
        if at_least > 0 {
            line.put_number(at_least);
            line.put_text(b" of at least ");
        }
        line.put_number(makespan);
        line.put_text(b" makespan ");
        line.put_number(late);
        line.put_text(b" late ");
        line.put_short_number(self.rounds);
        line.put_text(b" of ");
        line.put_short_number(round);
        line.put_text(b"round ");
        self.screen.show(line.bytes());
    }
}
