ghost use Rattle.std.specs.Prelude.{List, [], ◌∷◌, Option};
ghost use Rattle.plan_improve.specs.Watching.{Progress, ReportsMore};

use shop_base::Moment;

/// A watcher that gets how far a search has come. It changes nothing in the search.
pub trait Watch {
    // What it got so far, in order; `None` where it doesn't say.
    ghost reported: { Self → Option (List Progress) };

    /// Called before each round, which is numbered from 0, with the total lateness (0 if no job is late) and the
    /// makespan of the best plan so far, and with a bound: whatever the orders, no makespan is less. For the rest of a
    /// run the bound is 0.
    fn round(&mut self, round: u32, late: Moment, makespan: Moment, at_least: Moment)
        ensures reported { ReportsMore (reported self.old)
            (record { round = round; cost = record { late = late; makespan = makespan }; at_least = at_least } ∷ [])
            (reported self.new) };
}
