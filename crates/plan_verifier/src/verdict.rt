ghost use Rattle.std.specs.Prelude.{◌≡◌};
ghost use Rattle.plan_verifier.specs.{Accepted.IsVerified, Seen.judged, Seen.as_rest, Verdicts.OnAccepted};

use crate::verified::Verified;
use alt_graph::Times;
use shop_base::{JobNo, Moment, Node, Shaped};

/// The verdict on a plan.
#[derive(Debug, Drop)]
pub enum Verdict {
    /// There is no cycle, and no path to a job's leaving is longer than its budget. So a controlled run never
    /// gets stuck, and while no report of it is late, each job is out by its budget, or its budget isn't past yet.
    Accepted(Verified),
    /// No run brings all jobs out, or a job can't be out by its budget where each activity takes its nominal time.
    /// The plan comes back with the evidence.
    Refused(Shaped, Why),
}

/// The verdict on what is ahead of a cell, by a plan that is borrowed: on the rest of a run, from a present moment on,
/// or on a whole plan.
#[derive(Debug, Drop)]
pub enum Judged {
    /// There is no cycle, and no path ahead to the leaving of a job that isn't gone is longer than its budget:
    /// the ranks of all nodes, and the earliest moments of those ahead.
    Accepted(Times),
    /// There is such a cycle, which lies ahead, or such a path.
    Refused(Why),
}

/// The evidence for a refusal.
#[derive(Debug, Drop)]
pub enum Why {
    /// A cycle of the graph, from its least node on, an arc from each node to the next and from the last to
    /// the first: each of these moves waits for the one before it, so none of them is ever made.
    Cycle(Vec<Node>),
    /// The first job that can't be out by its budget where each activity takes its full time, the earliest
    /// moment at which it can then leave, and a path of that length to its leaving: each move of it waits for
    /// the one before it. Of the rest of a run the job isn't gone, and the path lies ahead. Beside them the ranks
    /// and the earliest moments of all nodes, from which the leaving of every job can be read.
    Late {
        job: JobNo,
        leaves: Moment,
        chain: Vec<Node>,
        times: Times,
    },
}

impl Verdict {
    /// The plan that is judged.
    pub fn shaped(&self) -> &Shaped
        ensures { result.now ≡ judged self.now }
    {
        match self {
            Verdict::Accepted(verified) => verified.shaped(),
            Verdict::Refused(shaped, _) => shaped,
        }
    }

    /// The plan that is judged, and what is said of it as of the rest of a run that hasn't begun.
    pub fn into_parts(self) -> (Shaped, Judged)
        ensures plan { result.0 ≡ judged self }
        ensures same { result.1 ≡ as_rest self }
        ensures verified { OnAccepted IsVerified self }
    {
        match self {
            Verdict::Accepted(verified) => {
                let (shaped, times) = verified.into_parts();
                (shaped, Judged::Accepted(times))
            }
            Verdict::Refused(shaped, why) => (shaped, Judged::Refused(why)),
        }
    }
}
