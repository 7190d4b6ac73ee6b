//! What holds up a node ahead, and until when.

ghost use Rattle.std.specs.Prelude.{◌≡◌, ◌<◌, ◌≤◌, ◌⊎◌, MatchOption, None};
ghost use Rattle.shop_base.specs.{declared.limits.TheConstants.MAX_MOMENT, Plan.jobs, Plan.steps};
ghost use Rattle.shop_base.specs.{Cell.job_in, Cell.made, Movers.due_of_job, Graph.IsNode, Ahead.{next_node, IsAhead}};
ghost use Rattle.plan_verifier.specs.CellBounds.{cleaned_at};
ghost use Rattle.plan_verifier.specs.Held.{IsHeldUp, IsBoundOf, GoesBefore, later_than, overdue_at, turn};
ghost use Rattle.plan_verifier.specs.JobHolds.{IsJobHold, IsBoundBy, job_turn};

use crate::cell_bounds::{is_next, later_of};
use cell_tables::WorkCell;
use shop_base::{JobNo, MachineNo, Moment, Node, Planned};

/// What holds up a node ahead, besides the nodes before it. Moments and times are in time units.
#[derive(Clone, Copy, Debug)]
pub enum Hold {
    /// The job hasn't arrived.
    Awaited {
        job: JobNo,
    },
    /// The job has arrived, and waits to come in.
    Arrived {
        job: JobNo,
    },
    /// The job's operation on the machine goes on since a moment, for its nominal time.
    Worked {
        job: JobNo,
        machine: MachineNo,
        since: Moment,
        nominal: Moment,
    },
    /// The job's operation on the machine is done, and the job waits for its next move.
    Done {
        job: JobNo,
        machine: MachineNo,
    },
    /// The machine that the node's job enters by it, as the next, is being cleaned since a moment, for its cleaning
    /// time.
    Cleaned {
        machine: MachineNo,
        since: Moment,
        clean: Moment,
    },
}

/// The moment before which a node ahead isn't reached, and why.
#[derive(Clone, Copy, Debug)]
pub struct NodeBound {
    /// The moment: the present one, or later when what holds the node up is due.
    pub moment: Moment,
    /// What holds it up.
    pub holds: Hold,
    /// When that was due, if it is past: it is assumed to end at the present moment.
    pub overdue: Option<Moment>,
}

/// The bound of a node, from a cell and a present moment: of all that holds it up what lasts longest. If several last
/// equally long, the bound names what goes on with the job, else the cleaning of the machine, else that the job waits.
/// `None` for a node that only nodes before it hold up, and for one that is passed.
pub(crate) fn bound_after<P: Planned>(
    cell: &WorkCell<P>,
    present: Moment,
    node: Node,
) -> Option<NodeBound>
    requires node { IsNode cell.now.plan node }
    requires in_range { present ≤ MAX_MOMENT }
    ensures { MatchOption result (IsHeldUp cell.now.plan cell.now.cell node → ⊥)
        (IsBoundOf cell.now.plan cell.now.cell present node) }
{
    // Called for its clause alone: the cell is sound.
    let _plan = cell.shaped();
    let made = cell.job_state(node.job).made;
    if node.place < made {
        return None;
    }
    let cleaned = cleaning_bound(cell, present, node);
    if made < node.place {
        return cleaned;
    }
    let own = job_bound(cell, present, node.job);
    match cleaned {
        Some(cleaned) => Some(prior_bound(own, cleaned)),
        None => Some(own),
    }
}

/// The bound of a node ahead by the cleaning of the machine that its job enters by it, if it is the next entry there and
/// the machine is being cleaned.
fn cleaning_bound<P: Planned>(cell: &WorkCell<P>, present: Moment, node: Node) -> Option<NodeBound>
    requires node { IsNode cell.now.plan node }
    requires ahead { IsAhead cell.now.cell node }
    requires in_range { present ≤ MAX_MOMENT }
    ensures { let due = cleaned_at cell.now.plan cell.now.cell node in
        MatchOption result (due ≡ None) (IsBoundBy cell.now.plan cell.now.cell present node due 1) }
{
    // Called for its clause alone: the plan is well shaped.
    let _plan = cell.shaped();
    let machine = cell.machine_at(node.job, node.place)?;
    if !is_next(cell, machine, node) {
        return None;
    }
    let since = cell.cleaned_since(machine)?;
    let clean = cell.shaped().clean_of(machine);
    let holds = Hold::Cleaned {
        machine,
        since,
        clean,
    };
    Some(bound_by(present, holds, Some(since + clean)))
}

/// The bound of a job's next node by what goes on with the job, or by the present moment if it waits.
#[tactic(auto, using(crate::proofs::Holding::bound_is))]
fn job_bound<P: Planned>(cell: &WorkCell<P>, present: Moment, job: JobNo) -> NodeBound
    requires job { job < jobs cell.now.plan }
    requires here { made cell.now.cell job ≤ steps cell.now.plan job }
    ensures { let c = cell.now.cell in
        IsBoundBy cell.now.plan c present (next_node c job) (due_of_job cell.now.plan job (job_in c job))
        (job_turn c job) result }
{
    bound_by(present, job_hold(cell, job), cell.job_due(job))
}

/// What goes on with the job, or that it waits.
#[tactic(auto, using(crate::proofs::Holding::hold_arrived, crate::proofs::Holding::hold_awaited, crate::proofs::Holding::hold_worked))]
fn job_hold<P: Planned>(cell: &WorkCell<P>, job: JobNo) -> Hold
    requires job { job < jobs cell.now.plan }
    requires here { made cell.now.cell job ≤ steps cell.now.plan job }
    ensures { IsJobHold cell.now.plan cell.now.cell job result }
{
    let state = cell.job_state(job);
    if state.made == 0 {
        return if state.ready {
            Hold::Arrived { job }
        } else {
            Hold::Awaited { job }
        };
    }
    let Some(step) = cell.shaped().step_of(job, state.made - 1) else {
        unreachable!()
    };
    let machine = step.machine;
    if state.ready {
        return Hold::Done { job, machine };
    }
    Hold::Worked {
        job,
        machine,
        since: state.since,
        nominal: step.nominal,
    }
}

/// The bound by what is due at a moment, or by what waits, which is due at none.
fn bound_by(present: Moment, holds: Hold, due: Option<Moment>) -> NodeBound
    ensures { result ≡ record { moment = later_than present due; holds = holds; overdue = overdue_at present due } }
{
    NodeBound {
        moment: later_of(present, due),
        holds,
        overdue: match due {
            Some(due) if due < present => Some(due),
            _ => None,
        },
    }
}

/// Which of two bounds is named.
fn prior_bound(one: NodeBound, other: NodeBound) -> NodeBound
    ensures { ((result ≡ one) × GoesBefore one other) ⊎ ((result ≡ other) × GoesBefore other one) }
{
    if other.moment < one.moment {
        return one;
    }
    if one.moment < other.moment {
        return other;
    }
    if turn_of(one.holds) <= turn_of(other.holds) {
        one
    } else {
        other
    }
}

/// Whose words go first where bounds are equal.
fn turn_of(holds: Hold) -> u32
    ensures { result ≡ turn holds }
{
    match holds {
        Hold::Awaited { .. } => 0,
        Hold::Worked { .. } => 0,
        Hold::Cleaned { .. } => 1,
        Hold::Arrived { .. } => 2,
        Hold::Done { .. } => 2,
    }
}
