//! The arc between two nodes, as an explanation shows it.

ghost use Rattle.std.specs.Prelude.{◌≡◌, ℕ, ◌<◌, ◌↔◌, IsTrue, IfOk, MatchOption};
ghost use Rattle.shop_base.specs.{Plan.steps, Plan.IsWellShaped, Graph.HasArc};
ghost use Rattle.alt_graph.specs.Sources.{IsBlockingArc};
ghost use Rattle.plan_explain.specs.Arcs.{arc_kind, job_arc_kind, blocking_arc_kind, time_of};
ghost use Rattle.plan_explain.specs.ArcLookups.{IsNext};

use crate::labels::Label;
use alt_graph::Graph;
use shop_base::{MachineNo, Moment, Node, Shaped};
use std::alloc::{AllocError, Global};
use std::marker::Model;

/// An arc of the graph, shown by machines and visits.
#[derive(Clone, Copy)]
pub(crate) enum ArcKind {
    /// From a visit of a job to its next place: the visit, its machine, and the step's nominal time.
    Job {
        visit: Label,
        machine: MachineNo,
        nominal: Moment,
    },
    /// From where a job has left a machine to where the next one enters it: the machine, the two visits, and its
    /// cleaning time.
    Blocking {
        machine: MachineNo,
        from: Label,
        to: Label,
        clean: Moment,
    },
}

impl ArcKind {
    /// How long the arc is.
    pub(crate) fn time(self) -> Moment
        ensures { result ≡ time_of self }
    {
        match self {
            ArcKind::Job {
                visit: _,
                machine: _,
                nominal,
            } => nominal,
            ArcKind::Blocking {
                machine: _,
                from: _,
                to: _,
                clean,
            } => clean,
        }
    }
}

/// The arcs of a plan: seen as the plan. Only where jobs visit machines again can two arcs join the same nodes; so only
/// of a shop with recirculation is the graph made, in which the visit ahead is looked up.
#[derive(Drop)]
pub(crate) struct Arcs<'a> {
    shaped: &'a Shaped,
    graph: Option<Graph<'a>>,
}

impl<'a> Model for Arcs<'a> {
    ghost use Rattle.shop_base.specs.Plan.{PlannedShop};

    ghost Value = { PlannedShop };

    ghost use Rattle.plan_explain.specs.ArcLookups.{IsLookedUp};

    ghost view = { λ a. a.shaped.now };

    ghost invariant = { λ a. IsLookedUp a.shaped.now a.graph };
}

impl<'a> Arcs<'a> {
    /// The arcs of a plan. Fails only when out of memory.
    pub(crate) fn new(alloc: Global, shaped: &'a Shaped) -> Result<Arcs<'a>, AllocError>
        ensures { IfOk result (λ arcs. arcs ≡ shaped.now) }
    {
        if !shaped.shop().recirculates() {
            return Ok(Arcs {
                shaped,
                graph: None,
            });
        }
        let graph = Graph::new(alloc, shaped)?;
        Ok(Arcs {
            shaped,
            graph: Some(graph),
        })
    }

    /// The arc from the one node to the other: of two the longer one, of two of one length the job's own.
    #[inline(always)]
    pub(crate) fn kind(&self, from: Node, to: Node) -> ArcKind
        requires { HasArc self.now from to }
        ensures { result ≡ arc_kind self.now from to }
    {
        if !is_next(from, to) {
            return blocking_arc(self.shaped, from, to);
        }
        let own = job_arc(self.shaped, from);
        match self.blocking_length(from, to) {
            Some(length) if own.time() < length => blocking_arc(self.shaped, from, to),
            _ => own,
        }
    }

    /// How long the order's arc from a node of a job to its next one is, if there is one.
    #[tactic(auto, using(crate::proofs::ArcFacts::never_blocked))]
    fn blocking_length(&self, from: Node, to: Node) -> Option<Moment>
        requires { IsNext from to }
        ensures length { MatchOption result ((d : ℕ) → IsBlockingArc self.now from to d → ⊥)
            (IsBlockingArc self.now from to) }
        ensures well_shaped { IsWellShaped self.now }
    {
        // Called for its clause alone: the plan is well shaped.
        let _shop = self.shaped.shop();
        match &self.graph {
            Some(graph) => length_from(graph, from, to),
            None => None,
        }
    }
}

/// Whether the second node is the next place of the first one's job.
#[inline(always)]
fn is_next(from: Node, to: Node) -> bool
    ensures { IsTrue result ↔ IsNext from to }
{
    from.job == to.job && from.place < to.place && to.place - from.place == 1
}

/// How long the order's arc from the one node to the other is, if there is one.
fn length_from(graph: &Graph<'_>, from: Node, to: Node) -> Option<Moment>
    ensures { MatchOption result ((d : ℕ) → IsBlockingArc graph.now.plan from to d → ⊥)
        (IsBlockingArc graph.now.plan from to) }
{
    match graph.blocking_source(to) {
        Some(arc) if arc.node == from => Some(arc.length),
        _ => None,
    }
}

#[inline(always)]
fn job_arc(shaped: &Shaped, from: Node) -> ArcKind
    requires { from.place < steps shaped.now from.job }
    ensures { result ≡ job_arc_kind shaped.now from }
{
    match shaped.step_of(from.job, from.place) {
        Some(step) => ArcKind::Job {
            visit: Label::of(shaped.shop(), from.job, from.place),
            machine: step.machine,
            nominal: step.nominal,
        },
        None => unreachable!(),
    }
}

#[inline(always)]
fn blocking_arc(shaped: &Shaped, from: Node, to: Node) -> ArcKind
    requires from { 0 < from.place }
    requires to { to.place < steps shaped.now to.job }
    ensures { result ≡ blocking_arc_kind shaped.now from to }
{
    let shop = shaped.shop();
    match shaped.machine_at(to.job, to.place) {
        Some(machine) => ArcKind::Blocking {
            machine,
            from: Label::of(shop, from.job, from.place - 1),
            to: Label::of(shop, to.job, to.place),
            clean: shaped.clean_of(machine),
        },
        None => unreachable!(),
    }
}
