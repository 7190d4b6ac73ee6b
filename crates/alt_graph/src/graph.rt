//! The graph of a planned shop, as one value.

ghost use Rattle.std.specs.Prelude.{◌≡◌, IfOk, slice_index};
ghost use Rattle.shop_base.specs.Plan.{jobs, IsWellShaped};
ghost use Rattle.shop_base.specs.Graph.{IsNode};
ghost use Rattle.alt_graph.specs.Layout.{number_of};
ghost use Rattle.alt_graph.specs.PlanGraph.{IsGraphOf, IsSoundGraph};

use crate::lookups::Lookups;
use crate::numbers::number;
use shop_base::{Node, Shaped};
use std::alloc::{AllocError, Global};
use std::marker::Model;

/// The graph of a planned shop, with what is looked up in it: seen as the plan and the numbers of the jobs'
/// first nodes.
#[derive(Drop)]
pub struct Graph<'a> {
    shaped: &'a Shaped,
    pub(crate) lookups: Lookups,
}

impl<'a> Model for Graph<'a> {
    ghost use Rattle.alt_graph.specs.PlanGraph.{PlanGraph};

    ghost Value = { PlanGraph };

    ghost use Rattle.alt_graph.specs.Lookups.{AreLookups};

    ghost view = { λ g. record { plan = g.shaped.now; firsts = g.lookups.firsts.items } };

    ghost invariant = { λ g. AreLookups g.shaped.now g.lookups };
}

impl<'a> Graph<'a> {
    /// The graph of a planned shop, in time and memory linear in its nodes and machines. Fails only when out of memory.
    pub fn new(alloc: Global, shaped: &'a Shaped) -> Result<Graph<'a>, AllocError>
        ensures graph { IfOk result (IsGraphOf shaped.now) }
        ensures well_shaped { IsWellShaped shaped.now }
    {
        let lookups = Lookups::new(alloc, shaped)?;
        Ok(Graph { shaped, lookups })
    }

    /// The planned shop.
    pub fn shaped(&self) -> &'a Shaped
        ensures plan { result.now ≡ self.now.plan }
        ensures sound { IsSoundGraph self.now }
    {
        self.shaped
    }

    /// How many nodes there are.
    pub fn node_count(&self) -> usize
        ensures count { result ≡ slice_index self.now.firsts (jobs self.now.plan) }
        ensures sound { IsSoundGraph self.now }
    {
        self.lookups.firsts[self.shaped.job_count() as usize] as usize
    }

    /// The number of a node: the nodes are counted job after job, and within a job by place.
    pub fn number(&self, node: Node) -> usize
        requires { IsNode self.now.plan node }
        ensures number { result ≡ number_of self.now.firsts node }
        ensures sound { IsSoundGraph self.now }
    {
        number(&self.lookups.firsts, node)
    }

    /// The numbers of the jobs' first nodes, taken out.
    pub(crate) fn into_firsts(self) -> Vec<u32>
        ensures { result.items ≡ self.entry.firsts }
    {
        let Graph { lookups, .. } = self;
        let Lookups { firsts, .. } = lookups;
        firsts
    }
}
