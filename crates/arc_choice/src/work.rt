//! The nodes that are still to be looked at. No promise rests on which these are.

use std::alloc::{AllocError, Global};
use std::collections::VecDeque;

/// Nodes, each at most once, the first that was marked in front.
#[derive(Drop)]
pub(crate) struct Queue {
    nodes: VecDeque<usize>,
    marks: Vec<bool>,
}

impl Queue {
    /// All nodes.
    fn full(alloc: Global, nodes: usize) -> Result<Queue, AllocError> {
        let marks = vec![in alloc; false; nodes]?;
        let mut queue = Queue {
            nodes: VecDeque::with_capacity(alloc, nodes)?,
            marks,
        };
        for node in 0..nodes {
            queue.mark(node);
        }
        Ok(queue)
    }

    /// The node is to be looked at.
    pub(crate) fn mark(&mut self, node: usize) {
        if node >= self.marks.len() {
            return;
        }
        if self.marks[node] {
            return;
        }
        if self.nodes.len() < self.nodes.capacity() {
            self.marks[node] = true;
            self.nodes.push_back_reserved(node);
        }
    }

    /// The next node, if there is one.
    fn pop(&mut self) -> Option<usize> {
        let node = self.nodes.pop_front()?;
        if node < self.marks.len() {
            self.marks[node] = false;
        }
        Some(node)
    }

    /// No node is left.
    fn clear(&mut self) {
        self.nodes.clear();
        for mark in self.marks.iter_mut() {
            *mark = false;
        }
    }
}

/// An end of the arcs at a node.
#[derive(Clone, Copy)]
pub(crate) enum End {
    /// They begin there.
    From(usize),
    /// They end there.
    To(usize),
}

/// The nodes whose moments have become later at the earliest, and those whose moments have become earlier at the
/// latest.
#[derive(Drop)]
pub(crate) struct Work {
    pub(crate) raised: Queue,
    pub(crate) lowered: Queue,
}

impl Work {
    /// All nodes are both.
    pub(crate) fn full(alloc: Global, nodes: usize) -> Result<Work, AllocError> {
        Ok(Work {
            raised: Queue::full(alloc, nodes)?,
            lowered: Queue::full(alloc, nodes)?,
        })
    }

    /// The arcs that are looked at next: those that begin where moments have become later, then those that end where
    /// they have become earlier.
    pub(crate) fn pop(&mut self) -> Option<End> {
        match self.raised.pop() {
            Some(node) => Some(End::From(node)),
            None => Some(End::To(self.lowered.pop()?)),
        }
    }

    /// Nothing is left to be looked at.
    pub(crate) fn clear(&mut self) {
        self.raised.clear();
        self.lowered.clear();
    }
}
