//! The arcs at each node. No promise rests on these: they say what is looked at again once a node's moments change.

use crate::question::{Arc, Pair, Question};
use crate::work::End;
use std::alloc::{AllocError, Global};

/// An arc at a node.
#[derive(Clone, Copy)]
pub(crate) enum Link {
    /// The arc of this number.
    Given(usize),
    /// The one of this pair, which holds once it is decided.
    One(usize),
    /// The other of this pair, which holds once it is decided.
    Other(usize),
}

/// For each node the arcs that begin and those that end there.
#[derive(Drop)]
pub(crate) struct Links {
    from: Vec<Vec<Link>>,
    to: Vec<Vec<Link>>,
}

impl Links {
    /// Those of a question.
    pub(crate) fn of(alloc: Global, question: &Question) -> Result<Links, AllocError> {
        let nodes = question.first.len();
        let mut links = Links {
            from: ends(alloc, nodes)?,
            to: ends(alloc, nodes)?,
        };
        for number in 0..question.arcs.len() {
            links.add(question.arcs[number], Link::Given(number))?;
        }
        for pair in 0..question.pairs.len() {
            let Pair { one, other } = question.pairs[pair];
            links.add(one, Link::One(pair))?;
            links.add(other, Link::Other(pair))?;
        }
        Ok(links)
    }

    fn add(&mut self, arc: Arc, link: Link) -> Result<(), AllocError> {
        if let Some(links) = self.from.get_mut(arc.from as usize) {
            links.push(link)?;
        }
        if let Some(links) = self.to.get_mut(arc.to as usize) {
            links.push(link)?;
        }
        Ok(())
    }

    /// The arcs at an end of a node.
    pub(crate) fn at(&self, end: End) -> &[Link] {
        let links = match end {
            End::From(node) => self.from.get(node),
            End::To(node) => self.to.get(node),
        };
        match links {
            Some(links) => links.as_slice(),
            None => &[],
        }
    }
}

/// So many nodes without arcs.
fn ends(alloc: Global, nodes: usize) -> Result<Vec<Vec<Link>>, AllocError> {
    let mut ends = Vec::with_capacity(alloc, nodes)?;
    for _ in 0..nodes {
        ends.push(Vec::new(alloc))?;
    }
    Ok(ends)
}
