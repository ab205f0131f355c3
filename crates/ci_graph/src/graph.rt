//! The graph of a pipeline's jobs.

ghost use Rattle.std.specs.Prelude.{◌≡◌, ◌+◌, ◌<◌, ◌≤◌, ℕ, List, length, slice_index, IfOk, IfErr, OnOk};
ghost use Rattle.ci_graph.specs.JobGraph.{JobGraph, IsJobGraph, HasPairs, IsFaultOf, part_at, predecessors_of, successors_of};
ghost use Rattle.ci_graph.specs.Pairs.{AreWithin, IsAcyclic};

use crate::neighbours::neighbours;
use crate::order::order_of;
use crate::part::{GraphFault, Part};
use crate::positions::Positions;
use std::alloc::Global;
use std::marker::{Brand, Model};
use std::sync::ledger::{Blank, Book, Ledger, Share};

/// The jobs' parts and the pairs of predecessor and job. Each edge that it hands out counts: contracts see how many it
/// handed out so far, its `meter`.
#[derive(Drop)]
pub struct Graph<L: Ledger = Brand> {
    parts: Vec<Part>,
    predecessors: Vec<Positions>,
    successors: Vec<Positions>,
    order: Vec<usize>,
    book: Book<L>,
    share: Share<L>,
}

impl<L: Ledger> Model for Graph<L> {
    ghost use Rattle.std.specs.Prelude.{ℕ, List, ◌<◌};
    ghost use Rattle.ci_graph.specs.JobGraph.{JobGraph, IsJobGraph};

    ghost Value = { JobGraph };

    ghost view = { λ g. record { parts = g.parts.items; predecessors = g.predecessors.items; successors = g.successors.items; order = g.order.items; meter = g.book.total } };

    ghost invariant = { λ g. (0 < g.share.parts) × IsJobGraph (record { parts = g.parts.items; predecessors = g.predecessors.items; successors = g.successors.items; order = g.order.items; meter = g.book.total }) };
}

/// A graph without a meter, as it is kept from one use of it to the next.
#[derive(Drop)]
pub struct Net {
    parts: Vec<Part>,
    predecessors: Vec<Positions>,
    successors: Vec<Positions>,
    order: Vec<usize>,
}

impl Model for Net {
    ghost use Rattle.ci_graph.specs.JobGraph.{JobGraph, IsJobGraph};

    ghost Value = { JobGraph };

    ghost view = { λ n. record { parts = n.parts.items; predecessors = n.predecessors.items; successors = n.successors.items; order = n.order.items; meter = 0 } };

    ghost invariant = { λ n. IsJobGraph (record { parts = n.parts.items; predecessors = n.predecessors.items; successors = n.successors.items; order = n.order.items; meter = 0 }) };
}

impl Net {
    /// The number of jobs.
    pub fn size(&self) -> usize
        ensures { result ≡ length self.now.parts }
    {
        self.parts.len()
    }
}

impl<L: Ledger> Graph<L> {
    /// The graph of these parts and pairs of a predecessor and a job; G3 where a walk along the pairs returns to its
    /// start. A pair that comes again counts once. The blank makes the meter.
    pub fn new(
        alloc: Global,
        blank: Blank,
        parts: Vec<Part>,
        pairs: &[(usize, usize)],
    ) -> Result<Graph<L>, GraphFault>
        requires name { blank.name ≡ L.name }
        requires ledger { blank.parts ≡ L.parts }
        requires some { 0 < blank.parts }
        requires within { AreWithin (length parts.items) pairs.now }
        ensures parts { IfOk result (λ g. g.parts ≡ parts.items) }
        ensures meter { IfOk result (λ g. g.meter ≡ 0) }
        ensures pairs { IfOk result (λ g. HasPairs g pairs.now) }
        ensures acyclic { OnOk result (IsAcyclic pairs.now) }
        ensures fault { IfErr result (λ f. IsFaultOf pairs.now f) }
    {
        let Ok((predecessors, successors)) = neighbours(alloc, parts.len(), pairs) else {
            return Err(GraphFault::Memory);
        };
        match order_of(alloc, predecessors.as_slice(), successors.as_slice()) {
            Ok(Some(order)) => {
                let (book, share) = blank.open::<L>();
                Ok(Graph {
                    parts,
                    predecessors,
                    successors,
                    order,
                    book,
                    share,
                })
            }
            Ok(None) => Err(GraphFault::G3),
            Err(_) => Err(GraphFault::Memory),
        }
    }

    /// A graph that was kept, with a meter of its own, which the blank makes.
    pub fn of_net(blank: Blank, net: Net) -> Graph<L>
        requires name { blank.name ≡ L.name }
        requires ledger { blank.parts ≡ L.parts }
        requires some { 0 < blank.parts }
        ensures { result ≡ record net { meter = 0 } }
    {
        let Net {
            parts,
            predecessors,
            successors,
            order,
        } = net;
        let (book, share) = blank.open::<L>();
        Graph {
            parts,
            predecessors,
            successors,
            order,
            book,
            share,
        }
    }

    /// The graph without its meter.
    pub fn into_net(self) -> Net
        ensures { result ≡ record self { meter = 0 } }
    {
        let Graph {
            parts,
            predecessors,
            successors,
            order,
            ..
        } = self;
        Net {
            parts,
            predecessors,
            successors,
            order,
        }
    }

    /// The number of jobs.
    pub fn size(&self) -> usize
        ensures size { result ≡ length self.now.parts }
        ensures graph { IsJobGraph self.now }
    {
        self.parts.len()
    }

    /// The part of each job, by position.
    pub fn parts(&self) -> &[Part]
        ensures { result.now ≡ self.now.parts }
    {
        self.parts.as_slice()
    }

    /// The part of the job at a position.
    pub fn part(&self, j: usize) -> &Part
        requires { j < length self.now.parts }
        ensures { result.now ≡ part_at self.now j }
    {
        &self.parts[j]
    }

    /// How many predecessors a job has.
    pub fn in_count(&self, j: usize) -> usize
        requires { j < length self.now.parts }
        ensures { result ≡ length (predecessors_of self.now j) }
    {
        self.predecessors[j].len()
    }

    /// How many successors a job has.
    pub fn out_count(&self, j: usize) -> usize
        requires { j < length self.now.parts }
        ensures { result ≡ length (successors_of self.now j) }
    {
        self.successors[j].len()
    }

    /// Counts an edge that is handed out.
    fn count_edge(&mut self)
        ensures { self.new ≡ record self.old { meter = self.old.meter + 1 } }
    {
        self.book.add(&mut self.share, 1);
    }

    /// The k-th predecessor of a job, from 0. It counts as one edge handed out.
    pub fn pred(&mut self, j: usize, k: usize) -> usize
        requires job { j < length self.old.parts }
        requires place { k < length (predecessors_of self.old j) }
        ensures value { result ≡ slice_index (predecessors_of self.old j) k }
        ensures meter { self.new ≡ record self.old { meter = self.old.meter + 1 } }
    {
        self.count_edge();
        self.predecessors[j].at(k)
    }

    /// The k-th successor of a job, from 0. It counts as one edge handed out.
    pub fn succ(&mut self, j: usize, k: usize) -> usize
        requires job { j < length self.old.parts }
        requires place { k < length (successors_of self.old j) }
        ensures value { result ≡ slice_index (successors_of self.old j) k }
        ensures meter { self.new ≡ record self.old { meter = self.old.meter + 1 } }
    {
        self.count_edge();
        self.successors[j].at(k)
    }

    /// The positions in an order in which each comes after its predecessors.
    pub fn order(&self) -> &[usize]
        ensures order { result.now ≡ self.now.order }
        ensures graph { IsJobGraph self.now }
    {
        self.order.as_slice()
    }
}
