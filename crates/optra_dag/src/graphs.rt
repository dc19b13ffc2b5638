//! Graphs whose arcs lead forward, as flat arrays.
ghost use Rattle.std.specs.Prelude.{◌≡◌, ℕ, ◌+◌, ◌-◌, ◌<◌, ◌≤◌, ◌^◌, [], ◌∷◌, ◌++◌, length, replicate, All, slice_set, IfOk, OnErr, OnOk, IfSome, true, false};
ghost use Rattle.optra_dag.specs.Paths.{IsForward};

use crate::arcs::Arcs;
use crate::ends::Ends;
use crate::{Arc, NoMemory};
use std::alloc::Global;
use std::marker::Model;

/// A directed graph. Its nodes are numbered from 0, the start; some of them are ends. Its arcs are numbered
/// from 0 in the order in which they were added, lead from lower to higher nodes, and stand in the order of
/// the nodes that they leave.
#[derive(Drop)]
pub struct Dag {
    pub(crate) arcs: Arcs,
    pub(crate) ends: Vec<bool>,
    /// No node before this one is an end.
    pub(crate) first_end: u32,
    /// For each node up to the last one that has arcs the number at which its arcs begin. They end where those of the
    /// next node begin.
    pub(crate) starts: Vec<u32>,
}

impl Model for Dag {
    ghost use Rattle.optra_dag.specs.Paths.{Graph};

    ghost Value = { Graph };

    ghost use Rattle.optra_dag.specs.GraphParts.{graph_of, IsWhole};

    ghost view = { graph_of };

    ghost invariant = { IsWhole };
}

impl Dag {
    /// A graph of so many nodes with no arc and no end.
    pub fn new(alloc: Global, nodes: u32) -> Result<Dag, NoMemory>
        requires { 0 < nodes }
        ensures { IfOk result (λ dag. (dag.arcs ≡ []) × (dag.ends ≡ replicate nodes false)) }
    {
        Ok(Dag {
            arcs: Arcs::new(alloc),
            ends: vec![in alloc; false; nodes as usize]?,
            first_end: nodes,
            starts: Vec::with_capacity(alloc, nodes as usize)?,
        })
    }

    /// Makes room for so many more arcs between nodes below 65,536 at once, no more than that; the graph stays as it is.
    pub fn reserve(&mut self, arcs: usize) -> Result<(), NoMemory>
        ensures { self.new ≡ self.old }
    {
        self.arcs.reserve_exact(arcs)
    }

    /// Adds an arc, and gives its number, the count of arcs before the call. The arc must lead to a later node,
    /// no arc may leave a later node than it does, and there is room for 4,294,967,295 arcs.
    #[inline(always)]
    pub fn arc(&mut self, from: u32, to: u32) -> Result<u32, NoMemory>
        requires forward { from < to }
        requires node { to < length self.old.ends }
        requires sorted { All (λ before. before.from ≤ from) self.old.arcs }
        requires room { length self.old.arcs < 2 ^ 32 - 1 }
        ensures number { IfOk result (λ number. number ≡ length self.old.arcs) }
        ensures ok { OnOk result (self.new.arcs ≡ self.old.arcs ++ record { from = from; to = to }
            ∷ []) }
        ensures ends { self.new.ends ≡ self.old.ends }
        ensures err { OnErr result (self.new ≡ self.old) }
    {
        let number = self.arcs.len() as u32;
        let started = self.starts.len();
        start_up_to(&mut self.starts, from, number)?;
        if let Err(refused) = self.arcs.push(Arc { from, to }) {
            self.starts.truncate(started);
            return Err(refused);
        }
        Ok(number)
    }

    /// Makes the node an end.
    pub fn set_end(&mut self, node: u32)
        requires { node < length self.old.ends }
        ensures ends { self.new.ends ≡ slice_set self.old.ends node true }
        ensures arcs { self.new.arcs ≡ self.old.arcs }
    {
        self.ends[node as usize] = true;
        self.first_end = self.first_end.min(node);
    }

    /// Which nodes are ends, to be read.
    pub(crate) fn ends(&self) -> Ends<'_>
        ensures { result ≡ self.now.ends }
    {
        Ends {
            flags: &self.ends,
            first: self.first_end,
        }
    }

    /// The count of arcs. What every graph keeps is known here too.
    pub fn arcs(&self) -> u32
        ensures count { result ≡ length self.now.arcs }
        ensures forward { IsForward self.now }
    {
        self.arcs.len() as u32
    }
}

/// Lets the nodes up to this one that have no start yet start at the arc of this number.
fn start_up_to(starts: &mut Vec<u32>, node: u32, arc: u32) -> Result<(), NoMemory>
    ensures ok { OnOk result (starts.new.items ≡ starts.old.items
        ++ replicate (node + 1 - length starts.old.items) arc) }
    ensures err { OnErr result (starts.new.items ≡ starts.old.items) }
{
    if node as usize >= starts.len() {
        starts.resize(node as usize + 1, arc)?;
    }
    Ok(())
}
