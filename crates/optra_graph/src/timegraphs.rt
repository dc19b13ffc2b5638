//! Time-expanded graphs.
ghost use Rattle.std.specs.Prelude.{◌≡◌, ◌<◌, length, IfOk};

use crate::legs::Legs;
use optra_dag::Dag;
use optra_network::{Minute, NoMemory};
use optra_walk::{Leg, Walk};
use std::alloc::Global;
use std::marker::Model;

/// The graph of a bid, made by `build` alone. Its start arcs come first; each other arc has a leg.
#[derive(Drop)]
pub struct TimeGraph {
    pub(crate) dag: Dag,
    pub(crate) minutes: Vec<Minute>,
    pub(crate) legs: Legs,
}

impl Model for TimeGraph {
    ghost use Rattle.optra_graph.specs.Timed.{Timed};

    ghost Value = { Timed };

    ghost use Rattle.optra_graph.specs.Timed.{IsLaidOut};
    ghost use Rattle.optra_graph.specs.TimedParts.{timed_of};

    ghost view = { timed_of };

    ghost invariant = { λ a. IsLaidOut (timed_of a) };
}

impl TimeGraph {
    ghost use Rattle.optra_graph.specs.Timed.{leg_of, start_of, walk_of, IsRoute};

    /// The graph itself, on which paths are searched.
    pub fn dag(&self) -> &Dag
        ensures { result.now ≡ self.now.dag }
    {
        &self.dag
    }

    /// The leg of an arc, and `None` exactly for a start arc.
    pub fn leg(&self, arc: u32) -> Option<Leg>
        requires { arc < length self.now.dag.arcs }
        ensures { result ≡ leg_of self.now arc }
    {
        let arc = arc as usize;
        if arc < self.minutes.len() {
            None
        } else {
            Some(self.legs.at(arc - self.minutes.len()))
        }
    }

    /// The departure minute of a start arc, and `None` exactly for another arc.
    pub fn start(&self, arc: u32) -> Option<Minute>
        requires { arc < length self.now.dag.arcs }
        ensures { result ≡ start_of self.now arc }
    {
        self.minutes.get(arc as usize).copied()
    }

    /// The walk of a path from the start to an end: the legs of its arcs after the first.
    pub fn walk_of(&self, alloc: Global, path: &[u32]) -> Result<Walk, NoMemory>
        requires { IsRoute self.now path.now }
        ensures { IfOk result (λ walk. walk ≡ walk_of self.now path.now) }
    {
        let starts = self.minutes.len();
        let mut legs = Vec::new(alloc);
        legs.reserve_exact(path.len())?;
        for arc in path {
            let arc = *arc as usize;
            if arc < starts {
                continue;
            }
            legs.push(self.legs.at(arc - starts))?;
        }
        Ok(Walk { legs })
    }
}
