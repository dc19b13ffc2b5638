//! The actions that were read so far.

ghost use Rattle.std.specs.Prelude.{◌≡◌, ◌++◌, ◌∷◌, [], length, OnOk};

use crate::TimedAct;
use optra_network::NoMemory;
use std::alloc::Global;
use std::marker::Model;

/// Actions in the order in which they were read. Contracts see it as their list.
#[derive(Drop)]
pub struct ActionList {
    actions: Vec<TimedAct>,
}

impl Model for ActionList {
    ghost use Rattle.std.specs.Prelude.{List, ⊤};
    ghost use Rattle.optra_tables.specs.declared.TimedAct.{TimedAct};

    ghost Value = { List TimedAct };

    ghost view = { λ a. a.actions.items };
}

impl ActionList {
    /// No action yet.
    pub fn new(alloc: Global) -> ActionList
        ensures { result ≡ [] }
    {
        ActionList {
            actions: Vec::new(alloc),
        }
    }

    /// How many actions there are.
    pub fn len(&self) -> usize
        ensures { result ≡ length self.now }
    {
        self.actions.len()
    }

    /// Adds an action at the end.
    pub fn push(&mut self, action: TimedAct) -> Result<(), NoMemory>
        ensures { OnOk result (self.new ≡ self.old ++ action ∷ []) }
    {
        self.actions.push(action)?;
        Ok(())
    }

    /// The actions.
    pub fn into_actions(self) -> Vec<TimedAct>
        ensures { result.items ≡ self }
    {
        self.actions
    }
}
