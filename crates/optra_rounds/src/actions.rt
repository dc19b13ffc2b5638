//! The actions of a round.
ghost use Rattle.std.specs.Prelude.{◌≡◌, ◌++◌, [], ◌∷◌, All, IfOk, OnOk};
ghost use Rattle.optra_auction.specs.Machine.{HasAmount, IsAuction};
ghost use Rattle.optra_rounds.specs.Rounds.{acts_after, acts_of, after_acts, asked_of, other_acts, outcomes, rows_of};

use optra_auction::{Act, Auction, Refusal, take_act};
use optra_network::NoMemory;
use optra_tables::TimedAct;
use std::alloc::Global;

/// What became of the actions of a round, and the actions of other rounds, in their order.
#[derive(Drop)]
pub struct Taken {
    /// The row of each action, and why it was refused, or `None` where it was accepted.
    pub outcomes: Vec<(u32, Option<Refusal>)>,
    pub later: Vec<TimedAct>,
}

/// Takes the actions of the auction's round, one after another in their order, and keeps the others. After `NoMemory` a first
/// part of them was taken, and the list is gone.
pub fn take_actions(
    alloc: Global,
    auction: &mut Auction,
    actions: Vec<TimedAct>,
) -> Result<Taken, NoMemory>
    requires { All (λ a. HasAmount a.act) actions.items }
    ensures outcomes { IfOk result (λ taken. taken.outcomes.items
        ≡ outcomes auction.old (acts_of auction.old.round actions.items)) }
    ensures later { IfOk result (λ taken. taken.later.items
        ≡ other_acts auction.old.round actions.items) }
    ensures after { OnOk result (auction.new ≡ after_acts auction.old (acts_of auction.old.round
        actions.items)) }
{
    let round = auction.round();
    let mut outcomes = Vec::new(alloc);
    let mut later = Vec::new(alloc);
    'actions: for action in actions {
        if action.round == round {
            let TimedAct { row, round: _, act } = action;
            let refusal = take_act(auction, act);
            outcomes.push((row, refusal))?;
        } else {
            later.push(action)?;
        }
    }
    Ok(Taken { outcomes, later })
}

/// The actions of one round, and the rows of those of later rounds, each in their order.
#[derive(Drop)]
pub struct RoundActions {
    /// The row of each action of the round.
    pub rows: Vec<u32>,
    /// What each of them asks for.
    pub acts: Vec<Act>,
    /// The row of each action of a later round.
    pub later: Vec<u32>,
}

impl RoundActions {
    /// Of no action.
    fn new(alloc: Global) -> RoundActions
        ensures rows { result.rows.items ≡ [] }
        ensures acts { result.acts.items ≡ [] }
        ensures later { result.later.items ≡ [] }
    {
        RoundActions {
            rows: Vec::new(alloc),
            acts: Vec::new(alloc),
            later: Vec::new(alloc),
        }
    }
}

/// The actions of a round apart, to be taken later, and the rows of those of later rounds. Actions of earlier rounds are left out.
pub fn round_actions(
    alloc: Global,
    round: u16,
    actions: Vec<TimedAct>,
) -> Result<RoundActions, NoMemory>
    requires { All (λ a. HasAmount a.act) actions.items }
    ensures rows { IfOk result (λ parts. parts.rows.items ≡ rows_of (acts_of round actions.items)) }
    ensures acts { IfOk result (λ parts. parts.acts.items ≡ asked_of (acts_of round actions.items)) }
    ensures later { IfOk result (λ parts. parts.later.items
        ≡ rows_of (acts_after round actions.items)) }
    ensures amounts { IfOk result (λ parts. All HasAmount parts.acts.items) }
{
    let mut parts = RoundActions::new(alloc);
    'actions: for action in actions {
        let TimedAct {
            row,
            round: own,
            act,
        } = action;
        if own == round {
            parts.rows.push(row)?;
            parts.acts.push(act)?;
        } else if own > round {
            parts.later.push(row)?;
        }
    }
    Ok(parts)
}

/// The rows of actions.
pub fn rows_of(alloc: Global, actions: &[TimedAct]) -> Result<Vec<u32>, NoMemory>
    ensures { IfOk result (λ rows. rows.items ≡ rows_of actions.now) }
{
    let mut rows = Vec::with_capacity(alloc, actions.len())?;
    'actions: for action in actions {
        rows.push(action.row)?;
    }
    Ok(rows)
}
