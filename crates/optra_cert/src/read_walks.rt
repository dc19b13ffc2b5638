//! The legs of a certificate, as they are read.
ghost use Rattle.std.specs.Prelude.{◌≡◌, ◌<◌, ◌++◌, ◌∷◌, [], length, unwrap_or, IfOk, OnOk, Some};
ghost use Rattle.optra_cert.specs.Outcomes.{Gives};
ghost use Rattle.optra_cert.specs.Steps.{leg_added, no_walks};

use crate::CertCode;
use crate::refusals::Refusal;
use optra_network::NoMemory;
use optra_walk::{Choice, Leg, Walk};
use std::alloc::Global;
use std::marker::Model;

/// The walks of the bids as far as their legs were read, and the position of the bid of the last leg.
#[derive(Drop)]
pub struct ReadWalks {
    walks: Vec<Option<Walk>>,
    last: u32,
}

impl Model for ReadWalks {
    ghost use Rattle.optra_cert.specs.Steps.{WalksSoFar};

    ghost Value = { WalksSoFar };

    ghost view = { λ a. record { choice = a.walks.items; last = a.last } };
}

impl ReadWalks {
    /// No leg of so many bids.
    pub fn new(alloc: Global, bids: usize) -> Result<ReadWalks, NoMemory>
        ensures { IfOk result (λ walks. walks ≡ no_walks bids) }
    {
        let mut walks = Vec::new(alloc);
        'bids: for _ in 0..bids {
            walks.push(None)?;
        }
        Ok(ReadWalks { walks, last: 0 })
    }

    /// Adds a leg of the bid at a position, which isn't below that of the leg before.
    #[tactic(auto, unfolding(crate::specs::Steps::leg_added))]
    pub fn add(&mut self, alloc: Global, bid: u32, leg: Leg) -> Result<(), Refusal>
        requires { bid < length self.old.choice }
        ensures { Gives (λ _. self.new) result (leg_added self.old bid leg) }
    {
        if bid < self.last {
            return Err(Refusal::Fault(CertCode::Order));
        }
        let walk = &mut self.walks[bid as usize];
        add_leg(alloc, walk, leg)?;
        self.last = bid;
        Ok(())
    }

    /// The choice of the walks.
    pub fn into_choice(self) -> Choice
        ensures { result ≡ self.choice }
    {
        Choice { walks: self.walks }
    }
}

/// Adds a leg to a walk, and begins one where there is none.
fn add_leg(alloc: Global, walk: &mut Option<Walk>, leg: Leg) -> Result<(), NoMemory>
    ensures { OnOk result (walk.new ≡ Some (unwrap_or walk.old [] ++ leg ∷ [])) }
{
    let mut legs = match walk.take() {
        Some(walk) => walk.legs,
        None => Vec::new(alloc),
    };
    legs.push(leg)?;
    *walk = Some(Walk { legs });
    Ok(())
}
