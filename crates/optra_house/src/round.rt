//! What an entry holds of a round.
ghost use Rattle.std.specs.Prelude.{◌≡◌, All, IfOk};
ghost use Rattle.optra_auction.specs.Machine.{HasAmount};
ghost use Rattle.optra_house.specs.Reading.{Gives, fields_at, round_of};

use crate::fields::{Unread, acts_at, u16_at, values_at};
use optra_auction::Act;
use optra_network::Cents;
use std::alloc::Global;
use std::marker::Model;

/// A round: its number, its actions in order, and the value at which each bid that stands then wins it, if it does.
#[derive(Drop)]
pub(crate) struct Round {
    pub(crate) number: u16,
    pub(crate) acts: Vec<Act>,
    pub(crate) values: Vec<Option<Cents>>,
}

impl Model for Round {
    ghost use Rattle.optra_house.specs.Payloads.{Posting};

    ghost Value = { Posting };

    ghost view = { λ a. record {
      number = a.number;
      acts = a.acts.items;
      values = a.values.items;
    } };
}

impl Round {
    /// The round that a payload holds.
    #[tactic(auto, unfolding(crate::specs::Reading::round_of))]
    pub(crate) fn read(alloc: Global, payload: &[u8]) -> Result<Round, Unread>
        ensures gives { Gives (λ round. round) result (round_of payload.now) }
        ensures amounts { IfOk result (λ round. All HasAmount round.acts) }
    {
        match payload {
            [1, rest @ ..] => Round::read_fields(alloc, rest),
            _ => Err(Unread::Malformed),
        }
    }

    /// The round behind the byte that tells it from a stamp, all of the bytes.
    #[tactic(auto, unfolding(crate::specs::Reading::fields_at))]
    fn read_fields(alloc: Global, bytes: &[u8]) -> Result<Round, Unread>
        ensures gives { Gives (λ round. round) result (fields_at bytes.now) }
        ensures amounts { IfOk result (λ round. All HasAmount round.acts) }
    {
        let (number, rest) = u16_at(bytes)?;
        let (acts, rest) = acts_at(alloc, rest)?;
        let (values, rest) = values_at(alloc, rest)?;
        if !rest.is_empty() {
            return Err(Unread::Malformed);
        }
        Ok(Round {
            number,
            acts,
            values,
        })
    }
}
