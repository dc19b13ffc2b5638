//! Actions, taken one after another.
ghost use Rattle.std.specs.Prelude.{◌≡◌, All, IfOk, OnOk};
ghost use Rattle.optra_auction.specs.Machine.{HasAmount, after_all, after_any, refusal_of, refusals_of};

use crate::{Act, Auction, Refusal};
use optra_network::NoMemory;
use std::alloc::Global;

/// Takes an action, and tells why it is refused, if it is. A refused action changes nothing, and is dropped.
pub fn take_act(auction: &mut Auction, act: Act) -> Option<Refusal>
    requires { HasAmount act }
    ensures refusal { result ≡ refusal_of auction.old act }
    ensures after { auction.new ≡ after_any auction.old act }
{
    match auction.act(act) {
        Ok(()) => None,
        Err(refused) => Some(refused.why),
    }
}

/// Takes actions in their order, and tells of each why it is refused, if it is. After `NoMemory` a first part of them was taken.
pub fn take_acts(
    alloc: Global,
    auction: &mut Auction,
    acts: Vec<Act>,
) -> Result<Vec<Option<Refusal>>, NoMemory>
    requires { All HasAmount acts.items }
    ensures refusals { IfOk result (λ refusals. refusals.items
        ≡ refusals_of auction.old acts.items) }
    ensures after { OnOk result (auction.new ≡ after_all auction.old acts.items) }
{
    let mut refusals = Vec::with_capacity(alloc, acts.len())?;
    'acts: for act in acts {
        let refusal = take_act(auction, act);
        refusals.push(refusal)?;
    }
    Ok(refusals)
}
