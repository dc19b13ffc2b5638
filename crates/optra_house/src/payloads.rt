//! The bytes of a round.
ghost use Rattle.std.specs.Prelude.{◌≡◌, ◌∷◌, ◌++◌, ◌<◌, ◌^◌, length, IfOk, OnOk, IsTrue};
ghost use Rattle.std.specs.List.{AllByRecursion, flat_map};
ghost use Rattle.optra_network.specs.Names.{is_name};
ghost use Rattle.optra_auction.specs.Machine.{HasAmount};
ghost use Rattle.optra_house.specs.Payloads.{IsSpelled, act_bytes, cents_bytes, head_bytes, name_bytes, value_bytes, values_bytes};

use optra_auction::Act;
use optra_bid::Name;
use optra_network::{Cents, NoMemory};
use std::alloc::Global;

/// The first byte of a round's payload.
const ROUND: u8 = 1;

/// The kinds of actions, as their first byte tells them.
const OPENING: u8 = 0;

const RAISE: u8 = 1;

const AMEND: u8 = 2;

const WITHDRAW: u8 = 3;

/// Puts a name behind its length.
fn put_name(bytes: &mut Vec<u8>, name: &Name) -> Result<(), NoMemory>
    ensures bytes { OnOk result (bytes.new.items ≡ bytes.old.items ++ name_bytes name.now) }
    ensures name { IsTrue (is_name name.now) }
{
    let text = name.text();
    bytes.push(text.len() as u8)?;
    bytes.extend_from_slice(text.as_bytes())?;
    Ok(())
}

/// Puts cents in eight bytes.
fn put_cents(bytes: &mut Vec<u8>, cents: Cents) -> Result<(), NoMemory>
    ensures { OnOk result (bytes.new.items ≡ bytes.old.items ++ cents_bytes cents) }
{
    bytes.extend_from_slice(&cents.unsigned_abs().to_be_bytes())?;
    Ok(())
}

/// Puts the kind of an action and its first two names, which each action has.
fn put_kind(bytes: &mut Vec<u8>, kind: u8, bidder: &Name, bid: &Name) -> Result<(), NoMemory>
    ensures bytes { OnOk result (bytes.new.items
        ≡ bytes.old.items ++ (kind ∷ (name_bytes bidder.now ++ name_bytes bid.now))) }
    ensures bidder { OnOk result (IsTrue (is_name bidder.now)) }
    ensures bid { OnOk result (IsTrue (is_name bid.now)) }
{
    bytes.push(kind)?;
    put_name(bytes, bidder)?;
    put_name(bytes, bid)?;
    Ok(())
}

/// Puts an action.
fn put_act(bytes: &mut Vec<u8>, act: &Act) -> Result<(), NoMemory>
    requires { HasAmount act.now }
    ensures bytes { OnOk result (bytes.new.items ≡ bytes.old.items ++ act_bytes act.now) }
    ensures spelled { OnOk result (IsSpelled act.now) }
{
    match act {
        Act::Opening {
            bidder,
            bid,
            spec,
            amount,
        } => {
            put_kind(bytes, OPENING, bidder, bid)?;
            put_name(bytes, spec)?;
            put_cents(bytes, *amount)?;
        }
        Act::Raise {
            bidder,
            bid,
            amount,
        } => {
            put_kind(bytes, RAISE, bidder, bid)?;
            put_cents(bytes, *amount)?;
        }
        Act::Amend { bidder, bid, spec } => {
            put_kind(bytes, AMEND, bidder, bid)?;
            put_name(bytes, spec)?;
        }
        Act::Withdraw { bidder, bid } => put_kind(bytes, WITHDRAW, bidder, bid)?,
    }
    Ok(())
}

/// Puts actions, one after another.
fn put_acts(bytes: &mut Vec<u8>, acts: &[Act]) -> Result<(), NoMemory>
    requires { AllByRecursion HasAmount acts.now }
    ensures bytes { OnOk result (bytes.new.items ≡ bytes.old.items ++ flat_map act_bytes acts.now) }
    ensures spelled { OnOk result (AllByRecursion IsSpelled acts.now) }
{
    'acts: for act in acts {
        put_act(bytes, act)?;
    }
    Ok(())
}

/// The payload of a round up to its values.
#[tactic(auto, unfolding(crate::specs::Payloads::head_bytes))]
pub(crate) fn head_of(alloc: Global, round: u16, acts: &[Act]) -> Result<Vec<u8>, NoMemory>
    requires few { length acts.now < 2 ^ 32 }
    requires amounts { AllByRecursion HasAmount acts.now }
    ensures bytes { IfOk result (λ bytes. bytes.items ≡ head_bytes round acts.now) }
    ensures spelled { OnOk result (AllByRecursion IsSpelled acts.now) }
{
    let mut bytes = Vec::new(alloc);
    bytes.push(ROUND)?;
    bytes.extend_from_slice(&round.to_be_bytes())?;
    bytes.extend_from_slice(&(acts.len() as u32).to_be_bytes())?;
    put_acts(&mut bytes, acts)?;
    Ok(bytes)
}

/// Puts a value, if there is one.
fn put_value(bytes: &mut Vec<u8>, value: Option<Cents>) -> Result<(), NoMemory>
    ensures { OnOk result (bytes.new.items ≡ bytes.old.items ++ value_bytes value) }
{
    match value {
        None => bytes.push(0)?,
        Some(cents) => {
            bytes.push(1)?;
            put_cents(bytes, cents)?;
        }
    }
    Ok(())
}

/// Puts values behind their number.
#[tactic(auto, unfolding(crate::specs::Payloads::values_bytes))]
pub(crate) fn put_values(bytes: &mut Vec<u8>, values: &[Option<Cents>]) -> Result<(), NoMemory>
    requires { length values.now < 2 ^ 32 }
    ensures { OnOk result (bytes.new.items ≡ bytes.old.items ++ values_bytes values.now) }
{
    bytes.extend_from_slice(&(values.len() as u32).to_be_bytes())?;
    'values: for value in values {
        put_value(bytes, *value)?;
    }
    Ok(())
}
