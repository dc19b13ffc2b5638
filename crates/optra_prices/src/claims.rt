//! What decisions use of rows, by the numbers of rows. The family is asked once for each decision, when it enters.
ghost use Rattle.std.specs.Prelude.{◌≡◌, ◌<◌, ◌↔◌, IsTrue, true, [], All, IfOk, OnOk, length};
ghost use Rattle.optra_node.specs.Nodes.{IsFormedDecision, kind_at};
ghost use Rattle.optra_walk.specs.Families.{IsUsable};
ghost use Rattle.optra_prices.specs.Claims.{ClaimsMore, IsClaim, AreClaims, Claims, claim_uses, placed_uses, touches_at};
ghost use Rattle.optra_prices.specs.Rooms.{IsClaimWithin};
ghost use Rattle.optra_prices.specs.Tables.{IsNumbering, number_in};
ghost use Rattle.optra_prices.specs.Uses.{AddsUses, TakesUses};

use crate::rooms::{Room, add_touches, are_touches_within, take_touches};
use crate::row_numbers::{RowNumbers, number_of};
use crate::touch::Touch;
use crate::touch_slice::TouchSlice;
use optra_network::{Network, NoMemory, TypeId};
use optra_node::{Decision, kind_at, may_use};
use optra_walk::{Instance, Leg, RowFamily};
use std::alloc::Global;

/// What a decision uses: nothing where it is no, and where it is yes what its leg uses.
#[derive(Drop)]
pub(crate) struct Claim {
    /// The rows that have a number.
    pub(crate) touches: Vec<Touch>,
    /// All of them have one.
    pub(crate) whole: bool,
}

/// Nothing is used.
fn no_claim(alloc: Global) -> Claim
    ensures touches { result.touches.items ≡ [] }
    ensures whole { result.whole ≡ true }
{
    Claim {
        touches: Vec::new(alloc),
        whole: true,
    }
}

/// Adds uses of a row to a claim.
fn claim_row<F: RowFamily>(
    claim: &mut Claim,
    numbering: &RowNumbers<F::Row>,
    row: F::Row,
    uses: u32,
) -> Result<(), NoMemory>
    requires { IsNumbering F.Row.cmp numbering.now.order.items numbering.now.rows.items }
    ensures { OnOk result (ClaimsMore (number_in F.Row.cmp numbering.now.order.items row) uses
        claim.old claim.new) }
{
    match number_of::<F>(numbering, row) {
        Some(number) => claim.touches.push(Touch { row: number, uses })?,
        None => claim.whole = false,
    }
    Ok(())
}

/// What a leg of the type uses.
fn claim_of_leg<F: RowFamily>(
    alloc: Global,
    net: &Network,
    rows: &F,
    numbering: &RowNumbers<F::Row>,
    kind: TypeId,
    leg: Leg,
) -> Result<Claim, NoMemory>
    requires usable { IsUsable net.now kind leg }
    requires numbering { IsNumbering F.Row.cmp numbering.now.order.items numbering.now.rows.items }
    ensures { IfOk result (Claims numbering.now.rows.items ((F.rows_of rows.now net.now).uses kind
        leg)) }
{
    let mut claim = no_claim(alloc);
    for k in 0..8192 {
        let Some(row) = rows.touched(net, kind, leg, k) else {
            return Ok(claim);
        };
        let uses = rows.leg_use(net, kind, leg, row);
        claim_row::<F>(&mut claim, numbering, row, uses)?;
    }
    Ok(claim)
}

/// What a decision uses.
fn claim_of<F: RowFamily>(
    alloc: Global,
    inst: Instance<'_>,
    rows: &F,
    numbering: &RowNumbers<F::Row>,
    decision: Decision,
) -> Result<Claim, NoMemory>
    requires decision { IsFormedDecision inst.net.now (length inst.bids.now) decision }
    requires numbering { IsNumbering F.Row.cmp numbering.now.order.items numbering.now.rows.items }
    ensures { IfOk result (IsClaim (F.rows_of rows.now inst.entry.net.now) inst.entry.bids.now
        numbering.now.rows.items decision) }
{
    let kind = kind_at(inst, decision.bid);
    if !decision.yes || !may_use(inst.net, decision.leg.track, kind) {
        return Ok(no_claim(alloc));
    }
    claim_of_leg(alloc, inst.net, rows, numbering, kind, decision.leg)
}

/// What decisions use, one by one.
pub(crate) fn claims_of<F: RowFamily>(
    alloc: Global,
    inst: Instance<'_>,
    rows: &F,
    numbering: &RowNumbers<F::Row>,
    decisions: &[Decision],
) -> Result<Vec<Claim>, NoMemory>
    requires decisions { All (IsFormedDecision inst.net.now (length inst.bids.now)) decisions.now }
    requires numbering { IsNumbering F.Row.cmp numbering.now.order.items numbering.now.rows.items }
    ensures { IfOk result (λ claims. AreClaims (F.rows_of rows.now inst.entry.net.now)
        inst.entry.bids.now numbering.now.rows.items decisions.now claims.items) }
{
    let mut claims = Vec::with_capacity(alloc, decisions.len())?;
    for decision in decisions {
        claims.push(claim_of(alloc, inst, rows, numbering, *decision)?)?;
    }
    Ok(claims)
}

/// What a claim touches.
pub(crate) fn claimed(claim: &Claim) -> TouchSlice<'_>
    ensures { result ≡ claim.now.touches.items }
{
    TouchSlice {
        narrow: &[],
        wide: &claim.touches,
    }
}

/// Adds what is claimed.
pub(crate) fn add_claims(room: &mut Room, claims: &[Claim]) -> Result<(), NoMemory>
    ensures uses { OnOk result (AddsUses (claim_uses claims.now) room.old.loads.uses
        room.new.loads.uses) }
    ensures capacities { OnOk result (room.new.loads.capacities ≡ room.old.loads.capacities) }
{
    for claim in claims {
        add_touches(room, &claimed(claim))?;
    }
    Ok(())
}

/// Takes away what is claimed.
pub(crate) fn take_claims(room: &mut Room, claims: &[Claim])
    ensures uses { TakesUses (claim_uses claims.now) room.old.loads.uses room.new.loads.uses }
    ensures capacities { room.new.loads.capacities ≡ room.old.loads.capacities }
{
    for claim in claims {
        take_touches(room, &claimed(claim));
    }
}

/// What the claim at a place touches.
fn touches_at(claims: &[Claim], place: usize) -> TouchSlice<'_>
    requires { place < length claims.now }
    ensures { result ≡ touches_at claims.now place }
{
    claimed(&claims[place])
}

/// Adds what the claims at places use.
pub(crate) fn add_placed(
    room: &mut Room,
    claims: &[Claim],
    places: &[usize],
) -> Result<(), NoMemory>
    requires { All (λ place. place < length claims.now) places.now }
    ensures uses { OnOk result (AddsUses (placed_uses claims.now places.now) room.old.loads.uses
        room.new.loads.uses) }
    ensures capacities { OnOk result (room.new.loads.capacities ≡ room.old.loads.capacities) }
{
    for place in places {
        add_touches(room, &touches_at(claims, *place))?;
    }
    Ok(())
}

/// Takes away what the claims at places use.
pub(crate) fn take_placed(room: &mut Room, claims: &[Claim], places: &[usize])
    requires { All (λ place. place < length claims.now) places.now }
    ensures uses { TakesUses (placed_uses claims.now places.now) room.old.loads.uses
        room.new.loads.uses }
    ensures capacities { room.new.loads.capacities ≡ room.old.loads.capacities }
{
    for place in places {
        take_touches(room, &touches_at(claims, *place));
    }
}

/// Whether each row that is claimed has a number, and no more is used of it than there is.
fn is_claim_within(room: &Room, claim: &Claim) -> bool
    ensures { IsTrue result ↔ IsClaimWithin room.now claim.now }
{
    claim.whole && are_touches_within(room, &claimed(claim))
}

/// The same of each of the claims.
pub(crate) fn are_within(room: &Room, claims: &[Claim]) -> bool
    ensures { IsTrue result ↔ All (IsClaimWithin room.now) claims.now }
{
    for claim in claims {
        if !is_claim_within(room, claim) {
            return false;
        }
    }
    true
}
