//! The auction that a journal's entries make.
ghost use Rattle.std.specs.Prelude.{◌≡◌, ◌<◌, ◌≤◌, [], All, Some, IfOk, IsErrOf, OnOk, length};
ghost use Rattle.optra_auction.specs.Machine.{HasAmount, after_all};
ghost use Rattle.optra_house.specs.declared.fields.Unread.TheVariants.{Malformed};
ghost use Rattle.optra_house.specs.Entries.{most_bytes, payloads_from, payloads_of};
ghost use Rattle.optra_house.specs.Replay.{after_payload};
ghost use Rattle.optra_house.specs.Replayed.{IsFound, IsRefused, Replays, Steps};

use crate::entries::{bytes_from, entry_at, is_open};
use crate::fields::Unread;
use crate::round::Round;
use optra_auction::{Act, Auction, take_act};
use std::alloc::Global;

/// OPTRAJ1 and a line feed.
pub(crate) const HEADING: [u8; 8] = [79, 80, 84, 82, 65, 74, 49, 10];

/// A file of at most so many bytes has no entry.
pub(crate) const NO_ENTRY: usize = 9;

/// Takes the actions of a round that was posted before.
fn retake_acts(auction: &mut Auction, acts: Vec<Act>)
    requires { All HasAmount acts.items }
    ensures { auction.new ≡ after_all auction.old acts.items }
{
    'acts: for act in acts {
        take_act(auction, act);
    }
}

/// Replays a round, where it may follow.
fn replay_round(alloc: Global, auction: &mut Auction, payload: &[u8]) -> Result<(), Unread>
    ensures { Steps (after_payload (Some auction.old) payload.now) auction.new result }
{
    let round = Round::read(alloc, payload)?;
    if auction.closed() || round.number != auction.round() {
        return Err(Unread::Malformed);
    }
    retake_acts(auction, round.acts);
    if round.values.len() != auction.count() as usize {
        return Err(Unread::Malformed);
    }
    auction.close_round(&round.values);
    Ok(())
}

/// Replays the rounds from a gate on, and answers what stands from the last gate on.
fn replay_rounds<'a>(
    alloc: Global,
    auction: &mut Auction,
    bytes: &'a [u8],
) -> Result<&'a [u8], Unread>
    requires { 0 < length bytes.now }
    ensures ok { IfOk result (λ rest. Replays auction.old bytes.now auction.new rest.now) }
    ensures err { IsErrOf result Unread.Malformed → IsRefused auction.old bytes.now }
{
    let mut rest = bytes;
    'entries: while is_open(rest) {
        let (payload, after) = entry_at(bytes_from(rest, 1))?;
        replay_round(alloc, auction, payload)?;
        rest = after;
    }
    Ok(rest)
}

/// Replays the entries of a file, and answers the place of its last gate, or `None` where it has no entry.
pub(crate) fn replay(
    alloc: Global,
    auction: &mut Auction,
    stamp: &[u8],
    file: &[u8],
) -> Result<Option<usize>, Unread>
    requires { length file.now ≤ most_bytes }
    ensures { IsFound stamp.now file.now auction.old auction.new result }
{
    if file.len() <= NO_ENTRY {
        return Ok(None);
    }
    if !file.starts_with(&HEADING) {
        return Err(Unread::Malformed);
    }
    let rest = bytes_from(file, HEADING.len());
    if !is_open(rest) {
        return Ok(None);
    }
    let (first, rest) = entry_at(bytes_from(rest, 1))?;
    if first != stamp {
        return Err(Unread::Malformed);
    }
    let rest = replay_rounds(alloc, auction, rest)?;
    Ok(Some(file.len() - rest.len()))
}
