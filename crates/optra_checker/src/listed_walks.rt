//! The walks that a certificate lists: whether each is a walk of its bid.
ghost use Rattle.std.specs.Prelude.{◌≡◌, ◌↔◌, length, IfSome, IsTrue};
ghost use Rattle.optra_walk.specs.Walks.{IsWalk};
ghost use Rattle.optra_walk.specs.Choices.{IsChoice};

use optra_bid::Bid;
use optra_network::Network;
use optra_walk::{Walk, follows};

/// Whether the entry is none or a walk of the bid.
fn entry_holds(net: &Network, bid: &Bid, entry: &Option<Walk>) -> bool
    ensures { IsTrue result ↔ IfSome entry.now (IsWalk net.now bid.now.path) }
{
    match entry {
        Some(walk) => follows(net, bid, &walk.legs),
        None => true,
    }
}

/// Whether each entry that is there is a walk of its bid.
pub(crate) fn walks_hold(net: &Network, bids: &[Bid], entries: &[Option<Walk>]) -> bool
    requires { length entries.now ≡ length bids.now }
    ensures { IsTrue result ↔ IsChoice net.now bids.now entries.now }
{
    'bids: for (i, bid) in bids.iter().enumerate() {
        if !entry_holds(net, bid, &entries[i]) {
            return false;
        }
    }
    true
}
