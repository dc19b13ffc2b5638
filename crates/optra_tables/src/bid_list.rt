//! The bids that were read so far, found by name.

ghost use Rattle.std.specs.Prelude.{◌≡◌, ◌<◌, ◌++◌, ◌∷◌, [], length, map, IfSome, None, OnErr, OnOk, slice_get, slice_set};
ghost use Rattle.optra_network.specs.Names.{place_of};

use indexmap::IndexSet;
use optra_bid::{Bid, BidFault, RawStop};
use optra_network::NoMemory;
use std::alloc::Global;
use std::marker::Model;

/// Bids with different names, in the order in which they were read. Contracts see it as their list.
#[derive(Drop)]
pub struct BidList {
    names: IndexSet<String>,
    bids: Vec<Bid>,
}

impl Model for BidList {
    ghost use Rattle.std.specs.Prelude.{◌≡◌, List, map};
    ghost use Rattle.optra_network.specs.Names.{texts};
    ghost use Rattle.optra_bid.specs.Offers.{Offer, offer_of};
    ghost use Rattle.optra_tables.specs.Bids.{names_of};

    ghost Value = { List Offer };

    ghost view = { λ a. map offer_of a.bids.items };

    ghost invariant = { λ a. texts a.names.keys ≡ names_of (map offer_of a.bids.items) };
}

impl BidList {
    ghost use Rattle.optra_bid.specs.Bids.{FollowsBidRule, stop_of, stop_refusal};
    ghost use Rattle.optra_bid.specs.Offers.{offer_of};
    ghost use Rattle.optra_tables.specs.Bids.{names_of};
    ghost use Rattle.optra_tables.specs.Stops.{with_stop};

    /// No bid yet.
    pub fn new(alloc: Global) -> BidList
        ensures { result ≡ [] }
    {
        BidList {
            names: IndexSet::new(alloc),
            bids: Vec::new(alloc),
        }
    }

    /// How many bids there are.
    pub fn len(&self) -> usize
        ensures { result ≡ length self.now }
    {
        self.bids.len()
    }

    /// The place of the bid with a name, from 0.
    pub fn place(&self, name: &str) -> Option<usize>
        ensures place { result ≡ place_of name.now (names_of self.now) }
        ensures within { IfSome result (λ i. i < length self.now) }
    {
        self.names.get_index_of(name)
    }

    /// Adds a bid, whose name is a new one.
    pub fn push(&mut self, bid: Bid) -> Result<(), NoMemory>
        requires { place_of bid.name (names_of self.old) ≡ None }
        ensures { OnOk result (self.new ≡ self.old ++ offer_of bid ∷ []) }
    {
        self.bids.reserve(1)?;
        let alloc = *self.names.allocator();
        let name = String::from_str(alloc, bid.name.text())?;
        self.names.insert(name)?;
        self.bids.push(bid).unwrap();
        Ok(())
    }

    /// Adds a stop to the bid at a place.
    pub fn add_stop(&mut self, place: usize, raw: &RawStop) -> Result<(), BidFault>
        requires { place < length self.old }
        ensures rule { IfSome (slice_get self.old place)
            (λ bid. FollowsBidRule (stop_refusal bid.path raw.now) result) }
        ensures ok { OnOk result (IfSome (slice_get self.old place) (λ bid. self.new
            ≡ slice_set self.old place (with_stop bid (stop_of raw.now)))) }
    {
        let bid = &mut self.bids[place];
        bid.add_stop(raw)
    }

    /// The bids.
    pub fn into_bids(self) -> Vec<Bid>
        ensures { map offer_of result.items ≡ self }
    {
        self.bids
    }
}
