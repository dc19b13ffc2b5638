//! The specifications of an auction, found by name.
ghost use Rattle.std.specs.Prelude.{◌≡◌, ◌<◌, length, slice_get, IfOk, IfSome, Some};
ghost use Rattle.optra_network.specs.Names.{place_of, texts};
ghost use Rattle.optra_auction.specs.Machine.{AreSpecs, spec_names};

use indexmap::IndexSet;
use optra_bid::Bid;
use optra_network::NoMemory;
use std::alloc::Global;
use std::marker::Model;

/// Specifications with different names, each found by its name, by hash. Contracts see it as their list.
#[derive(Drop)]
pub(crate) struct SpecList {
    names: IndexSet<String>,
    bids: Vec<Bid>,
}

impl Model for SpecList {
    ghost use Rattle.std.specs.Prelude.{◌≡◌, List};
    ghost use Rattle.optra_network.specs.Names.{texts};
    ghost use Rattle.optra_bid.specs.declared.bids.Bid.{Bid};
    ghost use Rattle.optra_auction.specs.Machine.{spec_names};

    ghost Value = { List Bid };

    ghost view = { λ a. a.bids.items };

    ghost invariant = { λ a. texts a.names.keys ≡ spec_names a.bids.items };
}

impl SpecList {
    pub(crate) fn new(alloc: Global, bids: Vec<Bid>) -> Result<SpecList, NoMemory>
        requires { AreSpecs bids.items }
        ensures { IfOk result (λ specs. specs ≡ bids.items) }
    {
        let names = names_of(alloc, &bids)?;
        Ok(SpecList { names, bids })
    }

    /// The place of the specification of a name, from 0.
    pub(crate) fn place(&self, name: &str) -> Option<usize>
        ensures place { result ≡ place_of name.now (spec_names self.now) }
        ensures within { IfSome result (λ i. i < length self.now) }
    {
        self.names.get_index_of(name)
    }

    /// The specification at a place.
    pub(crate) fn at(&self, place: usize) -> &Bid
        requires { place < length self.now }
        ensures { slice_get self.now place ≡ Some result.now }
    {
        &self.bids[place]
    }
}

/// The names of specifications, in their order.
fn names_of(alloc: Global, bids: &[Bid]) -> Result<IndexSet<String>, NoMemory>
    requires { AreSpecs bids.now }
    ensures { IfOk result (λ names. texts names.keys ≡ spec_names bids.now) }
{
    let mut names = IndexSet::with_capacity(alloc, bids.len())?;
    for bid in bids {
        let name = String::from_str(alloc, bid.name.text())?;
        names.insert(name)?;
    }
    Ok(names)
}
