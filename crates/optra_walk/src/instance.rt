//! The bids that are planned together on a network.
ghost use Rattle.std.specs.Prelude.{◌≡◌, ◌≤◌, All, length};
ghost use Rattle.optra_network.specs.Net.{IsProper};
ghost use Rattle.optra_bid.specs.Instances.{IsInstance};
ghost use Rattle.optra_bid.specs.Specs.{IsPathOn};

use optra_bid::Bid;
use optra_network::Network;

/// The bids that are planned together on a network: at most 1,000, whose types, ends and stop stations are positions of the
/// network. What each instance keeps is part of its type, so that no call has to ask for it.
#[derive(Clone, Copy)]
pub struct Instance<'a> {
    pub net: &'a Network,
    pub bids: &'a [Bid],
    pub ghost proper: { IsProper net.now },
    pub ghost few: { length bids.now ≤ 1000 },
    pub ghost paths: { All (λ bid. IsPathOn net.now bid.path) bids.now },
}

impl<'a> Instance<'a> {
    /// The bids on the network. They must be bids of one instance.
    pub fn new(net: &'a Network, bids: &'a [Bid]) -> Instance<'a>
        requires { IsInstance net.now bids.now }
        ensures net { result.net.now ≡ net.now }
        ensures bids { result.bids.now ≡ bids.now }
    {
        net.laws();
        Instance { net, bids }
    }
}
