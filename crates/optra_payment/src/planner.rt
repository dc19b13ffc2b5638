//! Who plans: payments take the planner through a trait, so that the search need not stand below them.
ghost use Rattle.std.specs.Prelude.{◌≡◌, List, IfOk};
ghost use Rattle.optra_network.specs.Net.{Net, IsProper};
ghost use Rattle.optra_bid.specs.declared.bids.Bid.{Bid as Asked};
ghost use Rattle.optra_bid.specs.Instances.{IsInstance};
ghost use Rattle.optra_payment.specs.Planners.{Encloses, FindAlike};
ghost use Rattle.optra_payment.specs.declared.Found.{Found as Numbers};

use crate::Found;
use optra_bid::Bid;
use optra_network::{Network, NoMemory};
use optra_walk::RowFamily;
use std::alloc::Global;

/// Plans bids, and finds one revenue and one bound for each network, family and list of bids that together with the network is
/// an instance. No call changes what it finds.
pub trait Planner<F: RowFamily> {
    /// The revenue and the bound that it finds of a list of bids on a network, by a family of rows.
    ghost Finds: { Self → F → Net → List Asked → Numbers → Type 0 };

    /// The revenue and the bound of these bids, which together with the network are an instance. `NoMemory` is its only
    /// refusal.
    fn find(
        &mut self,
        alloc: Global,
        net: &Network,
        rows: &F,
        bids: &[Bid],
    ) -> Result<Found, NoMemory>
        requires { IsInstance net.now bids.now }
        ensures found { IfOk result (Finds self.old rows.now net.now bids.now) }
        ensures alike { FindAlike (Finds self.old) (Finds self.new) };

    /// It finds no more than one revenue and one bound; that it finds one shows where it answers.
    ghost one: { (planner : Self) (rows : F) (net : Net) (bids : List Asked) (a b : Numbers)
        → Finds planner rows net bids a → Finds planner rows net bids b → a ≡ b };

    /// Some choice of the bids that keeps the rule earns the revenue, none earns more than the bound, and the bound is at most
    /// the sum of the bases.
    ghost encloses: { (planner : Self) (rows : F) (net : Net) (bids : List Asked) (found : Numbers) → IsProper net
        → IsInstance net bids → Finds planner rows net bids found → Encloses net (F.KeepsRule rows net) bids found };
}
