//! What a search keeps while it runs.
ghost use Rattle.std.specs.Prelude.{◌≡◌, [], None, Some, IfOk, pos, unwrap_or};
ghost use Rattle.optra_search.specs.Planner.{dead_item};
ghost use Rattle.optra_search.specs.Openings.{front, start_below};
ghost use Rattle.optra_search.specs.Reached.{parts_of, settled_as};

use crate::waiting::Waiting;
use optra_network::{Cents, NoMemory};
use optra_node::{Decision, Item, Node, Prices};
use optra_prices::Dead;
use optra_walk::{Choice, Leg};

/// A search under way: the node taken last, the nodes that wait, the items, the incumbent with what it earns, the
/// greatest bound of a leaf so far, and how many nodes were taken.
#[derive(Drop)]
pub(crate) struct Search<R> {
    pub(crate) node: Node,
    pub(crate) waiting: Vec<Waiting<R>>,
    pub(crate) items: Vec<Item<R>>,
    pub(crate) incumbent: Choice,
    pub(crate) revenue: Cents,
    pub(crate) bound: i128,
    pub(crate) count: u64,
}

/// The prices at which the next node below starts; zero prices where there is none.
pub(crate) fn start_under<'a, R>(waiting: &'a [Waiting<R>], zero: &'a Prices<R>) -> &'a Prices<R>
    requires { zero.now ≡ [] }
    ensures { result.now ≡ start_below (front waiting.now) }
{
    match waiting.last() {
        Some(below) => match &below.start {
            Some(prices) => prices,
            None => zero,
        },
        None => zero,
    }
}

/// The prices at which a node starts: its own, or those of the next one below.
pub(crate) fn start_of<'a, R>(
    start: &'a Option<Prices<R>>,
    waiting: &'a [Waiting<R>],
    zero: &'a Prices<R>,
) -> &'a Prices<R>
    requires { zero.now ≡ [] }
    ensures { result.now ≡ unwrap_or start.now (start_below (front waiting.now)) }
{
    match start {
        Some(prices) => prices,
        None => start_under(waiting, zero),
    }
}

/// The item of a dead node.
pub(crate) fn dead_item<R>(reason: Dead<R>) -> Item<R>
    ensures { result ≡ dead_item reason }
{
    match reason {
        Dead::Forced { row } => Item::Forced { row },
        Dead::NoWalk { bid } => Item::NoWalk { bid },
    }
}

/// The node becomes a leaf with the prices, or it is split on the leg and its children wait.
pub(crate) fn close_or_split<R: Drop>(
    search: Search<R>,
    split: Option<(u32, Leg)>,
    prices: Prices<R>,
    cents: i128,
) -> Result<Search<R>, NoMemory>
    ensures { IfOk result (λ after. parts_of after ≡ settled_as (parts_of search) split prices
        cents) }
{
    match split {
        Some((bid, leg)) => {
            let after = divide(search, bid, leg, prices)?;
            Ok(after)
        }
        None => {
            let after = close(search, prices, cents)?;
            Ok(after)
        }
    }
}

/// The node becomes a leaf with the prices.
pub(crate) fn close<R: Drop>(
    search: Search<R>,
    prices: Prices<R>,
    cents: i128,
) -> Result<Search<R>, NoMemory>
    ensures { IfOk result (λ after. parts_of after ≡ settled_as (parts_of search) None prices
        cents) }
{
    let mut search = search;
    search.bound = search.bound.max(cents);
    search.items.push(Item::Priced { prices })?;
    Ok(search)
}

/// The node is split on the leg, and its children wait, the yes child on top.
fn divide<R: Drop>(
    search: Search<R>,
    bid: u32,
    leg: Leg,
    prices: Prices<R>,
) -> Result<Search<R>, NoMemory>
    ensures { IfOk result (λ after. parts_of after ≡ settled_as (parts_of search) (Some (bid, leg))
        prices (pos 0)) }
{
    let mut search = search;
    search.items.push(Item::Split { bid, leg })?;
    let depth = search.node.decisions.len();
    search.waiting.push(Waiting {
        depth,
        decision: Some(Decision {
            bid,
            leg,
            yes: false,
        }),
        start: Some(prices),
    })?;
    search.waiting.push(Waiting {
        depth,
        decision: Some(Decision {
            bid,
            leg,
            yes: true,
        }),
        start: None,
    })?;
    Ok(search)
}
