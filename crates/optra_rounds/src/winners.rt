//! What is printed after the last round.
ghost use Rattle.std.specs.Prelude.{◌≡◌, ◌<◌, length, slice_get, option_map, Some, None, IfOk};
ghost use Rattle.optra_auction.specs.Machine.{ArePlanned, Standing};
ghost use Rattle.optra_rounds.specs.Rounds.{awards_of, award_of};
ghost use Rattle.optra_records.specs.Texts.{records_text};
ghost use Rattle.optra_text.specs.RoundTexts.{close_records};

use optra_auction::Auction;
use optra_bid::Bid;
use optra_network::NoMemory;
use optra_text::{Award, CloseView, close_text};
use std::alloc::Global;

/// The text after the last round of an auction, where these are its standing bids as they are planned, and the rows of the actions of
/// later rounds.
pub fn close_of(
    alloc: Global,
    auction: &Auction,
    bids: &[Bid],
    late: &[u32],
) -> Result<Vec<u8>, NoMemory>
    requires { ArePlanned auction.now bids.now }
    ensures { IfOk result (λ text. text.items
        ≡ records_text
        (close_records
        (record
        { round = auction.now.round; late = late.now; awards = awards_of auction.now.standing }))) }
{
    let mut awards = Vec::new(alloc);
    let count = auction.count();
    'bids: for place in 0..count {
        let bid = &bids[place as usize];
        match auction.award(place) {
            Some(value) => awards.push(Award {
                bid: &bid.name,
                bidder: &bid.bidder,
                value,
            })?,
            None => {}
        }
    }
    let view = CloseView {
        round: auction.round(),
        late,
        awards: &awards,
    };
    close_text(alloc, view)
}
