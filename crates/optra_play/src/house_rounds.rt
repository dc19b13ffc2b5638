//! What a run of an auction house does: the next round is posted and printed, or the close of an auction that has none.
ghost use Rattle.std.specs.Prelude.{◌≡◌, ◌<◌, [], int_lt, List, ℕ, All, Some, length, map, true, false, IfOk, IsErrOf};
ghost use Rattle.std.specs.List.{zip};
ghost use Rattle.optra_bid.specs.Instances.{IsInstance};
ghost use Rattle.optra_bid.specs.Specs.{IsPathOn};
ghost use Rattle.optra_bid.specs.declared.bids.Bid.{Bid as Asked};
ghost use Rattle.optra_walk.specs.Choices.{IsChoice};
ghost use Rattle.optra_auction.specs.Machine.{ArePlanned, spec_names};
ghost use Rattle.optra_auction.specs.declared.Rules.{Rules};
ghost use Rattle.optra_frame.specs.Puts.{texts_of};
ghost use Rattle.optra_house.specs.Ledger.{IsAtRest};
ghost use Rattle.optra_house.specs.PostAnswers.{FollowsPostRule};
ghost use Rattle.optra_house.specs.Replay.{opens_as};
ghost use Rattle.optra_outside.specs.Disk.{HasCause, Leaves, MayLeave, SameChosen};
ghost use Rattle.optra_records.specs.Texts.{records_text};
ghost use Rattle.optra_rounds.specs.Rounds.{acts_of, asked_of, standing_specs};
ghost use Rattle.optra_tables.specs.Actions.{AreActions};
ghost use Rattle.optra_text.specs.RoundTexts.{round_records};
ghost use Rattle.optra_verdict.specs.Promises.{TellsConflicts};
ghost use Rattle.optra_play.specs.HouseRounds.{PostsRound, PrintsClose, with_close};
ghost use Rattle.optra_play.specs.Playing.{play_status};

use crate::playing::status;
use crate::round_planner::{PlannedRound, RoundPlanner};
use optra_auction::{Auction, Refusal};
use optra_bid::Name;
use optra_cert::RowText;
use optra_frame::{Answer, statuses};
use optra_house::{House, PostError, Posted};
use optra_network::{Network, NoMemory};
use optra_outside::Disk;
use optra_rounds::{RoundActions, close_of, round_actions, standing_specs};
use optra_tables::TimedAct;
use optra_text::{PlanView, RoundView, round_text};
use optra_walk::Instance;
use std::alloc::Global;

/// A house after a round, and what is printed of it.
#[derive(Drop)]
pub struct PostedRound {
    pub house: House,
    pub answer: Answer,
}

/// Posts the round in which the house's auction is, with the actions of that round, and prints it, and the close where the auction is
/// closed with it. It needs that the family's rule is freedom of conflict. Of what `House::post` refuses only `Full` can come, where
/// the round may not fit into the journal.
pub fn post_round<D: Disk, F: RowText>(
    alloc: Global,
    disk: &mut D,
    house: House,
    net: &Network,
    rows: &F,
    names: &[Name],
    actions: Vec<TimedAct>,
) -> Result<PostedRound, PostError>
    requires chosen { (D.state disk.old).chosen ≡ true }
    requires inside { (D.state disk.old).tells ≡ true → house.gate < length
        (D.state disk.old).file.now.bytes }
    requires open { house.auction.closed ≡ false }
    requires rule { (bids : List Asked) → TellsConflicts net.now bids (F.KeepsRule rows.now
        net.now) }
    requires names { names.now ≡ spec_names house.auction.specs }
    requires paths { All (λ spec. IsPathOn net.now spec.path) house.auction.specs }
    requires actions { AreActions actions.items }

    ensures leaves { Leaves (D.state disk.old) (D.state disk.new) }
    ensures same { SameChosen (D.state disk.old) (D.state disk.new) }
    ensures cause { IsErrOf result PostError.Disk → HasCause (D.state disk.old)
        (D.state disk.new) }
    ensures rule { FollowsPostRule house house.auction.round (asked_of (acts_of house.auction.round
        actions.items)) result }
    ensures posts { IfOk result
        (λ posted. PostsRound
        (record
        { cmp = F.Row.cmp; rows = F.rows_of rows.now net.now; texts = F.texts_of rows.now })
        (F.KeepsRule rows.now net.now) net.now names.now actions.items house.auction
        posted.house.auction posted.answer.status posted.answer.text.items) }
    ensures puts { IfOk result (λ posted. texts_of posted.answer.puts.items ≡ []) }

    // Each crash leaves a file that opens as the auction with this round.
    ensures acknowledged { IfOk result (λ posted. (D.state disk.old).tells ≡ true
        → (stamp : List ℕ) (specs : List Asked) (rules : Rules)
        → IsAtRest stamp specs rules house (D.state disk.old).file.now
        → (image : List ℕ) → MayLeave (D.state disk.new).file.now image
        → opens_as stamp specs rules image ≡ Some posted.house.auction) }
{
    let round = house.state().round();
    let parts = round_actions(alloc, round, actions)?;
    let RoundActions {
        rows: own,
        acts,
        later,
    } = parts;
    let mut planner = RoundPlanner {
        net,
        rows,
        round: None,
    };
    let Posted { house, outcomes } = house.post(alloc, disk, round, acts, &mut planner)?;
    let last = planner.round;
    let Some(planned) = last else { unreachable!() };
    let acts = PostedActs {
        round,
        rows: own,
        outcomes,
        later,
    };
    match print_posted(alloc, net, names, house.state(), &acts, &planned) {
        Ok(answer) => Ok(PostedRound { house, answer }),
        Err(_) => Err(PostError::NoMemory),
    }
}

/// What is printed of an auction that is closed: its close, with the rows of the actions of later rounds.
pub fn print_close(
    alloc: Global,
    auction: &Auction,
    actions: Vec<TimedAct>,
) -> Result<Answer, NoMemory>
    requires closed { auction.now.closed ≡ true }
    requires actions { AreActions actions.items }
    ensures close { IfOk result (λ answer. PrintsClose actions.items auction.now auction.now
        answer.status answer.text.items) }
    ensures puts { IfOk result (λ answer. texts_of answer.puts.items ≡ []) }
{
    let parts = round_actions(alloc, auction.round(), actions)?;
    let bids = auction.standing_bids(alloc)?;
    let text = close_of(alloc, auction, &bids, &parts.later)?;
    Ok(Answer {
        status: statuses::OPTIMAL,
        text,
        puts: Vec::new(alloc),
    })
}

/// The actions of a round that was posted.
#[derive(Drop)]
struct PostedActs {
    round: u16,
    /// The row of each.
    rows: Vec<u32>,
    /// Why each was refused, or `None` where it was accepted.
    outcomes: Vec<Option<Refusal>>,
    /// The row of each action of a later round.
    later: Vec<u32>,
}

/// Prints a round that was posted, of which this is the auction after its close.
fn print_posted<R>(
    alloc: Global,
    net: &Network,
    names: &[Name],
    auction: &Auction,
    acts: &PostedActs,
    planned: &PlannedRound<R>,
) -> Result<Answer, NoMemory>
    requires names { names.now ≡ spec_names auction.now.specs }
    requires long { length acts.now.outcomes.items ≡ length acts.now.rows.items }
    requires instance { IsInstance net.now planned.now.bids.items }
    requires choice { IsChoice net.now planned.now.bids.items planned.now.plan.choice }
    requires planned { ArePlanned auction.now planned.now.bids.items }
    ensures text { IfOk result (λ answer. answer.text.items ≡ with_close (records_text (round_records
        net.now
        (record
        { round = acts.now.round; outcomes = zip acts.now.rows.items acts.now.outcomes.items; bids = planned.now.bids.items; specs = standing_specs names.now auction.now.standing; walks = planned.now.plan.choice; revenue = planned.now.plan.revenue; bound = planned.now.plan.bound; nodes = planned.now.plan.nodes; graphs = planned.now.graphs })))
        auction.now acts.now.later.items) }
    ensures status { IfOk result (λ answer. answer.status ≡ play_status (int_lt
        planned.now.plan.revenue planned.now.plan.bound)) }
    ensures puts { IfOk result (λ answer. texts_of answer.puts.items ≡ []) }
{
    let outcomes = told(alloc, &acts.rows, &acts.outcomes)?;
    let specs = standing_specs(alloc, auction, names)?;
    let plan = &planned.plan;
    let view = PlanView {
        inst: Instance::new(net, &planned.bids),
        choice: &plan.choice,
        revenue: plan.revenue,
        bound: plan.bound,
        nodes: plan.nodes,
    };
    let text = round_part(alloc, view, acts.round, &outcomes, &specs, planned.graphs)?;
    let text = with_close(alloc, text, auction, planned, &acts.later)?;
    let status = status(plan.revenue < plan.bound);
    let puts = Vec::new(alloc);
    Ok(Answer { status, text, puts })
}

/// What became of actions: the row of each, and why it was refused, or `None`.
fn told(
    alloc: Global,
    rows: &[u32],
    outcomes: &[Option<Refusal>],
) -> Result<Vec<(u32, Option<Refusal>)>, NoMemory>
    requires { length outcomes.now ≡ length rows.now }
    ensures { IfOk result (λ told. told.items ≡ zip rows.now outcomes.now) }
{
    let mut told = Vec::with_capacity(alloc, rows.len())?;
    'rows: for (i, row) in rows.iter().enumerate() {
        told.push((*row, outcomes[i]))?;
    }
    Ok(told)
}

/// The text of a round of this plan.
fn round_part(
    alloc: Global,
    plan: PlanView<'_>,
    round: u16,
    outcomes: &[(u32, Option<Refusal>)],
    specs: &[Name],
    graphs: u64,
) -> Result<Vec<u8>, NoMemory>
    requires choice { IsChoice plan.inst.net.now plan.inst.bids.now plan.choice.now }
    requires specs { length specs.now ≡ length plan.inst.bids.now }
    ensures { IfOk result (λ text. text.items ≡ records_text (round_records plan.entry.inst.net.now
        (record
        { round = round; outcomes = outcomes.now; bids = plan.entry.inst.bids.now; specs = specs.now; walks = plan.entry.choice.now; revenue = plan.entry.revenue; bound = plan.entry.bound; nodes = plan.entry.nodes; graphs = graphs }))) }
{
    let view = RoundView {
        round,
        outcomes,
        plan,
        specs,
        graphs,
    };
    round_text(alloc, view)
}

/// A text, and behind it the close, where the auction is closed.
fn with_close<R>(
    alloc: Global,
    text: Vec<u8>,
    auction: &Auction,
    planned: &PlannedRound<R>,
    later: &[u32],
) -> Result<Vec<u8>, NoMemory>
    requires { ArePlanned auction.now planned.now.bids.items }
    ensures { IfOk result (λ whole. whole.items ≡ with_close text.items auction.now later.now) }
{
    let mut whole = text;
    if auction.closed() {
        let last = close_of(alloc, auction, &planned.bids, later)?;
        whole.extend_from_slice(&last)?;
    }
    Ok(whole)
}
