//! An auction as it is played, round after round.
ghost use Rattle.std.specs.Prelude.{◌≡◌, ◌≤◌, ◌++◌, List, length, false, All, IfOk, OnOk, string_bytes};
ghost use Rattle.std.specs.Fmt.{decimal};
ghost use Rattle.optra_network.specs.Names.{AllDiffer};
ghost use Rattle.optra_bid.specs.Specs.{IsPathOn};
ghost use Rattle.optra_bid.specs.declared.bids.Bid.{Bid as Planned};
ghost use Rattle.optra_walk.specs.Choices.{IsChoice};
ghost use Rattle.optra_auction.specs.Machine.{ArePlanned, AreRules, AreSpecs, HasAmount, spec_names};
ghost use Rattle.optra_cert.specs.Certs.{IsWritable};
ghost use Rattle.optra_cert.specs.RowTexts.{AreApart};
ghost use Rattle.optra_cert.specs.Writables.{AreFew};
ghost use Rattle.optra_records.specs.Texts.{records_text};
ghost use Rattle.optra_rounds.specs.Rounds.{standing_specs};
ghost use Rattle.optra_tables.specs.Actions.{AreActions};
ghost use Rattle.optra_text.specs.RoundTexts.{round_records};
ghost use Rattle.optra_play.specs.Play.{IsPlayedOut, files_named, round_budget, round_steps};
ghost use Rattle.optra_verdict.specs.Promises.{TellsConflicts};
ghost use Rattle.optra_play.specs.Plans.{IsPlanOf};
ghost use Rattle.optra_play.specs.Playing.{IsBegun, IsFinished, IsRoundClosed, IsRoundPlayed, IsRoundTaken, IsShut, files_where, play_status};
ghost use Rattle.optra_frame.specs.Puts.{texts_of};

use crate::certificates::certificate_of;
use crate::plans::plan_over;
use optra_auction::{Auction, Refusal, Rules};
use optra_bid::{Bid, Name};
use optra_cert::{Certificate, RowText, valid_is_writable, write_certificate};
use optra_frame::{Answer, FileText, statuses};
use optra_network::{Network, NoMemory};
use optra_reuse::GraphStore;
use optra_rounds::{close_of, rows_of, spec_names, standing_specs, take_actions, values_of};
use optra_search::{Limits, Plan};
use optra_tables::{TimedAct, bids_text, stops_text};
use optra_text::{PathText, PlanView, RoundView, round_text};
use optra_walk::{Choice, Instance};
use std::alloc::Global;
use std::mem;

/// How many price steps are made at a node of a round's plan, and how many nodes are taken.
pub const ROUND_LIMITS: Limits = Limits {
    steps: 40,
    budget: 200,
};

/// An auction as far as it was played: its state, the graphs that were built, the actions that are left, and what it prints and
/// puts.
#[derive(Drop)]
struct Playing<'n> {
    auction: Auction,
    graphs: GraphStore<'n>,
    left: Vec<TimedAct>,
    text: Vec<u8>,
    puts: Vec<FileText>,
    /// Whether a round's bound is above its revenue.
    has_gap: bool,
}

/// The text of a round, whose actions are taken: what became of them, and the plan of the bids that stand, with the names of
/// all specifications and the number of graphs so far.
fn print_round(
    alloc: Global,
    plan: PlanView<'_>,
    auction: &Auction,
    names: &[Name],
    outcomes: &[(u32, Option<Refusal>)],
    graphs: u64,
) -> Result<Vec<u8>, NoMemory>
    requires names { names.now ≡ spec_names auction.now.specs }
    requires planned { ArePlanned auction.now plan.inst.bids.now }
    requires choice { IsChoice plan.inst.net.now plan.inst.bids.now plan.choice.now }
    ensures { IfOk result (λ text. text.items ≡ records_text (round_records plan.entry.inst.net.now
        (record
        { round = auction.now.round; outcomes = outcomes.now; bids = plan.entry.inst.bids.now; specs = standing_specs names.now auction.now.standing; walks = plan.entry.choice.now; revenue = plan.entry.revenue; bound = plan.entry.bound; nodes = plan.entry.nodes; graphs = graphs }))) }
{
    let specs = standing_specs(alloc, auction, names)?;
    let view = RoundView {
        round: auction.round(),
        outcomes,
        plan,
        specs: &specs,
        graphs,
    };
    round_text(alloc, view)
}

/// The name of a file of a round: the prefix, the round and an ending.
fn file_name(alloc: Global, prefix: &str, round: u16, ending: &str) -> Result<String, NoMemory>
    ensures { IfOk result (λ name. string_bytes name ≡ prefix.now ++ decimal round ++ ending.now) }
{
    format!(in alloc; "{prefix}{round}{ending}")
}

/// Adds the files of a round: its bids, their stops, and the certificate of their plan.
fn put_round<F: RowText>(
    alloc: Global,
    inst: Instance<'_>,
    rows: &F,
    certificate: &Certificate<F::Row>,
    prefix: &str,
    round: u16,
    puts: &mut Vec<FileText>,
) -> Result<(), NoMemory>
    requires paths { All (λ bid. IsPathOn inst.net.now bid.path) inst.bids.now }
    requires differ { AllDiffer (spec_names inst.bids.now) }
    requires apart { AreApart (F.texts_of rows.now).kinds }
    requires writable { IsWritable F.Row.cmp (F.texts_of rows.now) inst.net.now
        (length inst.bids.now) (F.texts_of rows.now).version certificate.now }
    ensures { OnOk result (texts_of puts.new.items ≡ texts_of puts.old.items
        ++ files_named (F.texts_of rows.now) inst.entry.net.now prefix.now round inst.entry.bids.now
        certificate.now) }
{
    let text = bids_text(alloc, inst.net, inst.bids)?;
    let name = file_name(alloc, prefix, round, ".bids.csv")?;
    puts.push(FileText { name, text })?;
    let text = stops_text(alloc, inst.net, inst.bids)?;
    let name = file_name(alloc, prefix, round, ".stops.csv")?;
    puts.push(FileText { name, text })?;
    let text = write_certificate(alloc, inst, rows, certificate)?;
    let name = file_name(alloc, prefix, round, ".cert.csv")?;
    puts.push(FileText { name, text })?;
    Ok(())
}

/// Takes the actions of the auction's round, and keeps those of later rounds. It answers what became of them.
fn take_round(
    alloc: Global,
    playing: &mut Playing<'_>,
) -> Result<Vec<(u32, Option<Refusal>)>, NoMemory>
    requires { All (λ a. HasAmount a.act) playing.old.left.items }
    ensures { IfOk result (λ outcomes. IsRoundTaken playing.old outcomes.items playing.new) }
{
    let actions = mem::replace(&mut playing.left, Vec::new(alloc));
    let taken = take_actions(alloc, &mut playing.auction, actions)?;
    playing.left = taken.later;
    Ok(taken.outcomes)
}

/// Plays a round: its actions, the plan of the bids that stand then, and its close.
fn play_round<'n, F: RowText>(
    alloc: Global,
    net: &'n Network,
    rows: &F,
    names: &[Name],
    certs: &Option<PathText>,
    playing: &mut Playing<'n>,
) -> Result<(), NoMemory>
    requires rule { (bids : List Planned) → TellsConflicts net.now bids (F.KeepsRule rows.now
        net.now) }
    requires apart { AreApart (F.texts_of rows.now).kinds }
    requires few { AreFew F.Row.cmp (F.rows_of rows.now net.now) }
    requires names { names.now ≡ spec_names playing.old.auction.specs }
    requires paths { All (λ spec. IsPathOn net.now spec.path) playing.old.auction.specs }
    requires network { playing.old.graphs.network ≡ net.now }
    requires amounts { All (λ a. HasAmount a.act) playing.old.left.items }
    requires open { playing.old.auction.closed ≡ false }
    ensures { OnOk result
        (IsRoundPlayed
        (record
        { cmp = F.Row.cmp; rows = F.rows_of rows.now net.now; texts = F.texts_of rows.now })
        (F.KeepsRule rows.now net.now) net.now names.now certs.now playing.old playing.new) }
{
    let outcomes = take_round(alloc, playing)?;
    let bids = playing.auction.standing_bids(alloc)?;
    let inst = Instance::new(net, &bids);
    let plan = plan_over(alloc, inst, rows, &mut playing.graphs, ROUND_LIMITS)?;
    let graphs = playing.graphs.builds();
    let view = PlanView {
        inst,
        choice: &plan.choice,
        revenue: plan.revenue,
        bound: plan.bound,
        nodes: plan.nodes,
    };
    let text = print_round(alloc, view, &playing.auction, names, &outcomes, graphs)?;
    playing.text.extend_from_slice(&text)?;
    finish_round(alloc, inst, rows, certs, plan, playing)?;
    Ok(())
}

/// Closes a round with its plan, and puts its files where a prefix is given.
fn finish_round<F: RowText>(
    alloc: Global,
    inst: Instance<'_>,
    rows: &F,
    certs: &Option<PathText>,
    plan: Plan<F::Row>,
    playing: &mut Playing<'_>,
) -> Result<(), NoMemory>
    requires differ { AllDiffer (spec_names inst.bids.now) }
    requires planned { ArePlanned playing.old.auction inst.bids.now }
    requires open { playing.old.auction.closed ≡ false }
    requires apart { AreApart (F.texts_of rows.now).kinds }
    requires few { AreFew F.Row.cmp (F.rows_of rows.now inst.net.now) }
    requires plan { IsPlanOf F.Row.cmp inst.net.now (F.rows_of rows.now inst.net.now)
        (F.KeepsRule rows.now inst.net.now) inst.bids.now round_steps round_budget plan }
    ensures { OnOk result (IsRoundClosed (F.texts_of rows.now) inst.entry.net.now certs.now
        inst.entry.bids.now plan playing.old playing.new) }
{
    let round = playing.auction.round();
    let is_gap = plan.revenue < plan.bound;
    close_round(alloc, inst, &plan.choice, is_gap, playing)?;
    valid_is_writable(inst, rows);
    let certificate = certificate_of(plan);
    put_files(
        alloc,
        inst,
        rows,
        certs,
        round,
        &certificate,
        &mut playing.puts,
    )?;
    Ok(())
}

/// Closes a round with the choice of its plan, and keeps in mind whether the plan has a gap.
fn close_round(
    alloc: Global,
    inst: Instance<'_>,
    choice: &Choice,
    is_gap: bool,
    playing: &mut Playing<'_>,
) -> Result<(), NoMemory>
    requires choice { IsChoice inst.net.now inst.bids.now choice.now }
    requires planned { ArePlanned playing.old.auction inst.bids.now }
    requires open { playing.old.auction.closed ≡ false }
    ensures { OnOk result (IsShut inst.entry.net.now inst.entry.bids.now choice.now is_gap
        playing.old playing.new) }
{
    let values = values_of(alloc, inst.net, inst.bids, choice)?;
    playing.auction.close_round(&values);
    playing.has_gap = is_gap || playing.has_gap;
    Ok(())
}

/// Puts the files of a round, where a prefix is given.
fn put_files<F: RowText>(
    alloc: Global,
    inst: Instance<'_>,
    rows: &F,
    certs: &Option<PathText>,
    round: u16,
    certificate: &Certificate<F::Row>,
    puts: &mut Vec<FileText>,
) -> Result<(), NoMemory>
    requires paths { All (λ bid. IsPathOn inst.net.now bid.path) inst.bids.now }
    requires differ { AllDiffer (spec_names inst.bids.now) }
    requires apart { AreApart (F.texts_of rows.now).kinds }
    requires writable { IsWritable F.Row.cmp (F.texts_of rows.now) inst.net.now
        (length inst.bids.now) (F.texts_of rows.now).version certificate.now }
    ensures { OnOk result (texts_of puts.new.items ≡ texts_of puts.old.items
        ++ files_where (F.texts_of rows.now) inst.entry.net.now certs.now round inst.entry.bids.now
        certificate.now) }
{
    match certs {
        Some(prefix) => put_round(alloc, inst, rows, certificate, prefix.text(), round, puts),
        None => Ok(()),
    }
}

/// Plays an auction by a family of rows, and puts each round's files where a prefix is given. It needs that the family's rule is
/// freedom of conflict.
pub fn play<F: RowText>(
    alloc: Global,
    net: &Network,
    rows: &F,
    specs: Vec<Bid>,
    rules: Rules,
    actions: Vec<TimedAct>,
    certs: &Option<PathText>,
) -> Result<Answer, NoMemory>
    requires rule { (bids : List Planned) → TellsConflicts net.now bids (F.KeepsRule rows.now
        net.now) }
    requires apart { AreApart (F.texts_of rows.now).kinds }
    requires few { AreFew F.Row.cmp (F.rows_of rows.now net.now) }
    requires specs { AreSpecs specs.items }
    requires paths { All (λ spec. IsPathOn net.now spec.path) specs.items }
    requires rules { AreRules rules }
    requires actions { AreActions actions.items }
    ensures { IfOk result
        (λ answer. IsPlayedOut
        (record
        { cmp = F.Row.cmp; rows = F.rows_of rows.now net.now; texts = F.texts_of rows.now })
        (F.KeepsRule rows.now net.now) net.now certs.now specs.items rules actions.items
        answer.status answer.text.items (texts_of answer.puts.items)) }
{
    let names = spec_names(alloc, &specs)?;
    let mut playing = begin(alloc, net, specs, rules, actions)?;
    let answer = play_out(alloc, net, rows, &names, certs, &mut playing);
    drop(playing);
    answer
}

/// Plays the rounds of an auction of which nothing was played, until it is closed.
fn play_out<'n, F: RowText>(
    alloc: Global,
    net: &'n Network,
    rows: &F,
    names: &[Name],
    certs: &Option<PathText>,
    playing: &mut Playing<'n>,
) -> Result<Answer, NoMemory>
    requires rule { (bids : List Planned) → TellsConflicts net.now bids (F.KeepsRule rows.now
        net.now) }
    requires apart { AreApart (F.texts_of rows.now).kinds }
    requires few { AreFew F.Row.cmp (F.rows_of rows.now net.now) }
    requires names { names.now ≡ spec_names playing.old.auction.specs }
    requires paths { All (λ spec. IsPathOn net.now spec.path) playing.old.auction.specs }
    requires rules { AreRules playing.old.auction.rules }
    requires actions { AreActions playing.old.left.items }
    requires begun { IsBegun net.now playing.old.auction.specs playing.old.auction.rules
        playing.old.left.items playing.old }
    ensures { IfOk result
        (λ answer. IsPlayedOut
        (record
        { cmp = F.Row.cmp; rows = F.rows_of rows.now net.now; texts = F.texts_of rows.now })
        (F.KeepsRule rows.now net.now) net.now certs.now playing.old.auction.specs
        playing.old.auction.rules playing.old.left.items answer.status answer.text.items
        (texts_of answer.puts.items)) }
{
    'rounds: while !playing.auction.closed() {
        play_round(alloc, net, rows, names, certs, playing)?;
    }
    finish(alloc, playing)
}

/// An auction of which nothing was played.
fn begin<'n>(
    alloc: Global,
    net: &'n Network,
    specs: Vec<Bid>,
    rules: Rules,
    actions: Vec<TimedAct>,
) -> Result<Playing<'n>, NoMemory>
    requires specs { AreSpecs specs.items }
    requires rules { AreRules rules }
    ensures { IfOk result (λ playing. IsBegun net.now specs.items rules actions.items playing) }
{
    Ok(Playing {
        auction: Auction::new(alloc, specs, rules)?,
        graphs: GraphStore::new(alloc, net)?,
        left: actions,
        text: Vec::new(alloc),
        puts: Vec::new(alloc),
        has_gap: false,
    })
}

/// What a closed auction prints and puts, which is taken from it.
fn finish(alloc: Global, playing: &mut Playing<'_>) -> Result<Answer, NoMemory>
    ensures { IfOk result (λ answer. IsFinished playing.old answer) }
{
    let bids = playing.auction.standing_bids(alloc)?;
    let late = rows_of(alloc, &playing.left)?;
    let last = close_of(alloc, &playing.auction, &bids, &late)?;
    playing.text.extend_from_slice(&last)?;
    let text = mem::replace(&mut playing.text, Vec::new(alloc));
    let puts = mem::replace(&mut playing.puts, Vec::new(alloc));
    let status = status(playing.has_gap);
    Ok(Answer { status, text, puts })
}

/// The status of an auction, by whether the plan of a round has a gap.
pub(crate) fn status(has_gap: bool) -> u8
    ensures { result ≡ play_status has_gap }
{
    if has_gap {
        statuses::GAP
    } else {
        statuses::OPTIMAL
    }
}
