//! The house command: what it replies to the contents of its files and to its journal.
ghost use Rattle.std.specs.Prelude.{◌≡◌, ◌⊎◌, ◌<◌, [], List, length, map, None, Some, All, true, IfOk, IfErr};
ghost use Rattle.optra_bid.specs.Specs.{IsPathOn};
ghost use Rattle.optra_bid.specs.declared.bids.Bid.{Bid as Asked};
ghost use Rattle.optra_auction.specs.Machine.{AreRules, AreSpecs, spec_names};
ghost use Rattle.optra_frame.specs.ContentsGot.{contents_of};
ghost use Rattle.optra_frame.specs.Puts.{texts_of};
ghost use Rattle.optra_frame.specs.Replies.{reply_of};
ghost use Rattle.optra_frame.specs.Statuses.{gap_status, optimal_status};
ghost use Rattle.optra_house.specs.Ledger.{IsAtRest};
ghost use Rattle.optra_house.specs.Stamps.{payload_of};
ghost use Rattle.optra_outside.specs.Disk.{Leaves, SameChosen};
ghost use Rattle.optra_tables.specs.Actions.{AreActions};
ghost use Rattle.optra_tables.specs.Networks.{HasHeadwaysAlone};
ghost use Rattle.optra_verdict.specs.Families.{OfVersion};
ghost use Rattle.optra_verdict.specs.Promises.{TellsConflicts};
ghost use Rattle.optra_top.specs.HouseCommand.{HouseReplies, JournalReplies, stamp_in};
ghost use Rattle.optra_top.specs.HouseEnds.{EndsBy};
ghost use Rattle.optra_top.specs.HouseRuns.{GoesOnFrom, HasOpened, IsRefusedLater, IsUnopened, house_asked, journal_asked};

use crate::auction_command::{AuctionTables, read_auction};
use optra_auction::Rules;
use optra_bid::{Bid, Name};
use optra_cert::RowText;
use optra_frame::{Answer, Declined, Fault, FilesGot, Version};
use optra_house::{House, OpenError, PostError, Stamp, rest_laws};
use optra_network::{Network, NoMemory};
use optra_outside::Disk;
use optra_play::{post_round, print_close};
use optra_rounds::spec_names;
use optra_rows::HeadwayRows;
use optra_tables::{Table, TimedAct};
use optra_verdict::{all_rows, all_rows_are_told, headway_rows_are_told};
use std::alloc::Global;

/// The code of a journal that isn't one of this auction.
const NO_JOURNAL: &str = "H1";

/// The code of a journal without room.
const NO_ROOM: &str = "H4";

/// Reads the tables of an auction, opens its journal, and posts the next round and prints it; or prints the close of an auction that
/// has none. It errs exactly where the tables or the journal are refused, where a call of the disk fails, or by want of memory.
pub fn reply<D: Disk>(
    alloc: Global,
    files: &FilesGot,
    journal: &str,
    disk: &mut D,
) -> Result<Answer, Fault>
    ensures ok { IfOk result (λ answer. HouseReplies journal.now (contents_of files.now)
        (D.state disk.old) (D.state disk.new) (reply_of answer)) }
    ensures done { IfOk result (λ answer. (answer.status ≡ optimal_status)
        ⊎ (answer.status ≡ gap_status)) }
    ensures fault { IfErr result (EndsBy (HouseReplies journal.now (contents_of files.now))
        (D.state disk.old) (D.state disk.new)) }
{
    let stamp = stamp_of(alloc, files)?;
    let tables = read_auction(alloc, files)?;
    let AuctionTables {
        version,
        net,
        specs,
        rules,
        actions,
    } = tables;
    let sale = Sale {
        specs,
        rules,
        actions,
    };
    let answer = run_on(alloc, disk, journal, &stamp, version, &net, sale);
    drop(net);
    answer
}

/// The stamp of the journal: the bytes of the bids, of the stops and of the rules.
fn stamp_of(alloc: Global, files: &FilesGot) -> Result<Stamp, NoMemory>
    ensures { IfOk result (λ stamp. stamp ≡ stamp_in (contents_of files.now)) }
{
    Ok(Stamp {
        bids: bytes_of(alloc, files.table(Table::Bids))?,
        stops: bytes_of(alloc, files.table(Table::Stops))?,
        rules: bytes_of(alloc, files.table(Table::Rules))?,
    })
}

/// Equal bytes in memory of their own.
fn bytes_of(alloc: Global, bytes: &[u8]) -> Result<Vec<u8>, NoMemory>
    ensures { IfOk result (λ copy. copy.items ≡ bytes.now) }
{
    let mut copy = Vec::with_capacity(alloc, bytes.len())?;
    copy.extend_from_slice(bytes)?;
    Ok(copy)
}

/// An auction's specifications, rules and actions.
#[derive(Drop)]
struct Sale {
    specs: Vec<Bid>,
    rules: Rules,
    actions: Vec<TimedAct>,
}

/// Opens the journal of a sale, and goes on with it.
fn run_on<D: Disk>(
    alloc: Global,
    disk: &mut D,
    journal: &str,
    stamp: &Stamp,
    version: Version,
    net: &Network,
    sale: Sale,
) -> Result<Answer, Fault>
    requires specs { AreSpecs sale.specs.items }
    requires paths { All (λ spec. IsPathOn net.now spec.path) sale.specs.items }
    requires rules { AreRules sale.rules }
    requires actions { AreActions sale.actions.items }
    requires alone { version ≡ Version.First → HasHeadwaysAlone net.now }
    ensures ok { IfOk result (λ answer. JournalReplies version net.entry.now
        (house_asked journal.now stamp.now sale) (D.state disk.old) (D.state disk.new)
        (reply_of answer)) }
    ensures done { IfOk result (λ answer. (answer.status ≡ optimal_status)
        ⊎ (answer.status ≡ gap_status)) }
    ensures fault { IfErr result (EndsBy (JournalReplies version net.entry.now
        (house_asked journal.now stamp.now sale)) (D.state disk.old) (D.state disk.new)) }
{
    let names = spec_names(alloc, &sale.specs)?;
    let Sale {
        specs,
        rules,
        actions,
    } = sale;
    let house = open(alloc, disk, journal, stamp, specs, rules)?;
    go_on(alloc, disk, house, version, net, &names, actions)
}

/// Opens the journal of this name.
fn open<D: Disk>(
    alloc: Global,
    disk: &mut D,
    journal: &str,
    stamp: &Stamp,
    specs: Vec<Bid>,
    rules: Rules,
) -> Result<House, Fault>
    requires specs { AreSpecs specs.items }
    requires rules { AreRules rules }
    ensures leaves { Leaves (D.state disk.old) (D.state disk.new) }
    ensures ok { IfOk result (λ house. HasOpened
        (journal_asked journal.now stamp.now specs.items rules) (D.state disk.old)
        (D.state disk.new) house) }
    ensures fault { IfErr result (IsUnopened (journal_asked journal.now stamp.now specs.items rules)
        (D.state disk.old) (D.state disk.new)) }
{
    if disk.choose(journal).is_err() {
        return Err(Fault::Disk);
    }
    match House::open(alloc, disk, specs, rules, stamp) {
        Ok(house) => Ok(house),
        Err(OpenError::NotAJournal) => Err(Fault::Refused(Declined::Journal(NO_JOURNAL))),
        Err(OpenError::Full) => Err(Fault::Refused(Declined::Journal(NO_ROOM))),
        Err(OpenError::Disk) => Err(Fault::Disk),
        Err(OpenError::NoMemory) => Err(Fault::NoMemory),
    }
}

/// Goes on with an auction by the rows of the tables' version.
fn go_on<D: Disk>(
    alloc: Global,
    disk: &mut D,
    house: House,
    version: Version,
    net: &Network,
    names: &[Name],
    actions: Vec<TimedAct>,
) -> Result<Answer, Fault>
    requires chosen { (D.state disk.old).chosen ≡ true }
    requires inside { (D.state disk.old).tells ≡ true → house.gate < length
        (D.state disk.old).file.now.bytes }
    requires names { names.now ≡ spec_names house.auction.specs }
    requires paths { All (λ spec. IsPathOn net.now spec.path) house.auction.specs }
    requires actions { AreActions actions.items }
    requires alone { version ≡ Version.First → HasHeadwaysAlone net.now }
    ensures leaves { Leaves (D.state disk.old) (D.state disk.new) }
    ensures same { SameChosen (D.state disk.old) (D.state disk.new) }
    ensures ok { IfOk result (λ answer. OfVersion version net.entry.now (λ R family Keeps. GoesOnFrom
        family Keeps net.entry.now names.now actions.items house (D.state disk.old)
        (D.state disk.new) answer)) }
    ensures done { IfOk result (λ answer. (answer.status ≡ optimal_status)
        ⊎ (answer.status ≡ gap_status)) }
    ensures fault { IfErr result (IsRefusedLater house actions.items (D.state disk.old)
        (D.state disk.new)) }
{
    match version {
        Version::First => {
            headway_rows_are_told(net);
            go_on_by(alloc, disk, house, net, &HeadwayRows::new(), names, actions)
        }
        Version::Second => {
            net.laws();
            all_rows_are_told(net);
            go_on_by(alloc, disk, house, net, &all_rows(), names, actions)
        }
    }
}

/// Posts the next round of an auction by a family of rows, or prints its close where it has none.
fn go_on_by<D: Disk, F: RowText>(
    alloc: Global,
    disk: &mut D,
    house: House,
    net: &Network,
    rows: &F,
    names: &[Name],
    actions: Vec<TimedAct>,
) -> Result<Answer, Fault>
    requires chosen { (D.state disk.old).chosen ≡ true }
    requires inside { (D.state disk.old).tells ≡ true → house.gate < length
        (D.state disk.old).file.now.bytes }
    requires rule { (bids : List Asked) → TellsConflicts net.now bids (F.KeepsRule rows.now
        net.now) }
    requires names { names.now ≡ spec_names house.auction.specs }
    requires paths { All (λ spec. IsPathOn net.now spec.path) house.auction.specs }
    requires actions { AreActions actions.items }
    ensures leaves { Leaves (D.state disk.old) (D.state disk.new) }
    ensures same { SameChosen (D.state disk.old) (D.state disk.new) }
    ensures ok { IfOk result (λ answer. GoesOnFrom
        (record
        { cmp = F.Row.cmp; rows = F.rows_of rows.now net.entry.now; texts = F.texts_of rows.now })
        (F.KeepsRule rows.now net.entry.now) net.entry.now names.now actions.items house
        (D.state disk.old) (D.state disk.new) answer) }
    ensures fault { IfErr result (IsRefusedLater house actions.items (D.state disk.old)
        (D.state disk.new)) }
{
    if house.state().closed() {
        let answer = print_close(alloc, house.state(), actions)?;
        return Ok(answer);
    }
    match post_round(alloc, disk, house, net, rows, names, actions) {
        Ok(posted) => Ok(posted.answer),
        Err(PostError::RoundOrder(_)) => unreachable!(),
        Err(PostError::Full(_)) => Err(Fault::Refused(Declined::Journal(NO_ROOM))),
        Err(PostError::Disk) => Err(Fault::Disk),
        Err(PostError::NoMemory) => Err(Fault::NoMemory),
    }
}
