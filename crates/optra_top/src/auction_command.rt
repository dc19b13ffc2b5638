//! The auction command: the files that it gets after the tables of a network and its bids, and what it replies to the contents of
//! its files.
ghost use Rattle.std.specs.Prelude.{◌≡◌, ◌⊎◌, ◌+◌, ◌≤◌, length, option_map, Some, All, IfOk, IfErr, IfSome};
ghost use Rattle.optra_bid.specs.Specs.{IsPathOn};
ghost use Rattle.optra_auction.specs.Machine.{AreRules, AreSpecs};
ghost use Rattle.optra_tables.specs.Actions.{AreActions};
ghost use Rattle.optra_tables.specs.Networks.{HasHeadwaysAlone};
ghost use Rattle.optra_tables.specs.Outcomes.{Fails, Gives};
ghost use Rattle.optra_frame.specs.declared.files.Role.TheVariants.{Table as table_role};
ghost use Rattle.optra_top.specs.AuctionCommand.{AuctionReplies, auction_of, next_auction_file};
ghost use Rattle.optra_top.specs.AuctionRead.{GivesCourse, auction_seen};
ghost use Rattle.optra_verdict.specs.Families.{OfVersion};
ghost use Rattle.optra_frame.specs.Statuses.{gap_status, optimal_status};
ghost use Rattle.optra_frame.specs.ContentsGot.{contents_of};
ghost use Rattle.optra_frame.specs.Files.{file_asked};
ghost use Rattle.optra_play.specs.Play.{IsPlayedOut};
ghost use Rattle.optra_frame.specs.Puts.{texts_of};
ghost use Rattle.optra_frame.specs.Replies.{reply_of};

use optra_auction::Rules;
use optra_bid::Bid;
use optra_frame::{
    Answer, Asked, FilesGot, MOST_TABLES, Role, Version, next_table_file, read_tables,
};
use optra_network::{Network, NoMemory};
use optra_play::play;
use optra_rows::HeadwayRows;
use optra_tables::{ReadError, Table, TimedAct, read_actions, read_rules};
use optra_text::PathText;
use optra_verdict::{all_rows, all_rows_are_told, headway_rows_are_told};
use std::alloc::{AllocError, Global};

/// The file that the command gets after these, or `None` once it has got all. The words name the network's folder, the bids, the
/// stops, the rules and the actions.
pub fn next_auction_file(
    alloc: Global,
    net: &str,
    bids: &str,
    stops: &str,
    rules: &str,
    actions: &str,
    got: &FilesGot,
) -> Result<Option<Asked>, AllocError>
    ensures next { IfOk result (λ next. option_map file_asked next
        ≡ next_auction_file net.now bids.now stops.now rules.now actions.now (contents_of got.now)) }
    ensures few { IfOk result (λ next. IfSome next
        (λ _. length (contents_of got.now) ≤ MOST_TABLES + 1)) }
{
    let tables = got.version().table_count();
    if got.count() == tables {
        return asked(alloc, Table::Rules, rules);
    }
    if got.count() == tables + 1 {
        return asked(alloc, Table::Actions, actions);
    }
    next_table_file(alloc, net, bids, stops, got)
}

/// A table's file of this name.
fn asked(alloc: Global, table: Table, name: &str) -> Result<Option<Asked>, AllocError>
    ensures { IfOk result (λ next. option_map file_asked next
        ≡ Some (record { role = table_role table; name = name.now })) }
{
    let name = String::from_str(alloc, name)?;
    let role = Role::Table(table);
    Ok(Some(Asked { role, name }))
}

/// The version of the tables, a network, the specifications of an auction on it, its rules and its actions.
#[derive(Drop)]
pub struct AuctionTables {
    pub version: Version,
    pub net: Network,
    pub specs: Vec<Bid>,
    pub rules: Rules,
    pub actions: Vec<TimedAct>,
}

/// Reads the tables, plays the auction with one graph for each path specification, and puts the files of each round where a
/// prefix is given. It errs exactly where the tables are refused, or by want of memory.
pub fn reply(alloc: Global, files: &FilesGot, certs: &Option<PathText>) -> Result<Answer, ReadError>
    ensures ok { IfOk result (λ answer. AuctionReplies certs.now (contents_of files.now)
        (reply_of answer)) }
    ensures done { IfOk result (λ answer. (answer.status ≡ optimal_status)
        ⊎ (answer.status ≡ gap_status)) }
    ensures fault { IfErr result (λ error. Fails error (auction_of (contents_of files.now))) }
{
    let tables = read_auction(alloc, files)?;
    let AuctionTables {
        version,
        net,
        specs,
        rules,
        actions,
    } = tables;
    let answer = play_by(alloc, version, &net, specs, rules, actions, certs);
    drop(net);
    let Ok(answer) = answer else {
        return Err(ReadError::NoMemory);
    };
    Ok(answer)
}

/// Plays the auction by the rows of the tables' version.
fn play_by(
    alloc: Global,
    version: Version,
    net: &Network,
    specs: Vec<Bid>,
    rules: Rules,
    actions: Vec<TimedAct>,
    certs: &Option<PathText>,
) -> Result<Answer, NoMemory>
    requires specs { AreSpecs specs.items }
    requires paths { All (λ spec. IsPathOn net.now spec.path) specs.items }
    requires rules { AreRules rules }
    requires actions { AreActions actions.items }
    requires alone { version ≡ Version.First → HasHeadwaysAlone net.now }
    ensures { IfOk result (λ answer. OfVersion version net.entry.now (λ R family Keeps. IsPlayedOut
        family Keeps net.entry.now certs.now specs.items rules actions.items answer.status
        answer.text.items (texts_of answer.puts.items))) }
{
    match version {
        Version::First => {
            headway_rows_are_told(net);
            play(
                alloc,
                net,
                &HeadwayRows::new(),
                specs,
                rules,
                actions,
                certs,
            )
        }
        Version::Second => {
            net.laws();
            all_rows_are_told(net);
            play(alloc, net, &all_rows(), specs, rules, actions, certs)
        }
    }
}

/// The tables that the files mean. It errs by their first fault, or by want of memory.
pub(crate) fn read_auction(alloc: Global, files: &FilesGot) -> Result<AuctionTables, ReadError>
    ensures read { Gives auction_seen result (auction_of (contents_of files.now)) }
    ensures specs { IfOk result (λ tables. AreSpecs tables.specs.items) }
    ensures paths { IfOk result (λ tables. All (λ spec. IsPathOn tables.net spec.path)
        tables.specs.items) }
    ensures rules { IfOk result (λ tables. AreRules tables.rules) }
    ensures actions { IfOk result (λ tables. AreActions tables.actions.items) }
    ensures alone { IfOk result (λ tables. tables.version ≡ Version.First
        → HasHeadwaysAlone tables.net) }
{
    let tables = read_tables(alloc, files)?;
    match read_course(alloc, files) {
        Ok((rules, actions)) => Ok(AuctionTables {
            version: tables.version,
            net: tables.net,
            specs: tables.bids,
            rules,
            actions,
        }),
        Err(error) => {
            drop(tables);
            Err(error)
        }
    }
}

/// The rules and the actions that the files mean, where the tables of the network and its bids have no fault.
fn read_course(alloc: Global, files: &FilesGot) -> Result<(Rules, Vec<TimedAct>), ReadError>
    ensures read { GivesCourse (contents_of files.now) result }
    ensures rules { IfOk result (λ course. AreRules course.0) }
    ensures actions { IfOk result (λ course. AreActions course.1.items) }
{
    let rules_text = files.table(Table::Rules);
    let rules = read_rules(alloc, rules_text)?;
    let actions_text = files.table(Table::Actions);
    let actions = read_actions(alloc, actions_text)?;
    Ok((rules, actions))
}
