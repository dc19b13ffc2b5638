//! The table of an auction's actions.

ghost use Rattle.std.specs.Prelude.{◌≡◌, ◌≤◌, IfOk, length};
ghost use Rattle.csv.specs.Records.{fields_of};
ghost use Rattle.optra_records.specs.Tables.{field};
ghost use Rattle.optra_tables.specs.Actions.{AreActions, action_row, actions_header, actions_of, amount_at, asked_at, has_amount, is_amount, is_round, told_at, word_of};
ghost use Rattle.optra_tables.specs.Fields.{name_at};
ghost use Rattle.optra_tables.specs.Outcomes.{Gives};
ghost use Rattle.optra_tables.specs.Rows.{table_read};

use crate::action_list::ActionList;
use crate::bids::name_from;
use crate::fields::{name_at, number_at, shaped};
use crate::outcomes::{fails, row_answer};
use crate::rows::read_rows;
use crate::{Kind, ReadError, Table, TableFault, TimedAct};
use csv::ByteRecord;
use optra_auction::Act;
use optra_bid::Name;
use optra_network::{Cents, NetRefusal};
use optra_records::{TableError, TableRows, is_cell};
use std::alloc::Global;

/// How many fields a record has.
const FIELDS: usize = 6;

/// The most actions of a table.
const MOST_ACTIONS: usize = 100_000;

/// What an action asks for, by the word of its field.
#[derive(Clone, Copy)]
pub enum Word {
    Open,
    Raise,
    Amend,
    Withdraw,
}

/// What the action field of a record asks for.
fn word_at(cells: &ByteRecord) -> Option<Word>
    ensures { result ≡ word_of (field (fields_of cells.now) 2) }
{
    if is_cell(cells, 2, "open") {
        return Some(Word::Open);
    }
    if is_cell(cells, 2, "raise") {
        return Some(Word::Raise);
    }
    if is_cell(cells, 2, "amend") {
        return Some(Word::Amend);
    }
    if is_cell(cells, 2, "withdraw") {
        return Some(Word::Withdraw);
    }
    None
}

/// The name in a field, in memory of its own.
fn name_in(alloc: Global, row: u32, cells: &ByteRecord, i: usize) -> Result<Name, ReadError>
    ensures { Gives (λ name. name) result (name_at Table.Actions row (fields_of cells.now) i) }
{
    let text = name_at(Table::Actions, row, cells, i)?;
    Ok(name_from(alloc, text)?)
}

/// The amount of a record, in cents.
fn amount_at(row: u32, cells: &ByteRecord) -> Result<Cents, ReadError>
    ensures { Gives (λ cents. cents) result (amount_at row (fields_of cells.now)) }
{
    let cents = number_at(Table::Actions, row, cells, 5)?;
    Ok(cents as i64)
}

/// What a record asks of a bid for a bidder.
#[tactic(auto, unfolding(crate::specs::Actions::asked_at))]
fn asked_at(
    alloc: Global,
    row: u32,
    cells: &ByteRecord,
    bidder: Name,
    bid: Name,
    word: Option<Word>,
) -> Result<Option<Act>, ReadError>
    ensures { Gives (λ asked. asked) result (asked_at row (fields_of cells.now) bidder bid word) }
{
    match word {
        Some(Word::Open) => {
            let spec = name_in(alloc, row, cells, 4)?;
            let amount = amount_at(row, cells)?;
            Ok(Some(Act::Opening {
                bidder,
                bid,
                spec,
                amount,
            }))
        }
        Some(Word::Raise) => {
            let amount = amount_at(row, cells)?;
            Ok(Some(Act::Raise {
                bidder,
                bid,
                amount,
            }))
        }
        Some(Word::Amend) => {
            let spec = name_in(alloc, row, cells, 4)?;
            Ok(Some(Act::Amend { bidder, bid, spec }))
        }
        Some(Word::Withdraw) => Ok(Some(Act::Withdraw { bidder, bid })),
        None => Ok(None),
    }
}

/// What a record says, by its form alone: its round and what it asks for.
#[tactic(auto, unfolding(crate::specs::Actions::told_at))]
fn told_at(alloc: Global, row: u32, cells: &ByteRecord) -> Result<(u64, Option<Act>), ReadError>
    ensures { Gives (λ told. (told.0, told.1)) result (told_at row (fields_of cells.now)) }
{
    shaped(Table::Actions, row, FIELDS, cells)?;
    let round = number_at(Table::Actions, row, cells, 0)?;
    let bidder = name_in(alloc, row, cells, 1)?;
    let bid = name_in(alloc, row, cells, 3)?;
    let asked = asked_at(alloc, row, cells, bidder, bid, word_at(cells))?;
    Ok((round, asked))
}

/// Whether an amount of cents is at most 1,000,000,000.
fn is_amount(amount: Cents) -> bool
    ensures { result ≡ is_amount amount }
{
    amount <= 1_000_000_000
}

/// Whether the amount of an action, where it has one, is in range.
fn has_amount(act: &Act) -> bool
    ensures { result ≡ has_amount act.now }
{
    match act {
        Act::Opening { amount, .. } => is_amount(*amount),
        Act::Raise { amount, .. } => is_amount(*amount),
        Act::Amend { .. } => true,
        Act::Withdraw { .. } => true,
    }
}

/// Whether a round is 1 to 100.
fn is_round(round: u64) -> bool
    ensures { result ≡ is_round round }
{
    1 <= round && round <= 100
}

/// Reads one record.
#[tactic(auto, unfolding(crate::specs::Actions::action_row))]
fn read_row(
    alloc: Global,
    actions: &mut ActionList,
    row: u32,
    cells: &ByteRecord,
) -> Result<(), ReadError>
    ensures { Gives (λ _. actions.new) result (action_row actions.old row (fields_of cells.now)) }
{
    let (round, asked) = told_at(alloc, row, cells)?;
    if actions.len() >= MOST_ACTIONS {
        return fails(Table::Actions, row, Kind::Net(NetRefusal::TooMany));
    }
    let Some(act) = asked else {
        return fails(Table::Actions, row, Kind::Net(NetRefusal::UnknownName));
    };
    if !is_round(round) || !has_amount(&act) {
        return fails(Table::Actions, row, Kind::Net(NetRefusal::Range));
    }
    let round = round as u16;
    actions.push(TimedAct { row, round, act })?;
    Ok(())
}

/// The records of the actions.
struct ActionRows;

impl TableRows for ActionRows {
    ghost use Rattle.std.specs.Prelude.{◌≤◌, length};
    ghost use Rattle.optra_tables.specs.Actions.{action_row};
    ghost use Rattle.optra_tables.specs.Room.{actions_room};

    type Known = ActionList;

    type Context = ();

    type Fault = TableFault;

    ghost step = { λ _. action_row };

    ghost is_kept = { λ actions. length actions ≤ 100000 };

    ghost room = { actions_room };

    fn add(
        alloc: Global,
        _context: &(),
        actions: &mut ActionList,
        row: u32,
        cells: &ByteRecord,
    ) -> Result<(), TableError<TableFault>> {
        row_answer(read_row(alloc, actions, row, cells))
    }
}

/// The header of the actions.
const ACTIONS_HEADER: [&str; 6] = ["round", "bidder", "action", "bid", "spec", "amount"];

/// Reads the table of actions.
fn read_table(
    alloc: Global,
    actions: &mut ActionList,
    cells: &mut ByteRecord,
    bytes: &[u8],
) -> Result<(), ReadError>
    requires { length actions.old ≤ 100000 }
    ensures { Gives (λ _. actions.new) result (table_read action_row Table.Actions actions_header
        actions.old bytes.now) }
{
    read_rows::<ActionRows>(
        alloc,
        &(),
        actions,
        Table::Actions,
        &ACTIONS_HEADER,
        cells,
        bytes,
    )
}

/// The actions of an auction that a table means, in the order of its records, or exactly its first fault.
///
/// - `Header`, `Csv`, `Name` and `Number` as in [`crate::read_network`]. The spec is read to open and to amend, the amount
///   to open and to raise; a field that isn't read may hold any UTF-8. With an unknown action neither is read.
/// - Then, in this order: `Net(TooMany)`, where 100,000 actions were read already; `Net(UnknownName)`, where the action is
///   none of `open`, `raise`, `amend` and `withdraw`; `Net(Range)`, where the round isn't 1 to 100 or an amount that is read
///   is above 1,000,000,000 cents.
///
/// The records of a round needn't stand together: each action keeps its round and the row of its record.
#[tactic(auto, unfolding(crate::specs::Actions::actions_of))]
pub fn read_actions(alloc: Global, bytes: &[u8]) -> Result<Vec<TimedAct>, ReadError>
    ensures gives { Gives (λ actions. actions.items) result (actions_of bytes.now) }
    ensures actions { IfOk result (λ actions. AreActions actions.items) }
{
    let mut cells = ByteRecord::new(alloc);
    let mut actions = ActionList::new(alloc);
    read_table(alloc, &mut actions, &mut cells, bytes)?;
    Ok(actions.into_actions())
}
