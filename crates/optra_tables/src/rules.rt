//! The table of an auction's rules.

ghost use Rattle.std.specs.Prelude.{◌≡◌, IfOk};
ghost use Rattle.csv.specs.Records.{fields_of};
ghost use Rattle.optra_auction.specs.Machine.{AreRules};
ghost use Rattle.optra_tables.specs.Outcomes.{Gives};
ghost use Rattle.optra_tables.specs.Rules.{are_rules, only_rules, rules_at, rules_of};

use crate::fields::{number_at, shaped};
use crate::outcomes::{fails, fault};
use crate::{Kind, ReadError, Table};
use csv::ByteRecord;
use optra_auction::Rules;
use optra_network::NetRefusal;
use optra_records::{Records, under_header};
use std::alloc::Global;

/// How many fields a record has.
const FIELDS: usize = 3;

/// Whether numbers are rules: a least increment of 1 to 1,000,000,000 cents, at most 1,000 thousandths, and 1 to 100
/// rounds.
fn are_rules(min_increment: u64, permille: u64, rounds: u64) -> bool
    ensures { result ≡ are_rules min_increment permille rounds }
{
    1 <= min_increment
        && min_increment <= 1_000_000_000
        && permille <= 1_000
        && 1 <= rounds
        && rounds <= 100
}

/// The rules of a record.
#[tactic(auto, unfolding(crate::specs::Rules::rules_at))]
fn rules_at(row: u32, cells: &ByteRecord) -> Result<Rules, ReadError>
    ensures { Gives (λ rules. rules) result (rules_at row (fields_of cells.now)) }
{
    shaped(Table::Rules, row, FIELDS, cells)?;
    let min_increment = number_at(Table::Rules, row, cells, 0)?;
    let permille = number_at(Table::Rules, row, cells, 1)?;
    let rounds = number_at(Table::Rules, row, cells, 2)?;
    if !are_rules(min_increment, permille, rounds) {
        return fails(Table::Rules, row, Kind::Net(NetRefusal::Range));
    }
    Ok(Rules {
        min_increment: min_increment as i64,
        permille: permille as u16,
        rounds: rounds as u16,
    })
}

/// The rules of the records under the header, which have to be one record.
fn only_rules(records: &mut Records<'_>, cells: &mut ByteRecord) -> Result<Rules, ReadError>
    ensures { Gives (λ rules. rules) result (only_rules records.old) }
{
    if !records.next(cells)? {
        return fails(Table::Rules, 2, Kind::Csv);
    }
    let rules = rules_at(2, cells)?;
    if records.next(cells)? {
        return fails(Table::Rules, 3, Kind::Csv);
    }
    Ok(rules)
}

/// The header of the rules.
const RULES_HEADER: [&str; 3] = ["min_increment", "permille", "rounds"];

/// The rules of an auction that a table means, or exactly its first fault.
///
/// - `Header`, `Csv` and `Number` as in [`crate::read_network`].
/// - `Net(Range)`, where the least increment isn't 1 to 1,000,000,000 cents, the thousandths are above 1,000, or the
///   rounds aren't 1 to 100.
/// - `Csv` at row 2, where no record follows the header, and at row 3, where more than one does. Row 2 is tested first.
///
/// The rules that are read are those of an auction that may be opened.
pub fn read_rules(alloc: Global, bytes: &[u8]) -> Result<Rules, ReadError>
    ensures gives { Gives (λ rules. rules) result (rules_of bytes.now) }
    ensures rules { IfOk result (λ rules. AreRules rules) }
{
    let mut cells = ByteRecord::new(alloc);
    let mut records = Records::of_table(alloc, bytes);
    let missing = fault(Table::Rules, 1, Kind::Header);
    under_header(&mut records, &RULES_HEADER, missing, &mut cells)?;
    only_rules(&mut records, &mut cells)
}
