//! What the fields of a record of a certificate tell alone: a number, an amount, a bid.
ghost use Rattle.std.specs.Prelude.{◌≡◌, ◌<◌, ◌≤◌, ◌^◌, bytes_eq, drop, IfOk};
ghost use Rattle.csv.specs.Records.{fields_of};
ghost use Rattle.optra_network.specs.Net.{IsFromTo};
ghost use Rattle.optra_cert.specs.Forms.{field_at};
ghost use Rattle.optra_cert.specs.Outcomes.{Gives};
ghost use Rattle.optra_cert.specs.RecordFields.{amount_told, bid_told, count_told, number_or, number_told};

use crate::CertCode;
use crate::refusals::{Refusal, known};
use crate::row_fields::number_in;
use csv::ByteRecord;
use optra_network::Cents;

/// The greatest count or amount.
pub const MOST_AMOUNT: u64 = 999_999_999_999_999_999;

/// The field at a place, which is empty where there is none.
pub fn field(row: &ByteRecord, i: usize) -> &[u8]
    ensures { result.now ≡ field_at (fields_of row.now) i }
{
    match row.get(i) {
        Some(field) => field,
        None => &[],
    }
}

/// The number from one to another that stands alone behind the word.
pub fn number_told(row: &ByteRecord, low: u64, high: u64) -> Result<u64, Refusal>
    ensures gives { Gives (λ n. n) result (number_told low high (drop 1 (fields_of row.now))) }
    ensures range { IfOk result (IsFromTo low high) }
{
    if row.len() != 2 {
        return Err(Refusal::Fault(CertCode::Record));
    }
    known(CertCode::Number, number_in(field(row, 1), low, high))
}

/// The count that stands alone behind the word.
pub fn count_told(row: &ByteRecord) -> Result<u64, Refusal>
    ensures gives { Gives (λ n. n) result (count_told (drop 1 (fields_of row.now))) }
    ensures range { IfOk result (λ n. n < 10 ^ 18) }
{
    number_told(row, 0, MOST_AMOUNT)
}

/// The amount that stands alone behind the word.
#[tactic(auto, unfolding(crate::specs::RecordFields::amount_told))]
pub fn amount_told(row: &ByteRecord) -> Result<Cents, Refusal>
    ensures { Gives (λ n. n) result (amount_told (drop 1 (fields_of row.now))) }
{
    let n = count_told(row)?;
    Ok(n as Cents)
}

/// The position of the bid whose number stands alone behind the word.
#[tactic(auto, unfolding(crate::specs::RecordFields::bid_told))]
pub fn bid_told(bids: usize, row: &ByteRecord) -> Result<u32, Refusal>
    requires { bids ≤ 1000 }
    ensures gives { Gives (λ n. n) result (bid_told bids (drop 1 (fields_of row.now))) }
    ensures there { IfOk result (λ n. n < bids) }
{
    let n = number_told(row, 1, bids as u64)?;
    Ok(n as u32 - 1)
}

/// The number from one to another in a field.
pub fn number_or(field: &[u8], low: u64, high: u64) -> Result<u64, Refusal>
    ensures gives { Gives (λ n. n) result (number_or low high field.now) }
    ensures range { IfOk result (IsFromTo low high) }
{
    known(CertCode::Number, number_in(field, low, high))
}

/// Whether a field is a word.
pub fn is_word(field: &[u8], word: &str) -> bool
    ensures { result ≡ bytes_eq field.now word.now }
{
    field == word.as_bytes()
}
