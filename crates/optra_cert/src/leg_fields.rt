//! The leg of a bid that a record of a certificate tells, in a `leg` and in a `split`.
ghost use Rattle.std.specs.Prelude.{◌<◌, ◌≤◌, drop, IfOk};
ghost use Rattle.csv.specs.Records.{fields_of};
ghost use Rattle.optra_cert.specs.Forms.{field_at};
ghost use Rattle.optra_cert.specs.Outcomes.{Gives};
ghost use Rattle.optra_cert.specs.RecordFields.{leg_by_fields, leg_told};

use crate::CertCode;
use crate::record_fields::{field, number_or};
use crate::refusals::{Refusal, known};
use crate::row_fields::track_in;
use csv::ByteRecord;
use optra_network::Network;
use optra_walk::{Leg, action_of_word, start_of_word};

/// The last minute of a departure.
const LAST_DEPARTURE: u64 = 2879;

/// The position of the bid and the leg that stand behind the word.
pub fn leg_told(net: &Network, bids: usize, row: &ByteRecord) -> Result<(u32, Leg), Refusal>
    requires { bids ≤ 1000 }
    ensures gives { Gives (λ told. told) result
        (leg_told net.now bids (drop 1 (fields_of row.now))) }
    ensures there { IfOk result (λ told. told.0 < bids) }
{
    if row.len() != 7 {
        return Err(Refusal::Fault(CertCode::Record));
    }
    leg_by_fields(net, bids, row)
}

/// The leg of a record of seven fields: its words, and then the others from left to right.
#[tactic(auto, unfolding(crate::specs::RecordFields::leg_by_fields))]
fn leg_by_fields(net: &Network, bids: usize, row: &ByteRecord) -> Result<(u32, Leg), Refusal>
    requires { bids ≤ 1000 }
    ensures gives { let fields = fields_of row.now in Gives (λ told. told) result
        (leg_by_fields net.now bids (field_at fields 1) (field_at fields 2) (field_at fields 3)
        (field_at fields 4) (field_at fields 5) (field_at fields 6)) }
    ensures there { IfOk result (λ told. told.0 < bids) }
{
    let from_halt = known(CertCode::Record, start_of_word(field(row, 4)))?;
    let action = known(CertCode::Record, action_of_word(field(row, 5)))?;
    let number = number_or(field(row, 1), 1, bids as u64)?;
    let track = known(CertCode::Name, track_in(net, field(row, 2)))?;
    let depart = number_or(field(row, 3), 0, LAST_DEPARTURE)?;
    let dwell = number_or(field(row, 6), 0, u64::from(action.longest_dwell()))?;
    let leg = Leg {
        track,
        depart: depart as u16,
        from_halt,
        action: action.with_dwell(dwell as u16),
    };
    Ok((number as u32 - 1, leg))
}
