//! What tells one auction from another.
ghost use Rattle.std.specs.Prelude.{◌≡◌, ◌++◌, length, IfOk, OnOk};
ghost use Rattle.optra_house.specs.Payloads.{part_bytes};
ghost use Rattle.optra_house.specs.Stamps.{payload_of};

use optra_network::NoMemory;
use std::alloc::Global;
use std::marker::Model;

/// What a journal is opened with: the bytes that its auction was made from. A journal is opened again only with the same ones.
#[derive(Drop)]
pub struct Stamp {
    pub bids: Vec<u8>,
    pub stops: Vec<u8>,
    pub rules: Vec<u8>,
}

impl Model for Stamp {
    ghost use Rattle.optra_house.specs.Stamps as stamps;

    ghost Value = { stamps.Stamp };

    ghost view = { λ a. record { bids = a.bids.items; stops = a.stops.items; rules = a.rules.items } };
}

impl Stamp {
    /// The payload of its entry.
    #[tactic(auto, unfolding(crate::specs::Payloads::stamp_payload))]
    pub(crate) fn payload(&self, alloc: Global) -> Result<Vec<u8>, NoMemory>
        ensures { IfOk result (λ bytes. bytes.items ≡ payload_of self.now) }
    {
        let mut bytes = Vec::new(alloc);
        bytes.push(STAMP)?;
        put_part(&mut bytes, &self.bids)?;
        put_part(&mut bytes, &self.stops)?;
        put_part(&mut bytes, &self.rules)?;
        Ok(bytes)
    }
}

/// The first byte of a stamp's payload.
const STAMP: u8 = 0;

/// Puts a part behind its length.
fn put_part(bytes: &mut Vec<u8>, part: &[u8]) -> Result<(), NoMemory>
    ensures { OnOk result (bytes.new.items ≡ bytes.old.items ++ part_bytes part.now) }
{
    bytes.extend_from_slice(&(part.len() as u64).to_be_bytes())?;
    bytes.extend_from_slice(part)?;
    Ok(())
}
