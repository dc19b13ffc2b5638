//! What is known of every payload, every stamp and every journal.
ghost use Rattle.std.specs.Prelude.{◌≡◌, ◌↔◌, ◌<◌, ◌^◌, ℕ, List, None, Some, length};
ghost use Rattle.optra_outside.specs.Disk.{MayLeave, Moment};
ghost use Rattle.optra_bid.specs.declared.bids.Bid.{Bid};
ghost use Rattle.optra_auction.specs.Machine.{State};
ghost use Rattle.optra_auction.specs.declared.Rules.{Rules};
ghost use Rattle.optra_house.specs.Forms.{AreBytes, StandsAt};
ghost use Rattle.optra_house.specs.Ledger.{IsAtRest, Ledger};
ghost use Rattle.optra_house.specs.Payloads.{IsPosting, Posting, round_payload, stamp_payload};
ghost use Rattle.optra_house.specs.Reading.{round_of};
ghost use Rattle.optra_house.specs.Replay.{opens_as};

/// When a payload is read as a round: exactly where it is the payload of that round, with its names, amounts and values in
/// range.
pub fn round_law()
    ensures { (payload : List ℕ) (posting : Posting) → AreBytes payload
        → (round_of payload ≡ Some posting)
        ↔ ((payload ≡ round_payload posting) × IsPosting posting) }
{}

/// Two stamps have the same payload only where their parts are the same.
pub fn stamp_law()
    ensures { (bids stops rules bids_else stops_else rules_else : List ℕ)
        → length bids < 2 ^ 64 → length stops < 2 ^ 64 → length rules < 2 ^ 64
        → length bids_else < 2 ^ 64 → length stops_else < 2 ^ 64 → length rules_else < 2 ^ 64
        → stamp_payload bids stops rules ≡ stamp_payload bids_else stops_else rules_else
        → (bids ≡ bids_else) × (stops ≡ stops_else) × (rules ≡ rules_else) }
{}

/// When a file opens, and as what: exactly where no auction was begun in it, or where it is laid out with the stamp and the
/// payloads of rounds that follow one another. So it is refused exactly where it is neither.
pub fn journal_laws()
    ensures opens { (stamp : List ℕ) (specs : List Bid) (rules : Rules) (file : List ℕ)
        (now : State) → AreBytes file
        → (opens_as stamp specs rules file ≡ Some now) ↔ StandsAt stamp specs rules file now }
    ensures refused { (stamp : List ℕ) (specs : List Bid) (rules : Rules) (file : List ℕ)
        → AreBytes file
        → (opens_as stamp specs rules file ≡ None)
        ↔ ((now : State) → StandsAt stamp specs rules file now → ⊥) }
{}

/// A journal that rests opens as the house's auction, a crash leaves it as it is, and the house's gate is within it.
pub fn rest_laws()
    ensures opens { (stamp : List ℕ) (specs : List Bid) (rules : Rules) (house : Ledger)
        (moment : Moment) → IsAtRest stamp specs rules house moment
        → opens_as stamp specs rules moment.bytes ≡ Some house.auction }
    ensures stays { (stamp : List ℕ) (specs : List Bid) (rules : Rules) (house : Ledger)
        (moment : Moment) → IsAtRest stamp specs rules house moment
        → (image : List ℕ) → MayLeave moment image → image ≡ moment.bytes }
    ensures inside { (stamp : List ℕ) (specs : List Bid) (rules : Rules) (house : Ledger)
        (moment : Moment) → IsAtRest stamp specs rules house moment
        → house.gate < length moment.bytes }
{}
