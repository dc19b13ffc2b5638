//! A leg of a graph in six bytes.
ghost use Rattle.std.specs.Prelude.{◌≡◌, ◌<◌};
ghost use Rattle.optra_walk.specs.Legs.{dwell_of};

use optra_network::{Minute, TrackId};
use optra_walk::{Action, Leg};

/// What a train did at the tail of a track and does at its head: it came through or stood, and it passes, halts, waits or
/// finishes. How long it stands stands beside it: modes without parts are made from an action without a jump.
#[derive(Clone, Copy)]
pub(crate) enum Modes {
    ThroughPass,
    ThroughHalt,
    ThroughWait,
    ThroughFinish,
    StoodPass,
    StoodHalt,
    StoodWait,
    StoodFinish,
}

/// A leg whose modes and dwell tell its action and whether the train stood before.
#[derive(Clone, Copy)]
pub(crate) struct PackedLeg {
    track: TrackId,
    depart: Minute,
    modes: Modes,
    /// The minutes of the halt or of the wait, and else 0.
    dwell: u8,
}

const _: () = prove!(size_of::<PackedLeg>() == 6);

/// The minutes that the train stands at the head of the track.
fn short_dwell(action: Action) -> u8
    requires { dwell_of action < 256 }
    ensures { result ≡ dwell_of action }
{
    match action {
        Action::Pass | Action::Finish => 0,
        Action::Halt(dwell) | Action::Wait(dwell) => dwell as u8,
    }
}

impl Modes {
    ghost use Rattle.optra_graph.specs.PackedLegs.{action_of, is_from_halt};

    /// The modes of a leg.
    fn new(from_halt: bool, action: Action) -> Modes
        ensures from_halt { is_from_halt result ≡ from_halt }
        ensures action { action_of result (dwell_of action) ≡ action }
    {
        if from_halt {
            match action {
                Action::Pass => Modes::StoodPass,
                Action::Halt(_) => Modes::StoodHalt,
                Action::Wait(_) => Modes::StoodWait,
                Action::Finish => Modes::StoodFinish,
            }
        } else {
            match action {
                Action::Pass => Modes::ThroughPass,
                Action::Halt(_) => Modes::ThroughHalt,
                Action::Wait(_) => Modes::ThroughWait,
                Action::Finish => Modes::ThroughFinish,
            }
        }
    }

    /// Whether the train stood at the tail.
    fn is_from_halt(self) -> bool
        ensures { result ≡ is_from_halt self }
    {
        match self {
            Modes::ThroughPass | Modes::ThroughHalt | Modes::ThroughWait | Modes::ThroughFinish =>
                false,
            Modes::StoodPass | Modes::StoodHalt | Modes::StoodWait | Modes::StoodFinish => true,
        }
    }

    /// What the train does at the head, where it stands for so long if it stands.
    fn action(self, dwell: u8) -> Action
        ensures { result ≡ action_of self dwell }
    {
        match self {
            Modes::ThroughPass | Modes::StoodPass => Action::Pass,
            Modes::ThroughHalt | Modes::StoodHalt => Action::Halt(u16::from(dwell)),
            Modes::ThroughWait | Modes::StoodWait => Action::Wait(u16::from(dwell)),
            Modes::ThroughFinish | Modes::StoodFinish => Action::Finish,
        }
    }
}

impl PackedLeg {
    ghost use Rattle.optra_graph.specs.PackedLegs.{leg_of_packed};

    /// A leg in six bytes.
    pub(crate) fn new(leg: Leg) -> PackedLeg
        requires { dwell_of leg.action < 256 }
        ensures { leg_of_packed result ≡ leg }
    {
        PackedLeg {
            track: leg.track,
            depart: leg.depart,
            modes: Modes::new(leg.from_halt, leg.action),
            dwell: short_dwell(leg.action),
        }
    }

    /// The leg that it stands for.
    pub(crate) fn leg(&self) -> Leg
        ensures { result ≡ leg_of_packed self.now }
    {
        Leg {
            track: self.track,
            depart: self.depart,
            from_halt: self.modes.is_from_halt(),
            action: self.modes.action(self.dwell),
        }
    }
}
