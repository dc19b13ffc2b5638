//! Timed walks of bids: when legs arrive, whether legs are a walk of a bid, what a walk is worth, and how walks are
//! ordered. Here stand the words that every layer above shares: walk, value, choice, conflict, revenue and optimal.
//!
//! No call of this crate takes memory.
#![tactic(auto)]

ghost use Rattle.std.specs.Prelude.{◌≡◌, ◌≤◌};
ghost use Rattle.optra_walk.specs.Legs.{dwell_of};
ghost use Rattle.optra_walk.specs.Words.{action_word, longest_dwell, with_dwell, checked_dwell};

use optra_network::{Minute, TrackId};
use std::marker::Model;

mod coded_row;
mod earning;
mod families;
mod following;
mod instance;
mod ordering;
mod row_list;
mod shares;
mod state;
mod totals;
mod use_codes;
mod valuing;
mod words;

pub use coded_row::CodedRow;
pub use earning::revenue;
pub use families::RowFamily;
pub use following::{arrival, follows, head, next_depart, tail};
pub use instance::Instance;
pub use ordering::walk_order;
pub use row_list::RowList;
pub use shares::{end_price, leg_cents, start_cents, start_value, wait_price};
pub use state::State;
pub use totals::Totals;
pub use use_codes::{code_kind, code_minute, code_track, has_use_code, use_code};
pub use valuing::value;
pub use words::{action_of_word, action_told, start_of_word, start_word};

/// What a train does at the head of a track.
#[derive(Clone, Copy, Debug, PartialEq, Eq)]
pub enum Action {
    /// It runs through.
    Pass,
    /// It makes the next stop of its bid, for a dwell in minutes.
    Halt(u16),
    /// It stands without a stop, for a dwell in minutes, which costs the bid's wait rate.
    Wait(u16),
    /// It ends there.
    Finish,
}

/// The longest dwell of a halt or a wait, in minutes.
const LONGEST_DWELL: u16 = 240;

impl Action {
    /// The minutes that the train stands at the head of the track: 0 where it passes or ends there.
    pub fn dwell(self) -> u16
        ensures { result ≡ dwell_of self }
    {
        match self {
            Action::Pass | Action::Finish => 0,
            Action::Halt(dwell) | Action::Wait(dwell) => dwell,
        }
    }

    /// Its word: `pass`, `halt`, `wait` or `finish`.
    pub fn word(self) -> &'static str
        ensures { result.now ≡ action_word self }
    {
        match self {
            Action::Pass => "pass",
            Action::Halt(_) => "halt",
            Action::Wait(_) => "wait",
            Action::Finish => "finish",
        }
    }

    /// The longest dwell that it may be written with, in minutes: 240 of a halt or a wait, else 0.
    pub fn longest_dwell(self) -> u16
        ensures value { result ≡ longest_dwell self }
        ensures most { result ≤ 240 }
    {
        match self {
            Action::Halt(_) | Action::Wait(_) => LONGEST_DWELL,
            _ => 0,
        }
    }

    /// It for so many minutes in place of its own, where it has any.
    pub fn with_dwell(self, minutes: u16) -> Action
        ensures { result ≡ with_dwell self minutes }
    {
        match self {
            Action::Pass => Action::Pass,
            Action::Halt(_) => Action::Halt(minutes),
            Action::Wait(_) => Action::Wait(minutes),
            Action::Finish => Action::Finish,
        }
    }

    /// It for so many minutes in place of its own. `None` exactly where they are more than its longest dwell.
    pub fn checked_dwell(self, minutes: u64) -> Option<Action>
        ensures { result ≡ checked_dwell self minutes }
    {
        if minutes > u64::from(self.longest_dwell()) {
            return None;
        }
        Some(self.with_dwell(minutes as u16))
    }
}

/// A run over one track, from the minute of departure to the action at the track's head.
#[derive(Clone, Copy, Debug, PartialEq, Eq)]
pub struct Leg {
    pub track: TrackId,
    pub depart: Minute,
    /// Whether the train stood at the track's tail before; else it comes through.
    pub from_halt: bool,
    pub action: Action,
}

/// The legs of a train, one after the other. [`follows`] tells whether they are a walk of a bid.
#[derive(Drop)]
pub struct Walk {
    pub legs: Vec<Leg>,
}

impl Model for Walk {
    ghost use Rattle.std.specs.Prelude.{List};
    ghost use Rattle.optra_walk.specs.declared.Leg.{Leg};

    ghost Value = { List Leg };

    ghost view = { λ a. a.legs.items };
}

/// For each bid of an instance, in the bids' order, the walk that serves it, or `None`.
#[derive(Drop)]
pub struct Choice {
    pub walks: Vec<Option<Walk>>,
}

impl Model for Choice {
    ghost use Rattle.std.specs.Prelude.{List, Option};
    ghost use Rattle.optra_walk.specs.declared.Leg.{Leg};

    ghost Value = { List (Option (List Leg)) };

    ghost view = { λ a. a.walks.items };
}
