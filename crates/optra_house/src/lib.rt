//! An auction house: an auction whose rounds are kept in a journal on a disk, so that a crash at any moment loses none that
//! was acknowledged.
#![tactic(auto)]

mod closing;
mod entries;
mod fields;
mod house;
mod journal;
mod laws;
mod payloads;
mod refusals;
mod replay;
mod round;
mod rounds;
mod stamp;

pub use house::{House, Posted};
pub use laws::{journal_laws, rest_laws, round_law, stamp_law};
pub use refusals::{OpenError, PostError};
pub use rounds::Rounds;
pub use stamp::Stamp;
