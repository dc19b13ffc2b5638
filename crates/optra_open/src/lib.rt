//! The node that is open while the tree of a certificate is gone through.
//!
//! One room has its decisions ([`NodeRoom`]): further ones are put to it and the last is taken off again, without a copy
//! ([`pass`]). What the node allows and what its yes legs use is answered from the room ([`OpenNode`]).
//!
//! It serves the check of certificates alone.
#![tactic(auto)]

mod blocked_legs;
mod decision_index;
mod decision_uses;
mod leaf_prices;
mod loaded;
mod node_room;
mod open_node;

pub use leaf_prices::is_empty;
pub use loaded::all_keep_off;
pub use node_room::{NodeRoom, pass, root_room};
pub use open_node::OpenNode;
