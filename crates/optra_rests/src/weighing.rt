//! What legs cost a walk, and which legs and starts it may have.
ghost use Rattle.std.specs.Prelude.{◌≡◌, true};
ghost use Rattle.optra_walk.specs.Families.{IsUsable};
ghost use Rattle.optra_rests.specs.Weights.{Weights, TellsCost, AreAllFree, AreAlike};

use optra_network::Minute;
use optra_walk::Leg;

/// What each leg costs a walk, in thousandths of a cent, and which legs and starts a walk may have.
///
/// The answers depend on the leg or the minute alone.
pub trait Weighing {
    /// The network and the train type whose legs are asked of, and the answers.
    ghost weights: { Self → Weights };

    /// What the leg costs, 0 to 2^60; `None` exactly where a walk may not have it.
    fn cost(&self, leg: Leg) -> Option<i128>
        requires { IsUsable (weights self.now).net (weights self.now).kind leg }
        ensures { TellsCost (weights self.now) leg result };

    /// Whether it sees at once that a walk may have every leg, at no cost. It is never true of
    /// others.
    fn is_free(&self) -> bool
        ensures { result ≡ true → AreAllFree (weights self.now) }
    {
        false
    }

    /// Whether it sees at once that both legs cost the same, or that a walk may have neither. It is
    /// never true of others; a weighing that doesn't see it says no, and is then asked of each leg.
    fn alike(&self, first: Leg, second: Leg) -> bool
        requires first { IsUsable (weights self.now).net (weights self.now).kind first }
        requires second { IsUsable (weights self.now).net (weights self.now).kind second }
        ensures { result ≡ true → AreAlike (weights self.now) first second }
    {
        let _ = first;
        let _ = second;
        false
    }

    /// Whether a walk may start at the minute.
    fn may_start(&self, minute: Minute) -> bool
        ensures { result ≡ (weights self.now).may_start minute };
}
