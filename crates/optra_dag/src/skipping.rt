//! When the first best path need not be searched again, as the contract of a call that does nothing
//! else.
ghost use Rattle.optra_dag.specs.Skips.{StaysFirstBest, StaysWorthless, StaysClosed};

/// Where no arc opens, none that is open weighs more than it did, and each arc of the first best
/// path is open still and weighs what it did, that path is the first best still, with the same
/// sum. Where no path had a sum above 0, none has then, and where there was no path there is none,
/// whatever closed or fell.
pub fn skip_laws()
    ensures first_best { StaysFirstBest }
    ensures worthless { StaysWorthless }
    ensures closed { StaysClosed }
{}
