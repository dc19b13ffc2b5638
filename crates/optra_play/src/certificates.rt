//! A plan as a certificate.
ghost use Rattle.std.specs.Prelude.{◌≡◌};
ghost use Rattle.optra_play.specs.Certificates.{certificate_of};

use optra_cert::Certificate;
use optra_search::Plan;

/// The plan as a certificate.
pub fn certificate_of<R>(found: Plan<R>) -> Certificate<R>
    ensures { result ≡ certificate_of found }
{
    Certificate {
        revenue: found.revenue,
        bound: found.bound,
        choice: found.choice,
        tree: found.tree,
    }
}
