//! The certificate of bytes, where it is a valid one, and the verdict on bytes.
ghost use Rattle.std.specs.Prelude.{◌≡◌, IfOk};
ghost use Rattle.optra_cert.specs.RowTexts.{AreApart};
ghost use Rattle.optra_verdict.specs.Promises.{TellsConflicts};
ghost use Rattle.optra_verdict.specs.VerdictsOn.{IsReadValid, IsVerdictOn, fault_number, reason_number};

use optra_cert::{CertCode, CertError, Certificate, RowText, read_certificate};
use optra_checker::{Reason, Verdict, check};
use optra_network::NoMemory;
use optra_node::bound_holds;
use optra_text::VerdictView;
use optra_walk::Instance;
use std::alloc::{AllocError, Global};

/// The certificate of bytes, where they are the text of a valid one, by a family of rows; else why they are not, as it is printed.
pub fn read_valid<F: RowText>(
    alloc: Global,
    inst: Instance<'_>,
    rows: &F,
    bytes: &[u8],
) -> Result<Result<Certificate<F::Row>, VerdictView>, NoMemory>
    requires apart { AreApart (F.texts_of rows.now).kinds }
    ensures { IfOk result (λ read. let net = inst.entry.net.now in IsReadValid
        (record { cmp = F.Row.cmp; rows = F.rows_of rows.now net; texts = F.texts_of rows.now })
        (F.KeepsRule rows.now net) net inst.entry.bids.now bytes.now read) }
{
    let cert = match read_certificate(alloc, inst, rows, bytes) {
        Ok(cert) => cert,
        Err(CertError::NoMemory) => return Err(AllocError),
        Err(CertError::Fault(fault)) => {
            return Ok(Err(VerdictView::Unreadable {
                row: fault.row,
                code: fault_number(fault.code),
            }));
        }
    };
    match check(alloc, inst, rows, &cert)? {
        Verdict::Yes { .. } => Ok(Ok(cert)),
        Verdict::No(reason) => Ok(Err(VerdictView::No {
            reason: reason_number(reason),
        })),
    }
}

/// The verdict on bytes, by a family of rows.
pub fn verdict_on<F: RowText>(
    alloc: Global,
    inst: Instance<'_>,
    rows: &F,
    bytes: &[u8],
) -> Result<VerdictView, NoMemory>
    requires rule { TellsConflicts inst.net.now inst.bids.now (F.KeepsRule rows.now inst.net.now) }
    requires apart { AreApart (F.texts_of rows.now).kinds }
    ensures { IfOk result (λ view. let net = inst.entry.net.now in IsVerdictOn
        (record { cmp = F.Row.cmp; rows = F.rows_of rows.now net; texts = F.texts_of rows.now })
        (F.KeepsRule rows.now net) net inst.entry.bids.now bytes.now view) }
{
    bound_holds(inst, rows);
    match read_valid(alloc, inst, rows, bytes)? {
        Ok(cert) => Ok(VerdictView::Yes {
            revenue: cert.revenue,
            bound: cert.bound,
        }),
        Err(why) => Ok(why),
    }
}

/// The number of a reason, as it is printed behind `K`.
fn reason_number(reason: Reason) -> u8
    ensures { result ≡ reason_number reason }
{
    match reason {
        Reason::Walk => 1,
        Reason::Conflict => 2,
        Reason::Revenue => 3,
        Reason::Decision => 4,
        Reason::DeadLeaf => 5,
        Reason::Price => 6,
        Reason::Bound => 7,
    }
}

/// The number of a fault, as it is printed behind `C`.
fn fault_number(code: CertCode) -> u8
    ensures { result ≡ fault_number code }
{
    match code {
        CertCode::Csv => 1,
        CertCode::Version => 2,
        CertCode::Record => 3,
        CertCode::Name => 4,
        CertCode::Number => 5,
        CertCode::Order => 6,
    }
}
