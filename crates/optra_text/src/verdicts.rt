//! The text of a verdict on a certificate.
ghost use Rattle.std.specs.Prelude.{◌≡◌, ◌++◌, ◌∷◌, [], true, IfOk, OnOk};
ghost use Rattle.std.specs.Fmt.{decimal};
ghost use Rattle.optra_records.specs.Texts.{is_shown, record_text};
ghost use Rattle.optra_text.specs.VerdictTexts.{verdict_record, verdict_text_of};

use optra_network::{Cents, NoMemory};
use optra_records::{Fields, Printer};
use std::alloc::Global;

/// A verdict, as it is printed.
#[derive(Clone, Copy, Debug, PartialEq, Eq)]
pub enum VerdictView {
    /// The certificate is valid.
    Yes {
        /// What its choice is worth, in cents.
        revenue: Cents,
        /// What no choice that keeps the rule is worth more than, in cents.
        bound: Cents,
    },
    /// It isn't.
    No {
        /// The first reason, 1 to 7: a list of legs that is no walk, a conflict, the revenue, a leg decided twice, a
        /// leaf that isn't dead, a price, the bound.
        reason: u8,
    },
    /// The bytes are no certificate's text.
    Unreadable {
        /// The place of the first record at fault, from 1; 0 for the bytes as a whole.
        row: u64,
        /// The fault, 1 to 6: of the records' form, of the version, of a record, of a name, of a number, of the order.
        code: u8,
    },
}

/// The text of a verdict: one record.
pub fn verdict_text(alloc: Global, view: VerdictView) -> Result<Vec<u8>, NoMemory>
    ensures { IfOk result (λ text. text.items ≡ verdict_text_of view) }
{
    let mut printer = Printer::new(alloc);
    let mut fields = Fields::new(alloc);
    print_verdict(alloc, &mut printer, &mut fields, view)?;
    printer.finish()
}

/// Prints the record of a verdict.
pub(crate) fn print_verdict(
    alloc: Global,
    printer: &mut Printer,
    fields: &mut Fields,
    view: VerdictView,
) -> Result<(), NoMemory>
    ensures { OnOk result (printer.new ≡ printer.old ++ record_text (verdict_record view)) }
{
    add_verdict(alloc, fields, view)?;
    printer.print(fields)
}

/// The fields of the record of a verdict.
fn add_verdict(alloc: Global, fields: &mut Fields, view: VerdictView) -> Result<(), NoMemory>
    ensures told { OnOk result (fields.new ≡ verdict_record view) }
    ensures shown { OnOk result (is_shown fields.new ≡ true) }
{
    fields.clear();
    fields.text("verdict")?;
    match view {
        VerdictView::Yes { revenue, bound } => {
            fields.text("yes")?;
            fields.signed(revenue)?;
            fields.signed(bound)
        }
        VerdictView::No { reason } => {
            fields.text("no")?;
            add_code(fields, alloc, "K", reason)
        }
        VerdictView::Unreadable { row, code } => {
            fields.text("unreadable")?;
            fields.number(row)?;
            add_code(fields, alloc, "C", code)
        }
    }
}

/// Adds a letter and the number behind it, as the codes of reasons and faults are written.
fn add_code(fields: &mut Fields, alloc: Global, letter: &str, number: u8) -> Result<(), NoMemory>
    ensures { OnOk result (fields.new ≡ fields.old ++ (letter.now ++ decimal number) ∷ []) }
{
    let code = format!(in alloc; "{letter}{number}")?;
    fields.text(code.as_str())
}
