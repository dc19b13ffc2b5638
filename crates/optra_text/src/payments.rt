//! The text of payments.
ghost use Rattle.std.specs.Prelude.{◌≡◌, ◌++◌, map, IfOk, OnOk};
ghost use Rattle.optra_records.specs.Texts.{record_text, records_text};
ghost use Rattle.optra_text.specs.PaymentTexts.{pay_record, pay_text_of};

use crate::plans::{PlanView, print_head};
use optra_network::NoMemory;
use optra_payment::Interval;
use optra_records::{Fields, Printer};
use std::alloc::Global;

/// The text of payments: four records on how the plan ended, then each bidder with how many walks it won, what they are worth, and the
/// ends of what it pays.
#[tactic(auto, unfolding(crate::specs::PaymentTexts::pay_text_of))]
pub fn pay_text(alloc: Global, view: PlanView<'_>, pays: &[Interval]) -> Result<Vec<u8>, NoMemory>
    ensures { IfOk result (λ text. text.items ≡ pay_text_of view.entry.revenue view.entry.bound
        view.entry.nodes pays.now) }
{
    let mut printer = Printer::new(alloc);
    let mut fields = Fields::new(alloc);
    print_head(
        &mut printer,
        &mut fields,
        view.revenue,
        view.bound,
        view.nodes,
    )?;
    print_pays(&mut printer, &mut fields, pays)?;
    printer.finish()
}

/// Prints the intervals of bidders.
fn print_pays(printer: &mut Printer, fields: &mut Fields, pays: &[Interval]) -> Result<(), NoMemory>
    ensures { OnOk result (printer.new ≡ printer.old ++ records_text (map pay_record pays.now)) }
{
    'pays: for pay in pays {
        print_pay(printer, fields, pay)?;
    }
    Ok(())
}

/// Prints the interval of a bidder.
fn print_pay(printer: &mut Printer, fields: &mut Fields, pay: &Interval) -> Result<(), NoMemory>
    ensures { OnOk result (printer.new ≡ printer.old ++ record_text (pay_record pay.now)) }
{
    fields.clear();
    fields.text("pay")?;
    fields.text(pay.bidder.text())?;
    fields.number(u64::from(pay.won))?;
    fields.signed(pay.value)?;
    fields.signed(pay.low)?;
    fields.signed(pay.high)?;
    printer.print(fields)
}
