//! The text of a demo.
ghost use Rattle.std.specs.Prelude.{◌≡◌, ◌++◌, length, IfOk, OnOk};
ghost use Rattle.optra_records.specs.Texts.{record_text, records_text};
ghost use Rattle.optra_text.specs.PlanTexts.{head_records};
ghost use Rattle.optra_text.specs.DemoTexts.{count_records, demo_record, demo_records, demo_text_of};

use crate::plans::{PlanView, print_count, print_head};
use crate::verdicts::{VerdictView, print_verdict};
use optra_network::NoMemory;
use optra_records::{Fields, Printer};
use optra_walk::Instance;
use std::alloc::Global;

/// The text of a demo: what it was made from, the counts of its stations, tracks, types and bids, the first four records of
/// its plan, and the verdict on the plan's certificate.
#[tactic(auto, unfolding(crate::specs::DemoTexts::demo_text_of))]
pub fn demo_text(
    alloc: Global,
    seed: u32,
    size: u8,
    plan: PlanView<'_>,
    verdict: VerdictView,
) -> Result<Vec<u8>, NoMemory>
    ensures { IfOk result (λ text. text.items ≡ demo_text_of seed size plan.entry.inst.net.now
        (length plan.entry.inst.bids.now) plan.entry.revenue plan.entry.bound plan.entry.nodes
        verdict) }
{
    let mut printer = Printer::new(alloc);
    print_records(alloc, &mut printer, seed, size, plan, verdict)?;
    printer.finish()
}

/// Prints the records of a demo.
fn print_records(
    alloc: Global,
    printer: &mut Printer,
    seed: u32,
    size: u8,
    plan: PlanView<'_>,
    verdict: VerdictView,
) -> Result<(), NoMemory>
    ensures { OnOk result (printer.new ≡ printer.old
        ++ records_text (demo_records seed size plan.entry.inst.net.now
        (length plan.entry.inst.bids.now) plan.entry.revenue plan.entry.bound plan.entry.nodes
        verdict)) }
{
    let mut fields = Fields::new(alloc);
    print_demo(printer, &mut fields, seed, size)?;
    print_counts(printer, &mut fields, plan.inst)?;
    print_plan_head(printer, &mut fields, plan)?;
    print_verdict(alloc, printer, &mut fields, verdict)?;
    Ok(())
}

/// Prints what a demo was made from.
fn print_demo(
    printer: &mut Printer,
    fields: &mut Fields,
    seed: u32,
    size: u8,
) -> Result<(), NoMemory>
    ensures { OnOk result (printer.new ≡ printer.old ++ record_text (demo_record seed size)) }
{
    fields.clear();
    fields.text("demo")?;
    fields.number(u64::from(seed))?;
    fields.number(u64::from(size))?;
    printer.print(fields)
}

/// Prints how many stations, tracks, types and bids there are.
fn print_counts(
    printer: &mut Printer,
    fields: &mut Fields,
    inst: Instance<'_>,
) -> Result<(), NoMemory>
    ensures { OnOk result (printer.new ≡ printer.old
        ++ records_text (count_records inst.entry.net.now (length inst.entry.bids.now))) }
{
    print_count(
        printer,
        fields,
        "stations",
        u64::from(inst.net.station_count()),
    )?;
    print_count(printer, fields, "tracks", u64::from(inst.net.track_count()))?;
    print_count(printer, fields, "types", u64::from(inst.net.type_count()))?;
    print_count(printer, fields, "bids", inst.bids.len() as u64)
}

/// Prints the first four records of a plan.
fn print_plan_head(
    printer: &mut Printer,
    fields: &mut Fields,
    plan: PlanView<'_>,
) -> Result<(), NoMemory>
    ensures { OnOk result (printer.new ≡ printer.old
        ++ records_text (head_records plan.entry.revenue plan.entry.bound plan.entry.nodes)) }
{
    print_head(printer, fields, plan.revenue, plan.bound, plan.nodes)
}
