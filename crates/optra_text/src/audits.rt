//! The text of a report on a timetable.

ghost use Rattle.std.specs.Prelude.{◌≡◌, ◌+◌, ◌<◌, ◌++◌, ◌∷◌, [], length, map, All, IfOk, OnOk};
ghost use Rattle.optra_network.specs.Net.{IsStation};
ghost use Rattle.optra_audit.specs.Reports.{IsEmpty, IsReport};
ghost use Rattle.optra_audit.specs.Trains.{AreLines, choice_of, trains_of};
ghost use Rattle.optra_records.specs.Texts.{record_text, records_text};
ghost use Rattle.optra_walk.specs.Choices.{IsConflictFree, revenue_of};
ghost use Rattle.optra_text.specs.AuditTexts.{audit_text_of, clash_record, clash_word, code_word, fault_record, found_records, over_record, revenue_records};

use crate::plans::{print_amount, print_count};
use optra_audit::{Clash, Fault, FaultCode, Line, Over, Report, choice, report_is_free};
use optra_network::{Cents, Network, NoMemory};
use optra_records::{Fields, Printer};
use optra_walk::{Instance, revenue};
use std::alloc::Global;

/// The text of the report on a timetable: its faults, its clashes and its overs, how many they are together, and, where there are
/// none, what its trains are worth in cents. It needs the lines of a timetable as `audit` does, and their report.
#[tactic(auto, unfolding(crate::specs::AuditTexts::audit_text_of))]
pub fn audit_text(
    alloc: Global,
    inst: Instance<'_>,
    lines: &[Line],
    report: &Report,
) -> Result<Vec<u8>, NoMemory>
    requires lines { AreLines inst.net.now inst.bids.now lines.now }
    requires report { IsReport inst.net.now inst.bids.now (trains_of (length inst.bids.now)
        lines.now) report.now }
    ensures { IfOk result (λ text. text.items ≡ audit_text_of inst.entry.net.now
        inst.entry.bids.now (trains_of (length inst.entry.bids.now) lines.now) report.now) }
{
    let mut printer = Printer::new(alloc);
    let mut fields = Fields::new(alloc);
    print_faults(&mut printer, &mut fields, &report.faults)?;
    print_clashes(&mut printer, &mut fields, &report.clashes)?;
    print_overs(&mut printer, &mut fields, inst.net, &report.overs)?;
    let count = found(report);
    print_count(&mut printer, &mut fields, "faults", count)?;
    print_revenue(alloc, &mut printer, &mut fields, inst, lines, report)?;
    printer.finish()
}

/// How many faults, clashes and overs a report has.
fn found(report: &Report) -> u64
    ensures { result ≡ length report.now.faults + length report.now.clashes
        + length report.now.overs }
{
    let faults: &[Fault] = &report.faults;
    let clashes: &[Clash] = &report.clashes;
    let overs: &[Over] = &report.overs;
    (faults.len() + clashes.len() + overs.len()) as u64
}

/// Prints what the trains of a timetable are worth, where it has no fault.
fn print_revenue(
    alloc: Global,
    printer: &mut Printer,
    fields: &mut Fields,
    inst: Instance<'_>,
    lines: &[Line],
    report: &Report,
) -> Result<(), NoMemory>
    requires lines { AreLines inst.net.now inst.bids.now lines.now }
    requires report { IsReport inst.net.now inst.bids.now (trains_of (length inst.bids.now)
        lines.now) report.now }
    ensures { OnOk result (printer.new ≡ printer.old ++ records_text (revenue_records
        inst.entry.net.now inst.entry.bids.now (trains_of (length inst.entry.bids.now)
        lines.now) (length (found_records inst.entry.net.now report.now)))) }
{
    if found(report) > 0 {
        return Ok(());
    }
    let earned = earned(alloc, inst, lines, report)?;
    print_amount(printer, fields, "revenue", earned)
}

/// What the trains of a timetable without a fault are worth, in cents.
fn earned(
    alloc: Global,
    inst: Instance<'_>,
    lines: &[Line],
    report: &Report,
) -> Result<Cents, NoMemory>
    requires lines { AreLines inst.net.now inst.bids.now lines.now }
    requires report { IsReport inst.net.now inst.bids.now (trains_of (length inst.bids.now)
        lines.now) report.now }
    requires faultless { IsEmpty report.now }
    ensures { IfOk result (λ cents. cents ≡ revenue_of inst.entry.net.now inst.entry.bids.now
        (choice_of (trains_of (length inst.entry.bids.now) lines.now))) }
{
    report_is_free(inst, lines, report);
    let choice = choice(alloc, inst, lines)?;
    Ok(revenue(inst.net, inst.bids, &choice.walks))
}

/// Prints faults.
fn print_faults(
    printer: &mut Printer,
    fields: &mut Fields,
    faults: &[Fault],
) -> Result<(), NoMemory>
    ensures { OnOk result (printer.new ≡ printer.old
        ++ records_text (map fault_record faults.now)) }
{
    'faults: for fault in faults {
        print_fault(printer, fields, *fault)?;
    }
    Ok(())
}

/// Prints a fault.
fn print_fault(printer: &mut Printer, fields: &mut Fields, fault: Fault) -> Result<(), NoMemory>
    ensures { OnOk result (printer.new ≡ printer.old ++ record_text (fault_record fault)) }
{
    fields.clear();
    fields.text("fault")?;
    fields.number(u64::from(fault.bid) + 1)?;
    fields.number(u64::from(fault.leg) + 1)?;
    fields.text(code_word(fault.code))?;
    printer.print(fields)
}

/// Prints clashes.
fn print_clashes(
    printer: &mut Printer,
    fields: &mut Fields,
    clashes: &[Clash],
) -> Result<(), NoMemory>
    ensures { OnOk result (printer.new ≡ printer.old
        ++ records_text (map clash_record clashes.now)) }
{
    'clashes: for clash in clashes {
        print_clash(printer, fields, *clash)?;
    }
    Ok(())
}

/// Prints a clash.
fn print_clash(printer: &mut Printer, fields: &mut Fields, clash: Clash) -> Result<(), NoMemory>
    ensures { OnOk result (printer.new ≡ printer.old ++ record_text (clash_record clash)) }
{
    fields.clear();
    fields.text(clash_word(clash))?;
    fields.number(u64::from(clash.bid) + 1)?;
    fields.number(u64::from(clash.leg) + 1)?;
    fields.number(u64::from(clash.other_bid) + 1)?;
    fields.number(u64::from(clash.other_leg) + 1)?;
    printer.print(fields)
}

/// The word of a clash.
fn clash_word(clash: Clash) -> &'static str
    ensures { result.now ≡ clash_word clash }
{
    if clash.crossing {
        "crossing"
    } else {
        "headway"
    }
}

/// Prints overs.
fn print_overs(
    printer: &mut Printer,
    fields: &mut Fields,
    net: &Network,
    overs: &[Over],
) -> Result<(), NoMemory>
    requires { All (λ over. IsStation net.now over.station) overs.now }
    ensures { OnOk result (printer.new ≡ printer.old
        ++ records_text (map (over_record net.now) overs.now)) }
{
    'overs: for over in overs {
        print_over(printer, fields, net, *over)?;
    }
    Ok(())
}

/// Prints an over, with the limit of its station.
fn print_over(
    printer: &mut Printer,
    fields: &mut Fields,
    net: &Network,
    over: Over,
) -> Result<(), NoMemory>
    requires { IsStation net.now over.station }
    ensures { OnOk result (printer.new ≡ printer.old ++ record_text (over_record net.now over)) }
{
    fields.clear();
    fields.text("halts")?;
    fields.text(net.station_name(over.station))?;
    fields.number(u64::from(over.minute))?;
    fields.number(u64::from(over.standing))?;
    fields.number(u64::from(net.halt_max(over.station)))?;
    printer.print(fields)
}

/// The word of a code.
fn code_word(code: FaultCode) -> &'static str
    ensures { result.now ≡ code_word code }
{
    match code {
        FaultCode::Origin => "origin",
        FaultCode::Start => "start",
        FaultCode::Depart => "depart",
        FaultCode::Kind => "kind",
        FaultCode::Place => "place",
        FaultCode::Time => "time",
        FaultCode::Mode => "mode",
        FaultCode::Stop => "stop",
        FaultCode::Wait => "wait",
        FaultCode::Early => "early",
        FaultCode::Last => "last",
        FaultCode::Stops => "stops",
        FaultCode::Destination => "destination",
        FaultCode::Arrive => "arrive",
    }
}
