//! The writer of certificates: the text of one.
ghost use Rattle.std.specs.Prelude.{◌≡◌, ℕ, ◌+◌, ◌<◌, ◌^◌, ◌++◌, ◌∷◌, [], ℤ, length, map, flat_map, IfOk, IfSome, OnOk, All, codes};
ghost use Rattle.std.specs.Fmt.{decimal, signed_decimal};
ghost use Rattle.optra_network.specs.Net.{IsTrack};
ghost use Rattle.optra_node.specs.Nodes.{IsFormedLeg};
ghost use Rattle.optra_node.specs.Certificates.{IsFormedWalk};
ghost use Rattle.optra_records.specs.Texts.{record_text, records_text};
ghost use Rattle.optra_cert.specs.RowTexts.{AreApart, IsKnownRow, row_fields};
ghost use Rattle.optra_cert.specs.Certs.{IsWritable, IsPrintable};
ghost use Rattle.optra_cert.specs.CertTexts.{cert_text, head_records, leg_records, leg_record, item_records, price_record};

use crate::{Cell, Certificate, RowText};
use optra_network::{Cents, Network, NoMemory};
use optra_node::{Item, Prices};
use optra_records::{Fields, Printer};
use optra_walk::{Instance, Leg, Walk, start_word};
use std::alloc::Global;

/// The text of a certificate, in the version of the family, which must be writable in it.
#[tactic(auto, unfolding(crate::specs::CertTexts::cert_text))]
pub fn write_certificate<F: RowText>(
    alloc: Global,
    inst: Instance<'_>,
    rows: &F,
    cert: &Certificate<F::Row>,
) -> Result<Vec<u8>, NoMemory>
    requires apart { AreApart (F.texts_of rows.now).kinds }
    requires writable { IsWritable F.Row.cmp (F.texts_of rows.now) inst.net.now
        (length inst.bids.now) (F.texts_of rows.now).version cert.now }
    ensures { IfOk result (λ text. text.items ≡ cert_text (F.texts_of rows.now) inst.entry.net.now
        (F.texts_of rows.now).version cert.now) }
{
    let mut printer = Printer::new(alloc);
    let mut fields = Fields::new(alloc);
    let choice = &cert.choice;
    print_head(
        &mut printer,
        &mut fields,
        rows.version(),
        cert.revenue,
        cert.bound,
    )?;
    print_walks(&mut printer, &mut fields, inst.net, &choice.walks)?;
    print_items(alloc, &mut printer, &mut fields, inst.net, rows, &cert.tree)?;
    printer.finish()
}

/// Prints the first three records.
fn print_head(
    printer: &mut Printer,
    fields: &mut Fields,
    version: u8,
    revenue: Cents,
    bound: Cents,
) -> Result<(), NoMemory>
    ensures { OnOk result (printer.new ≡ printer.old ++ records_text (head_records version revenue
        bound)) }
{
    print_count(printer, fields, "optra-certificate", u64::from(version))?;
    print_amount(printer, fields, "revenue", revenue)?;
    print_amount(printer, fields, "bound", bound)
}

/// Prints a word and an amount.
fn print_amount(
    printer: &mut Printer,
    fields: &mut Fields,
    word: &str,
    amount: Cents,
) -> Result<(), NoMemory>
    ensures { OnOk result (printer.new ≡ printer.old
        ++ record_text (word.now ∷ signed_decimal amount ∷ [])) }
{
    fields.clear();
    fields.text(word)?;
    fields.signed(amount)?;
    printer.print(fields)
}

/// Prints a word and a count.
fn print_count(
    printer: &mut Printer,
    fields: &mut Fields,
    word: &str,
    count: u64,
) -> Result<(), NoMemory>
    ensures { OnOk result (printer.new ≡ printer.old ++ record_text (word.now ∷ decimal count
        ∷ [])) }
{
    fields.clear();
    fields.text(word)?;
    fields.number(count)?;
    printer.print(fields)
}

/// Prints the legs of the served bids, by bid.
fn print_walks(
    printer: &mut Printer,
    fields: &mut Fields,
    net: &Network,
    walks: &[Option<Walk>],
) -> Result<(), NoMemory>
    requires { All (λ walk. IfSome walk (IsFormedWalk net.now)) walks.now }
    ensures { OnOk result (printer.new ≡ printer.old
        ++ records_text (leg_records net.now 0 walks.now)) }
{
    'walks: for (i, walk) in walks.iter().enumerate() {
        if let Some(walk) = walk {
            print_legs(printer, fields, net, i as u64, &walk.legs)?;
        }
    }
    Ok(())
}

/// Prints the legs of a bid at a position.
fn print_legs(
    printer: &mut Printer,
    fields: &mut Fields,
    net: &Network,
    bid: u64,
    legs: &[Leg],
) -> Result<(), NoMemory>
    requires few { bid < 2 ^ 63 }
    requires formed { All (IsFormedLeg net.now) legs.now }
    ensures { OnOk result (printer.new ≡ printer.old
        ++ records_text (map (leg_record net.now (codes "leg") bid) legs.now)) }
{
    'legs: for leg in legs {
        print_leg(printer, fields, net, "leg", bid, *leg)?;
    }
    Ok(())
}

/// Prints a word and a leg of a bid at a position.
fn print_leg(
    printer: &mut Printer,
    fields: &mut Fields,
    net: &Network,
    word: &str,
    bid: u64,
    leg: Leg,
) -> Result<(), NoMemory>
    requires few { bid < 2 ^ 63 }
    requires formed { IsFormedLeg net.now leg }
    ensures { OnOk result (printer.new ≡ printer.old ++ record_text (leg_record net.now word.now bid
        leg)) }
{
    fields.clear();
    fields.text(word)?;
    fields.number(bid + 1)?;
    fields.text(net.track_name(leg.track))?;
    fields.number(u64::from(leg.depart))?;
    fields.text(start_word(leg.from_halt))?;
    fields.text(leg.action.word())?;
    fields.number(u64::from(leg.action.dwell()))?;
    printer.print(fields)
}

/// Prints the items of a tree.
fn print_items<F: RowText>(
    alloc: Global,
    printer: &mut Printer,
    fields: &mut Fields,
    net: &Network,
    rows: &F,
    tree: &[Item<F::Row>],
) -> Result<(), NoMemory>
    requires { All (IsPrintable (F.texts_of rows.now) net.now) tree.now }
    ensures { OnOk result (printer.new ≡ printer.old
        ++ records_text (flat_map (item_records (F.texts_of rows.now) net.now) tree.now)) }
{
    'items: for item in tree {
        print_item(alloc, printer, fields, net, rows, item)?;
    }
    Ok(())
}

/// Prints an item.
fn print_item<F: RowText>(
    alloc: Global,
    printer: &mut Printer,
    fields: &mut Fields,
    net: &Network,
    rows: &F,
    item: &Item<F::Row>,
) -> Result<(), NoMemory>
    requires { IsPrintable (F.texts_of rows.now) net.now item.now }
    ensures { OnOk result (printer.new ≡ printer.old
        ++ records_text (item_records (F.texts_of rows.now) net.now item.now)) }
{
    match item {
        Item::Split { bid, leg } => {
            print_leg(printer, fields, net, "split", u64::from(*bid), *leg)
        }
        Item::NoWalk { bid } => print_count(printer, fields, "nowalk", u64::from(*bid) + 1),
        Item::Forced { row } => {
            fields.clear();
            fields.text("forced")?;
            add_row(alloc, fields, net, rows, *row)?;
            printer.print(fields)
        }
        Item::Priced { prices } => print_prices(alloc, printer, fields, net, rows, prices),
    }
}

/// Prints a priced leaf.
fn print_prices<F: RowText>(
    alloc: Global,
    printer: &mut Printer,
    fields: &mut Fields,
    net: &Network,
    rows: &F,
    prices: &Prices<F::Row>,
) -> Result<(), NoMemory>
    requires { All (λ e. IsKnownRow (F.texts_of rows.now) net.now e.0) prices.now }
    ensures { OnOk result (printer.new ≡ printer.old
        ++ records_text ((codes "priced" ∷ decimal (length prices.now) ∷ [])
        ∷ map (price_record (F.texts_of rows.now) net.now) prices.now)) }
{
    let entries = prices.entries.as_slice();
    print_count(printer, fields, "priced", entries.len() as u64)?;
    print_entries(alloc, printer, fields, net, rows, entries)
}

/// Prints prices.
fn print_entries<F: RowText>(
    alloc: Global,
    printer: &mut Printer,
    fields: &mut Fields,
    net: &Network,
    rows: &F,
    entries: &[(F::Row, i64)],
) -> Result<(), NoMemory>
    requires { All (λ e. IsKnownRow (F.texts_of rows.now) net.now e.0) entries.now }
    ensures { OnOk result (printer.new ≡ printer.old
        ++ records_text (map (price_record (F.texts_of rows.now) net.now) entries.now)) }
{
    'entries: for entry in entries {
        let (row, price) = *entry;
        fields.clear();
        fields.text("price")?;
        add_row(alloc, fields, net, rows, row)?;
        fields.signed(price)?;
        printer.print(fields)?;
    }
    Ok(())
}

/// Adds the fields of a row.
fn add_row<F: RowText>(
    alloc: Global,
    fields: &mut Fields,
    net: &Network,
    rows: &F,
    row: F::Row,
) -> Result<(), NoMemory>
    requires { IsKnownRow (F.texts_of rows.now) net.now row }
    ensures { OnOk result (fields.new ≡ fields.old ++ row_fields (F.texts_of rows.now) net.now
        row) }
{
    let cells = rows.fields(alloc, net, row)?;
    add_cells(fields, &cells)
}

/// Adds fields.
fn add_cells(fields: &mut Fields, cells: &[Cell]) -> Result<(), NoMemory>
    ensures { OnOk result (fields.new ≡ fields.old ++ cells.now) }
{
    'cells: for cell in cells {
        fields.bytes(cell.bytes())?;
    }
    Ok(())
}
