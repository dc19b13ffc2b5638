//! The parts of a certificate as they are read, and what each record behind the first makes of them.
ghost use Rattle.std.specs.Prelude.{◌≡◌, ◌≤◌, drop, false, length, true, IfOk, OnOk};
ghost use Rattle.csv.specs.Records.{fields_of};
ghost use Rattle.optra_cert.specs.Forms.{field_at};
ghost use Rattle.optra_cert.specs.Frames.{CanRead};
ghost use Rattle.optra_cert.specs.Outcomes.{Gives};
ghost use Rattle.optra_cert.specs.Steps.{body_step, bound_step, cert_of, is_whole, item_step, revenue_step, started, step, tree_step};

use crate::frame::Frame;
use crate::leg_fields::leg_told;
use crate::read_tree::ReadTree;
use crate::read_walks::ReadWalks;
use crate::record_fields::{amount_told, bid_told, count_told, field, is_word};
use crate::refusals::Refusal;
use crate::row_records::{price_told, row_told};
use crate::{Cell, CertCode, Certificate, RowText};
use csv::ByteRecord;
use optra_network::{Cents, NoMemory};
use optra_node::Item;
use std::alloc::Global;
use std::marker::Model;

/// Which records may come next.
#[derive(Clone, Copy, Debug, PartialEq, Eq)]
pub enum Place {
    /// The revenue.
    Revenue,
    /// The bound.
    Bound,
    /// A leg, or the first record of the tree.
    Legs,
    /// The tree, or its end.
    Tree,
}

/// What was read of a certificate so far.
#[derive(Drop)]
pub struct ReadParts<R> {
    place: Place,
    revenue: Cents,
    bound: Cents,
    walks: ReadWalks,
    tree: ReadTree<R>,
}

impl<R> Model for ReadParts<R> {
    ghost use Rattle.optra_cert.specs.Steps.{State};

    ghost Value = { State R };

    ghost view = { λ a. record { place = a.place; revenue = a.revenue; bound = a.bound; walks = a.walks; tree = a.tree } };
}

impl<R: Copy + Ord> ReadParts<R> {
    /// Nothing behind the first record, for so many bids.
    pub fn new(alloc: Global, bids: usize) -> Result<ReadParts<R>, NoMemory>
        ensures { IfOk result (λ parts. parts ≡ started bids) }
    {
        let walks = ReadWalks::new(alloc, bids)?;
        Ok(ReadParts {
            place: Place::Revenue,
            revenue: 0,
            bound: 0,
            walks,
            tree: ReadTree::new(alloc),
        })
    }

    /// Whether the tree is whole.
    pub fn is_whole(&self) -> bool
        ensures { result ≡ is_whole self.now.tree }
    {
        self.tree.is_whole()
    }

    /// The certificate.
    pub fn into_certificate(self) -> Certificate<R>
        ensures { result ≡ cert_of self }
    {
        Certificate {
            revenue: self.revenue,
            bound: self.bound,
            choice: self.walks.into_choice(),
            tree: self.tree.into_items(),
        }
    }
}

/// Takes a record where an item begins.
#[tactic(auto, unfolding(crate::specs::Steps::item_step))]
fn item_step<F: RowText>(
    alloc: Global,
    frame: &Frame<'_, F>,
    tree: &mut ReadTree<F::Row>,
    cells: &mut Vec<Cell>,
    row: &ByteRecord,
) -> Result<(), Refusal>
    requires few { length frame.now.inst.bids.now ≤ 1000 }
    requires can { CanRead (F.texts_of frame.now.rows.now) frame.now.version }
    requires open_ { is_whole tree.old ≡ false }
    requires filled { tree.old.due ≡ 0 }
    ensures { Gives (λ _. tree.new) result (item_step F.Row.cmp (F.texts_of frame.now.rows.now)
        frame.now.inst.net.now (length frame.now.inst.bids.now) frame.now.version tree.old
        (field_at (fields_of row.now) 0) (drop 1 (fields_of row.now))) }
{
    let word = field(row, 0);
    if is_word(word, "split") {
        let (bid, leg) = leg_told(frame.inst.net, frame.inst.bids.len(), row)?;
        tree.add_split(bid, leg)?;
        return Ok(());
    }
    if is_word(word, "nowalk") {
        let bid = bid_told(frame.inst.bids.len(), row)?;
        tree.add_leaf(Item::NoWalk { bid })?;
        return Ok(());
    }
    if is_word(word, "forced") {
        let n = row.len().saturating_sub(1);
        let told = row_told(alloc, frame, cells, row, n)?;
        tree.add_leaf(Item::Forced { row: told })?;
        return Ok(());
    }
    if is_word(word, "priced") {
        let count = count_told(row)?;
        tree.add_count(alloc, count)?;
        return Ok(());
    }
    Err(Refusal::Fault(CertCode::Record))
}

/// Takes a record of the tree.
#[tactic(auto, unfolding(crate::specs::Steps::tree_step))]
fn tree_step<F: RowText>(
    alloc: Global,
    frame: &Frame<'_, F>,
    tree: &mut ReadTree<F::Row>,
    cells: &mut Vec<Cell>,
    row: &ByteRecord,
) -> Result<(), Refusal>
    requires few { length frame.now.inst.bids.now ≤ 1000 }
    requires can { CanRead (F.texts_of frame.now.rows.now) frame.now.version }
    ensures { Gives (λ _. tree.new) result (tree_step F.Row.cmp (F.texts_of frame.now.rows.now)
        frame.now.inst.net.now (length frame.now.inst.bids.now) frame.now.version tree.old
        (field_at (fields_of row.now) 0) (drop 1 (fields_of row.now))) }
{
    if tree.is_whole() {
        return Err(Refusal::Fault(CertCode::Order));
    }
    if tree.is_filled() {
        return item_step(alloc, frame, tree, cells, row);
    }
    if !is_word(field(row, 0), "price") {
        return Err(Refusal::Fault(CertCode::Record));
    }
    let (told, price) = price_told(alloc, frame, cells, row)?;
    tree.add_price(alloc, told, price)
}

/// Takes a record behind the bound: a leg where legs may come, else one of the tree, behind which none may.
#[tactic(auto, unfolding(crate::specs::Steps::body_step))]
fn body_step<F: RowText>(
    alloc: Global,
    frame: &Frame<'_, F>,
    legs: bool,
    parts: &mut ReadParts<F::Row>,
    cells: &mut Vec<Cell>,
    row: &ByteRecord,
) -> Result<(), Refusal>
    requires few { length frame.now.inst.bids.now ≤ 1000 }
    requires can { CanRead (F.texts_of frame.now.rows.now) frame.now.version }
    requires each { length parts.old.walks.choice ≡ length frame.now.inst.bids.now }
    ensures { Gives (λ _. parts.new) result (body_step F.Row.cmp (F.texts_of frame.now.rows.now)
        frame.now.inst.net.now (length frame.now.inst.bids.now) frame.now.version legs parts.old
        (field_at (fields_of row.now) 0) (drop 1 (fields_of row.now))) }
{
    if legs && is_word(field(row, 0), "leg") {
        let (bid, leg) = leg_told(frame.inst.net, frame.inst.bids.len(), row)?;
        parts.walks.add(alloc, bid, leg)?;
        return Ok(());
    }
    tree_step(alloc, frame, &mut parts.tree, cells, row)?;
    parts.place = Place::Tree;
    Ok(())
}

/// Takes the record of the revenue.
#[tactic(auto, unfolding(crate::specs::Steps::revenue_step))]
fn revenue_step<R: Copy + Ord>(parts: &mut ReadParts<R>, row: &ByteRecord) -> Result<(), Refusal>
    ensures { Gives (λ _. parts.new) result (revenue_step parts.old
        (field_at (fields_of row.now) 0) (drop 1 (fields_of row.now))) }
{
    if !is_word(field(row, 0), "revenue") {
        return Err(Refusal::Fault(CertCode::Record));
    }
    parts.revenue = amount_told(row)?;
    parts.place = Place::Bound;
    Ok(())
}

/// Takes the record of the bound.
#[tactic(auto, unfolding(crate::specs::Steps::bound_step))]
fn bound_step<R: Copy + Ord>(parts: &mut ReadParts<R>, row: &ByteRecord) -> Result<(), Refusal>
    ensures { Gives (λ _. parts.new) result (bound_step parts.old (field_at (fields_of row.now)
        0) (drop 1 (fields_of row.now))) }
{
    if !is_word(field(row, 0), "bound") {
        return Err(Refusal::Fault(CertCode::Record));
    }
    parts.bound = amount_told(row)?;
    parts.place = Place::Legs;
    Ok(())
}

/// Takes a record, or tells its fault.
#[tactic(auto, unfolding(crate::specs::Steps::step))]
pub fn step<F: RowText>(
    alloc: Global,
    frame: &Frame<'_, F>,
    parts: &mut ReadParts<F::Row>,
    cells: &mut Vec<Cell>,
    row: &ByteRecord,
) -> Result<(), Refusal>
    requires few { length frame.now.inst.bids.now ≤ 1000 }
    requires can { CanRead (F.texts_of frame.now.rows.now) frame.now.version }
    requires each { length parts.old.walks.choice ≡ length frame.now.inst.bids.now }
    ensures { Gives (λ _. parts.new) result (step F.Row.cmp (F.texts_of frame.now.rows.now)
        frame.now.inst.net.now (length frame.now.inst.bids.now) frame.now.version parts.old
        (fields_of row.now)) }
{
    match parts.place {
        Place::Revenue => revenue_step(parts, row),
        Place::Bound => bound_step(parts, row),
        Place::Legs => body_step(alloc, frame, true, parts, cells, row),
        Place::Tree => body_step(alloc, frame, false, parts, cells, row),
    }
}
