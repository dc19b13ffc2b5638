//! The tree of a certificate, as it is read.
ghost use Rattle.std.specs.Prelude.{◌≡◌, ◌<◌, ◌-◌, ◌==◌, ◌++◌, ◌∷◌, [], OnOk};
ghost use Rattle.optra_cert.specs.Outcomes.{Gives};
ghost use Rattle.optra_cert.specs.Steps.{count_added, filled, is_above, is_whole, leaf_added, no_tree, price_added, split_added};

use crate::CertCode;
use crate::refusals::Refusal;
use optra_network::NoMemory;
use optra_node::{Item, Prices};
use optra_walk::Leg;
use std::alloc::Global;
use std::marker::Model;
use std::mem;

/// The items of a tree as far as they were read, how many subtrees are to come, how many prices of a leaf are to come,
/// and those that came.
#[derive(Drop)]
pub struct ReadTree<R> {
    items: Vec<Item<R>>,
    ways: u64,
    due: u64,
    prices: Vec<(R, i64)>,
}

impl<R> Model for ReadTree<R> {
    ghost use Rattle.std.specs.Prelude.{◌≤◌, ◌+◌, length};
    ghost use Rattle.optra_cert.specs.Steps.{TreeSoFar};

    ghost Value = { TreeSoFar R };

    ghost view = { λ a. record { items = a.items.items; ways = a.ways; due = a.due; prices = a.prices.items } };

    ghost invariant = { λ a. a.ways ≤ length a.items.items + 1 };
}

impl<R: Copy + Ord> ReadTree<R> {
    /// No item.
    pub fn new(alloc: Global) -> ReadTree<R>
        ensures { result ≡ no_tree }
    {
        ReadTree {
            items: Vec::new(alloc),
            ways: 1,
            due: 0,
            prices: Vec::new(alloc),
        }
    }

    /// Whether no subtree and no price is to come.
    pub fn is_whole(&self) -> bool
        ensures { result ≡ is_whole self.now }
    {
        self.ways == 0 && self.due == 0
    }

    /// Whether no price is to come.
    pub fn is_filled(&self) -> bool
        ensures { result ≡ (self.now.due == 0) }
    {
        self.due == 0
    }

    /// Adds a split of a leg of the bid at a position.
    pub fn add_split(&mut self, bid: u32, leg: Leg) -> Result<(), NoMemory>
        ensures { OnOk result (self.new ≡ split_added self.old bid leg) }
    {
        self.items.push(Item::Split { bid, leg })?;
        self.ways += 1;
        Ok(())
    }

    /// Adds a leaf without prices.
    pub fn add_leaf(&mut self, item: Item<R>) -> Result<(), NoMemory>
        requires { 0 < self.old.ways }
        ensures { OnOk result (self.new ≡ leaf_added self.old item) }
    {
        self.items.push(item)?;
        self.ways -= 1;
        Ok(())
    }

    /// Begins a leaf of so many prices.
    pub fn add_count(&mut self, alloc: Global, count: u64) -> Result<(), NoMemory>
        requires { 0 < self.old.ways }
        ensures { OnOk result (self.new ≡ count_added self.old count) }
    {
        self.ways -= 1;
        self.due = count;
        self.fill(alloc)
    }

    /// Adds a price of the leaf, whose row is above that of the price before.
    #[tactic(auto, unfolding(crate::specs::Steps::price_added))]
    pub fn add_price(&mut self, alloc: Global, row: R, price: i64) -> Result<(), Refusal>
        requires { 0 < self.old.due }
        ensures { Gives (λ _. self.new) result (price_added R.cmp self.old (row, price)) }
    {
        if !self.is_above(row) {
            return Err(Refusal::Fault(CertCode::Order));
        }
        self.push_price(row, price)?;
        self.fill(alloc)?;
        Ok(())
    }

    /// Adds a price, of which one less is to come.
    fn push_price(&mut self, row: R, price: i64) -> Result<(), NoMemory>
        requires { 0 < self.old.due }
        ensures { OnOk result (self.new
            ≡ record self.old
            { due = self.old.due - 1; prices = self.old.prices ++ (row, price) ∷ [] }) }
    {
        self.prices.push((row, price))?;
        self.due -= 1;
        Ok(())
    }

    /// Whether a row is above that of the last price.
    fn is_above(&self, row: R) -> bool
        ensures { result ≡ is_above R.cmp self.now.prices row }
    {
        match self.prices.last() {
            Some(last) => last.0.cmp(&row).is_lt(),
            None => true,
        }
    }

    /// Makes an item of the leaf where no price is to come.
    fn fill(&mut self, alloc: Global) -> Result<(), NoMemory>
        ensures { OnOk result (self.new ≡ filled self.old) }
    {
        if self.due == 0 {
            let entries = mem::replace(&mut self.prices, Vec::new(alloc));
            let prices = Prices { entries };
            self.items.push(Item::Priced { prices })?;
        }
        Ok(())
    }

    /// The items.
    pub fn into_items(self) -> Vec<Item<R>>
        ensures { result.items ≡ self.items }
    {
        self.items
    }
}
