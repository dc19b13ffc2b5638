//! The bids that stand, found by name.
ghost use Rattle.std.specs.Prelude.{◌≡◌, ◌<◌, ◌≤◌, ◌++◌, ◌∷◌, [], length, map, option_map, remove, slice_get, IfOk, IfSome, None, Some};
ghost use Rattle.indexmap.specs.IndexMap.{index_map_len, spare, with_value_at};
ghost use Rattle.optra_network.specs.Names.{place_of};
ghost use Rattle.optra_auction.specs.Machine.{amended_bid, raised_bid, rested, standing_names, valued, with_change, with_values};
ghost use Rattle.optra_auction.specs.Kept.{HaveRoom, named, standing_in, standing_of};

use crate::terms::Terms;
use indexmap::IndexMap;
use optra_bid::Name;
use optra_network::{Cents, NoMemory};
use std::alloc::Global;
use std::marker::Model;

/// The most bids that stand.
pub(crate) const MOST_STANDING: usize = 500;

/// The most names that are kept: those of the bids that stand, and as many of withdrawn ones.
const MOST_NAMES: usize = 1_000;

/// The standing bids in order, each found by its name, by hash.
///
/// No call but `new` takes memory. A map promises to have the room of an entry again only where half of its entries go at
/// once. So a withdrawn bid stays behind those that stand, and the withdrawn ones go together when there is no room left.
#[derive(Drop)]
pub(crate) struct StandingBids {
    /// The standing bids, and then the withdrawn ones that still have their place.
    terms: IndexMap<String, Terms>,
    /// How many bids stand.
    count: usize,
}

impl Model for StandingBids {
    ghost use Rattle.std.specs.Prelude.{List};
    ghost use Rattle.optra_auction.specs.Machine.{Standing};
    ghost use Rattle.optra_auction.specs.Kept.{HaveRoom, standing_in};

    ghost Value = { List Standing };

    ghost view = { λ a. standing_in a.terms.entries a.count };

    ghost invariant = { λ a. HaveRoom a.terms a.count };
}

impl StandingBids {
    /// No bid, and room for all that may stand.
    pub(crate) fn new(alloc: Global) -> Result<StandingBids, NoMemory>
        ensures { IfOk result (λ bids. bids ≡ []) }
    {
        Ok(StandingBids {
            terms: IndexMap::with_capacity(alloc, MOST_NAMES)?,
            count: 0,
        })
    }

    /// How many bids stand.
    pub(crate) fn len(&self) -> usize
        ensures len { result ≡ length self.now }
        ensures few { result ≤ MOST_STANDING }
    {
        self.count
    }

    /// The place of the bid of a name, from 0.
    pub(crate) fn place(&self, name: &str) -> Option<usize>
        ensures place { result ≡ place_of name.now (standing_names self.now) }
        ensures within { IfSome result (λ i. i < length self.now) }
    {
        let place = self.terms.get_index_of(name)?;
        if place < self.count {
            Some(place)
        } else {
            None
        }
    }

    /// The name and the terms of the bid at a place.
    pub(crate) fn at(&self, place: usize) -> (&str, &Terms)
        requires { place < length self.now }
        ensures { slice_get self.now place ≡ Some (named result.0.now result.1.now) }
    {
        let (name, terms) = self.terms.get_index(place).unwrap();
        (name.as_str(), terms)
    }

    /// Gives the bid at a place another amount.
    pub(crate) fn raise(&mut self, place: usize, amount: Cents)
        requires { place < length self.old }
        ensures { self.new ≡ with_change self.old place (raised_bid amount) }
    {
        let terms = self.terms.get_index_mut(place).unwrap();
        terms.amount = amount;
        terms.acted = true;
    }

    /// Gives the bid at a place another specification.
    pub(crate) fn amend(&mut self, place: usize, spec: u32)
        requires { place < length self.old }
        ensures { self.new ≡ with_change self.old place (amended_bid spec) }
    {
        let terms = self.terms.get_index_mut(place).unwrap();
        terms.spec = spec;
        terms.acted = true;
    }

    /// Says of each bid at which value it won, if it did.
    pub(crate) fn set_values(&mut self, values: &[Option<Cents>])
        requires { length values.now ≡ length self.old }
        ensures { self.new ≡ with_values self.old values.now }
    {
        for (place, value) in values.iter().enumerate() {
            self.set_value(place, *value);
        }
    }

    fn set_value(&mut self, place: usize, value: Option<Cents>)
        requires { place < length self.old }
        ensures { self.new ≡ with_change self.old place (valued value) }
    {
        let terms = self.terms.get_index_mut(place).unwrap();
        terms.won = value;
    }

    /// Forgets of each bid that it was opened, raised or amended.
    pub(crate) fn rest(&mut self)
        ensures { self.new ≡ map rested self.old }
    {
        for place in 0..self.len() {
            self.rest_at(place);
        }
    }

    fn rest_at(&mut self, place: usize)
        requires { place < length self.old }
        ensures { self.new ≡ with_change self.old place rested }
    {
        let terms = self.terms.get_index_mut(place).unwrap();
        terms.acted = false;
    }

    /// Adds a bid behind the others. Its name is a new one.
    pub(crate) fn push(&mut self, name: Name, terms: Terms)
        requires room { length self.old < MOST_STANDING }
        requires new { place_of name (standing_names self.old) ≡ None }
        ensures { self.new ≡ self.old ++ named name terms ∷ [] }
    {
        make_room(&mut self.terms, self.count);
        let place = put_behind(&mut self.terms, self.count, name, terms);
        self.terms.swap_indices(place, self.count);
        self.count += 1;
    }

    /// Takes the bid at a place away. The others keep their order.
    pub(crate) fn remove(&mut self, place: usize)
        requires { place < length self.old }
        ensures { self.new ≡ remove self.old place }
    {
        self.count -= 1;
        self.terms.move_index(place, self.count);
    }
}

/// Makes room for one more name: where there is none, the withdrawn bids go, at least half of all.
fn make_room(terms: &mut IndexMap<String, Terms>, count: usize)
    requires room { HaveRoom terms.old count }
    requires few { count < MOST_STANDING }
    ensures room { HaveRoom terms.new count }
    ensures spare { 0 < spare terms.new }
    ensures same { standing_in terms.new.entries count ≡ standing_in terms.old.entries count }
{
    if terms.len() == terms.capacity() {
        terms.truncate(count);
    }
}

/// Puts terms under a name that no standing bid has, and gives their place: that of the withdrawn bid of the name, or a new
/// one.
fn put_behind(map: &mut IndexMap<String, Terms>, count: usize, name: Name, terms: Terms) -> usize
    requires room { HaveRoom map.old count }
    requires spare { 0 < spare map.old }
    requires new { place_of name (standing_names (standing_in map.old.entries count)) ≡ None }
    ensures room { HaveRoom map.new count }
    ensures same { standing_in map.new.entries count ≡ standing_in map.old.entries count }
    ensures behind { count ≤ result }
    ensures terms { option_map standing_of (slice_get map.new.entries result)
        ≡ Some (named name terms) }
{
    match map.get_index_of(name.text()) {
        Some(place) => {
            replace(map, place, terms);
            place
        }
        None => {
            let place = map.len();
            let _ = map.insert(name.into_text(), terms).unwrap();
            place
        }
    }
}

/// Puts other terms at a place.
fn replace(map: &mut IndexMap<String, Terms>, place: usize, terms: Terms)
    requires { place < index_map_len map.old }
    ensures { map.new ≡ with_value_at map.old place terms }
{
    let kept = map.get_index_mut(place).unwrap();
    *kept = terms;
}
