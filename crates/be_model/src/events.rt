//! Events: sets of values of attributes.

ghost use Rattle.std.specs.Prelude.{◌≡◌, ◌↔◌, ◌<◌, ◌≤◌, [], ◌∷◌, ◌++◌, true, length, option_copied, IsTrue, OnOk, OnErr, IfOk};
ghost use Rattle.be_model.specs.Events.{noted};
ghost use Rattle.be_model.specs.Forms.{attrs_rise, IsEvent};
ghost use Rattle.be_model.specs.Matching.{attrs_of, values_of};
ghost use Rattle.be_model.specs.Lies.{item_lies, event_lies};

use crate::schemas::Schema;
use crate::values::Values;
use be_base::{AttrNo, NoMemory};
use std::alloc::Global;
use std::marker::Model;

/// Of an attribute below this number the event notes where its item stands.
const NOTED: usize = 64;

/// Sets of values of attributes, rising by attribute, each once.
#[derive(Drop)]
pub struct Event {
    items: Vec<(AttrNo, Values)>,
    /// By attribute, the place of its item where it has one, so that it is found by one look.
    places: [u8; NOTED],
}

impl Model for Event {
    ghost use Rattle.std.specs.Prelude.{ℤ, List};
    ghost use Rattle.be_base.specs.declared.names.AttrNo.{AttrNo};

    ghost Value = { List (AttrNo × List ℤ) };

    ghost use Rattle.be_model.specs.Events.{IsNoted};

    ghost view = { λ e. e.items.items };

    ghost invariant = { λ e. IsNoted e.items.items e.places };
}

impl Event {
    /// No values. It takes no memory.
    pub fn make(alloc: Global) -> Event
        ensures { result ≡ [] }
    {
        Event {
            items: Vec::new(alloc),
            places: [u8::MAX; NOTED],
        }
    }

    /// Puts an attribute with its values last.
    pub fn push(&mut self, item: (AttrNo, Values)) -> Result<(), NoMemory>
        requires { attrs_rise (attrs_of self.old ++ item.0 ∷ []) ≡ true }
        ensures put { OnOk result (self.new ≡ self.old ++ item ∷ []) }
        ensures refused { OnErr result (self.new ≡ self.old) }
    {
        // A slice shows the form of the values.
        let _ = item.1.as_slice();
        let attr = item.0;
        let place = self.items.len();
        self.items.push(item)?;
        note(&mut self.places, attr, place);
        Ok(())
    }

    /// Whether the attribute may be put last.
    pub fn accepts(&self, a: AttrNo) -> bool
        ensures { result ≡ attrs_rise (attrs_of self.now ++ a ∷ []) }
    {
        match self.items.as_slice() {
            [] => true,
            [.., last] => last.0.0 < a.0,
        }
    }

    pub fn len(&self) -> usize
        ensures { result ≡ length self.now }
    {
        self.items.len()
    }

    pub fn is_empty(&self) -> bool
        ensures { IsTrue result ↔ (self.now ≡ []) }
    {
        self.items.is_empty()
    }

    pub fn items(&self) -> &[(AttrNo, Values)]
        ensures items { result.now ≡ self.now }
        ensures form { IsEvent self.now }
    {
        self.items.as_slice()
    }

    /// The values of an attribute, found without a scan.
    pub fn values(&self, a: AttrNo) -> Option<&Values>
        ensures { option_copied result ≡ values_of self.now a }
    {
        if usize::from(a.0) < NOTED {
            self.values_noted(a)
        } else {
            self.values_searched(a)
        }
    }

    // The values of an attribute, by its noted place.
    fn values_noted(&self, a: AttrNo) -> Option<&Values>
        requires { a.0 < NOTED }
        ensures { option_copied result ≡ values_of self.now a }
    {
        let items = self.items.as_slice();
        let place = usize::from(self.places[usize::from(a.0)]);
        if place < items.len() && items[place].0.0 == a.0 {
            Some(&items[place].1)
        } else {
            None
        }
    }

    // The values of an attribute, by a search.
    fn values_searched(&self, a: AttrNo) -> Option<&Values>
        ensures { option_copied result ≡ values_of self.now a }
    {
        let items = self.items.as_slice();
        match items.binary_search_by_key(&a.0, |item| item.0.0) {
            Ok(place) => Some(&items[place].1),
            Err(_) => None,
        }
    }

    /// Whether the schema has each attribute, and its values are in the domain.
    pub fn lies(&self, s: &Schema) -> bool
        ensures lies { result ≡ event_lies s.now self.now }
        ensures form { IsEvent self.now }
    {
        self.items.iter().all(|item| item_lies(item, s))
    }

    /// A copy.
    pub fn copy(&self) -> Result<Event, NoMemory>
        ensures { IfOk result (λ e. e ≡ self.now) }
    {
        let items = self.items.as_slice();
        let mut copies = Vec::with_capacity(*self.items.allocator(), items.len())?;
        for item in items {
            copies.push((item.0, item.1.copy()?))?;
        }
        Ok(Event {
            items: copies,
            places: self.places,
        })
    }
}

// Notes where the item of an attribute stands.
fn note(places: &mut [u8; NOTED], a: AttrNo, place: usize)
    requires { place ≤ a.0 }
    ensures { places.new ≡ noted places.old a place }
{
    if usize::from(a.0) < NOTED {
        places[usize::from(a.0)] = place as u8;
    }
}

fn item_lies(item: &(AttrNo, Values), s: &Schema) -> bool
    ensures { result ≡ item_lies s.now item.now }
{
    match s.range(item.0) {
        Some(range) => item.1.are_within(range),
        None => false,
    }
}
