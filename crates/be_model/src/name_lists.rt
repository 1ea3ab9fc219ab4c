//! Lists of names.

ghost use Rattle.std.specs.Prelude.{◌≡◌, ◌↔◌, ◌<◌, [], ◌∷◌, ◌++◌, length, IsTrue, IfSome, OnOk, OnErr};
ghost use Rattle.be_base.specs.TextLists.{place_of, all_differ};

use be_base::{Name, NoMemory};
use std::alloc::Global;
use std::collections::HashMap;
use std::marker::Model;

/// A list of names. A name is found by its text without a scan.
#[derive(Drop)]
pub struct Names {
    names: Vec<Name>,
    // The first place of each name.
    places: HashMap<Name, usize>,
    // Whether no two names are the same.
    differ: bool,
}

impl Model for Names {
    ghost use Rattle.std.specs.Prelude.{ℕ, List};
    ghost use Rattle.be_model.specs.Places.{FindsPlaces};

    ghost Value = { List (List ℕ) };

    ghost view = { λ n. n.names.items };

    ghost invariant = { λ n. FindsPlaces n.places n.differ n.names.items };
}

impl Names {
    /// No names. It takes no memory.
    pub fn make(alloc: Global) -> Names
        ensures { result ≡ [] }
    {
        Names {
            names: Vec::new(alloc),
            places: HashMap::new(alloc),
            differ: true,
        }
    }

    /// Puts a name last.
    pub fn push(&mut self, name: Name) -> Result<(), NoMemory>
        ensures put { OnOk result (self.new ≡ self.old ++ name ∷ []) }
        ensures refused { OnErr result (self.new ≡ self.old) }
    {
        // Its bytes show that it has the form of a name.
        let _ = name.bytes();
        let place = self.names.len();
        let known = self.find(&name).is_some();
        self.names.push(name)?;
        if known {
            self.differ = false;
            return Ok(());
        }
        match self.places.insert(name, place) {
            Ok(_) => Ok(()),
            Err(_) => {
                self.names.truncate(place);
                Err(NoMemory)
            }
        }
    }

    pub fn len(&self) -> usize
        ensures { result ≡ length self.now }
    {
        self.names.len()
    }

    pub fn is_empty(&self) -> bool
        ensures { IsTrue result ↔ (self.now ≡ []) }
    {
        self.names.is_empty()
    }

    pub fn as_slice(&self) -> &[Name]
        ensures { result.now ≡ self.now }
    {
        self.names.as_slice()
    }

    /// The place of the name that the text is.
    pub fn place(&self, text: &[u8]) -> Option<usize>
        ensures exact { result ≡ place_of text.now self.now }
        ensures below { IfSome result (λ place. place < length self.now) }
    {
        // The list shows that it has names alone.
        let _ = &self.names;
        match Name::read(text) {
            Ok(name) => self.find(&name),
            Err(_) => None,
        }
    }

    /// The place of a name.
    pub fn find(&self, name: &Name) -> Option<usize>
        ensures exact { result ≡ place_of name.now self.now }
        ensures below { IfSome result (λ place. place < length self.now) }
    {
        self.places.get(name).copied()
    }

    /// Whether no two names are the same.
    pub fn are_different(&self) -> bool
        ensures { result ≡ all_differ self.now }
    {
        self.differ
    }
}
