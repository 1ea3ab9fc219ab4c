//! Which attributes there are, and their domains.

ghost use Rattle.std.specs.Prelude.{◌≡◌, ◌↔◌, pos, negsuc, ◌≤ℤ◌, ◌<◌, ◌≤◌, [], ◌∷◌, ◌++◌, true, nat_le, length, position, Some, IfSome, option_map, OnOk, OnErr};
ghost use Rattle.std.specs.List.{list_any};
ghost use Rattle.be_base.specs.Text.{same_text};
ghost use Rattle.be_model.specs.Domains.{bounds_of, width, bits, value_of_word, place_of};
ghost use Rattle.be_model.specs.Schemas.{IsSchema, attribute_of, attribute_named, attribute_at, names_of_attributes, is_among_texts, all_differ, is_domain, takes, reserved_words, range_of};

use crate::name_lists::Names;
use be_base::{ATTRIBUTES, AttrNo, FIRST_INT, LAST_INT, Name, NoMemory, SYMBOLS, read_int};
use std::alloc::Global;
use std::marker::Model;

/// The values of an attribute.
#[derive(Drop)]
pub enum Domain {
    /// The whole numbers from `lo` to `hi`.
    Int { lo: i64, hi: i64 },
    /// Symbols. The value of a symbol is its place, from 0.
    Sym { words: Names },
}

impl Domain {
    /// Whether a schema may have the domain.
    pub fn is_valid(&self) -> bool
        ensures { result ≡ is_domain self.now }
    {
        match self {
            Domain::Int { lo, hi } => FIRST_INT <= *lo && *lo <= *hi && *hi <= LAST_INT,
            Domain::Sym { words } => {
                1 <= words.len() && words.len() <= SYMBOLS && words.are_different()
            }
        }
    }

    /// The least and the greatest value.
    pub fn bounds(&self) -> (i64, i64)
        ensures { result ≡ bounds_of self.now }
    {
        match self {
            Domain::Int { lo, hi } => (*lo, *hi),
            Domain::Sym { words } => (0, words.as_slice().len().saturating_sub(1) as i64),
        }
    }

    // The bounds of a domain that a schema may have.
    fn limits(&self) -> (i64, i64)
        requires { is_domain self.now ≡ true }
        ensures bounds { result ≡ bounds_of self.now }
        ensures rising { result.0 ≤ℤ result.1 }
        ensures low { FIRST_INT ≤ℤ result.0 }
        ensures high { result.1 ≤ℤ LAST_INT }
    {
        self.bounds()
    }

    // How often its range is halved until one value is left.
    fn bits(&self) -> u32
        requires { is_domain self.now ≡ true }
        ensures { result ≡ bits (width (bounds_of self.now)) }
    {
        let (lo, hi) = self.limits();
        halvings((hi - lo + 1) as u64)
    }

    /// The value of a word.
    pub fn value(&self, word: &[u8]) -> Option<i64>
        ensures { result ≡ value_of_word self.now word.now }
    {
        match self {
            Domain::Int { lo, hi } => {
                let number = read_int(word)?;
                if *lo <= number && number <= *hi {
                    Some(number)
                } else {
                    None
                }
            }
            Domain::Sym { words } => {
                let place = words.place(word)?;
                // A slice shows that each place is a value.
                let _ = words.as_slice().len();
                Some(place as i64)
            }
        }
    }
}

/// Whether the name is a word that no attribute may have as its name.
pub fn is_reserved(name: &Name) -> bool
    ensures { result ≡ is_among_texts name.now reserved_words }
{
    let bytes = name.bytes();
    b"all".as_slice() == bytes
        || b"and".as_slice() == bytes
        || b"between".as_slice() == bytes
        || b"in".as_slice() == bytes
        || b"not".as_slice() == bytes
}

#[derive(Drop)]
pub struct Attribute {
    pub name: Name,
    pub domain: Domain,
}

/// The attributes of all conditions and events, in order. Their names differ, none is a reserved word,
/// and the words of a domain differ.
#[derive(Drop)]
pub struct Schema {
    attributes: Vec<Attribute>,
    // The names of the attributes.
    names: Names,
}

impl Model for Schema {
    ghost use Rattle.std.specs.Prelude.{◌≡◌, List};
    ghost use Rattle.be_model.specs.declared.schemas.Attribute.{Attribute};

    ghost Value = { List Attribute };

    ghost use Rattle.be_model.specs.Schemas.{IsSchema, names_of_attributes};

    ghost view = { λ s. s.attributes.items };

    ghost invariant = { λ s. IsSchema s.attributes.items × (s.names ≡ names_of_attributes s.attributes.items) };
}

impl Schema {
    /// No attributes. It takes no memory.
    pub fn make(alloc: Global) -> Schema
        ensures { result ≡ [] }
    {
        Schema {
            attributes: Vec::new(alloc),
            names: Names::make(alloc),
        }
    }

    /// Puts an attribute last.
    pub fn push(&mut self, item: (Name, Domain)) -> Result<(), NoMemory>
        requires { IsSchema (self.old ++ attribute_of item.0 item.1 ∷ []) }
        ensures put { OnOk result (self.new ≡ self.old ++ attribute_of item.0 item.1 ∷ []) }
        ensures refused { OnErr result (self.new ≡ self.old) }
    {
        let (name, domain) = item;
        let count = self.attributes.len();
        self.attributes.push(Attribute { name, domain })?;
        if self.names.push(name).is_err() {
            self.attributes.truncate(count);
            return Err(NoMemory);
        }
        Ok(())
    }

    /// Whether an attribute of this name and domain may be put last.
    pub fn accepts(&self, name: &Name, domain: &Domain) -> bool
        ensures { result ≡ true ↔ IsSchema (self.now ++ attribute_of name.now domain.now ∷ []) }
    {
        let _ = &self.attributes;
        self.takes(name, domain)
    }

    fn takes(&self, name: &Name, domain: &Domain) -> bool
        ensures { result ≡ takes self.now name.now domain.now }
    {
        !self.is_full() && !self.has(name) && !is_reserved(name) && domain.is_valid()
    }

    /// The attribute of this number.
    pub fn attribute(&self, a: AttrNo) -> &Attribute
        requires { a.0 < length self.now }
        ensures there { attribute_at self.now a ≡ Some result.now }
        ensures valid { is_domain result.now.domain ≡ true }
        ensures form { IsSchema self.now }
    {
        &self.attributes[usize::from(a.0)]
    }

    /// How many attributes there are.
    pub fn count(&self) -> u16
        ensures count { result ≡ length self.now }
        ensures form { IsSchema self.now }
    {
        self.attributes.len() as u16
    }

    /// Whether no further attribute may be put.
    pub fn is_full(&self) -> bool
        ensures { result ≡ nat_le ATTRIBUTES (length self.now) }
    {
        ATTRIBUTES <= self.attributes.len()
    }

    /// Whether an attribute has this name.
    pub fn has(&self, name: &Name) -> bool
        ensures { result ≡ is_among_texts name.now (names_of_attributes self.now) }
    {
        self.names.find(name).is_some()
    }

    /// The attribute of this name.
    pub fn find(&self, name: &Name) -> Option<AttrNo>
        ensures exact { result ≡ attribute_named self.now name.now }
        ensures below { IfSome result (λ a. a.0 < length self.now) }
        ensures few { IfSome result (λ a. a.0 < ATTRIBUTES) }
    {
        let place = self.names.find(name)?;
        Some(AttrNo(place as u16))
    }

    pub fn name(&self, a: AttrNo) -> Name
        requires { a.0 < length self.now }
        ensures { option_map (λ x. x.name) (attribute_at self.now a) ≡ Some result }
    {
        self.attribute(a).name
    }

    /// The least and the greatest value of an attribute.
    pub fn bounds(&self, a: AttrNo) -> (i64, i64)
        requires { a.0 < length self.now }
        ensures bounds { option_map (λ x. bounds_of x.domain) (attribute_at self.now a) ≡ Some result }
        ensures rising { result.0 ≤ℤ result.1 }
        ensures low { FIRST_INT ≤ℤ result.0 }
        ensures high { result.1 ≤ℤ LAST_INT }
    {
        self.attribute(a).domain.limits()
    }

    /// How often an attribute's range is halved until one value is left.
    pub fn bits(&self, a: AttrNo) -> u32
        requires { a.0 < length self.now }
        ensures { option_map (λ x. bits (width (bounds_of x.domain))) (attribute_at self.now a) ≡ Some result }
    {
        self.attribute(a).domain.bits()
    }

    /// The value of a word. There is none where the word names no value of the attribute's domain.
    pub fn value(&self, a: AttrNo, word: &[u8]) -> Option<i64>
        requires { a.0 < length self.now }
        ensures { option_map (λ x. value_of_word x.domain word.now) (attribute_at self.now a) ≡ Some result }
    {
        self.attribute(a).domain.value(word)
    }

    /// The least and the greatest value of an attribute that the schema may have.
    pub fn range(&self, a: AttrNo) -> Option<(i64, i64)>
        ensures { result ≡ range_of self.now a }
    {
        if a.0 < self.count() {
            Some(self.bounds(a))
        } else {
            None
        }
    }
}

// How often a range of so many values is halved.
fn halvings(values: u64) -> u32
    requires some { 0 < values }
    requires few { values ≤ 4294967296 }
    ensures { result ≡ bits values }
{
    let mut count = 0;
    let mut left = values;
    while left > 1 {
        left = (left + 1) / 2;
        count += 1;
    }
    count
}
