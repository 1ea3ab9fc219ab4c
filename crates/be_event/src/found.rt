//! What is found among the items of an event's text.

ghost use Rattle.std.specs.Prelude.{◌≡◌, ◌∷◌, ◌++◌, ◌<◌, [], List, Some, None, nat_lt, if◌then◌else◌, IfSome};
ghost use Rattle.be_base.specs.declared.limits.TheConstants.{ATTRIBUTES};
ghost use Rattle.be_model.specs.Schemas.{Attributes, attribute_named};
ghost use Rattle.be_event.specs.Grammar.{WrittenValues, WrittenItem, item_of};
ghost use Rattle.be_event.specs.Scan.{IsGiven, Finds, Judges};

use crate::events::EventFault;
use crate::items::{Given, Source};
use be_base::{ATTRIBUTES, AttrNo, Name, SET_VALUES};
use be_model::Met;

/// The first fault of each kind among the items of a text, and whether there is an item.
#[derive(Clone, Copy)]
pub struct Faults {
    pub some: bool,
    pub unknown: Option<Name>,
    pub outside: Option<AttrNo>,
    pub twice: Option<AttrNo>,
    pub many: Option<u64>,
}

impl Faults {
    /// The first fault, in the order of the kinds.
    pub fn judge(self) -> Result<(), EventFault>
        ensures { (s : Attributes) → Judges s self result }
    {
        if let Some(name) = self.unknown {
            return Err(EventFault::Attr { name });
        }
        if let Some(attr) = self.outside {
            return Err(EventFault::Dom { attr });
        }
        if let Some(attr) = self.twice {
            return Err(EventFault::Twice { attr });
        }
        if let Some(count) = self.many {
            return Err(EventFault::Many { count });
        }
        Ok(())
    }
}

/// What the items of a text say: the faults, and where the values of each attribute are.
#[derive(Drop)]
pub struct Found<'a> {
    pub faults: Faults,
    pub sources: [Option<Source<'a>>; ATTRIBUTES],
}

impl<'a> Found<'a> {
    pub fn nothing() -> Found<'a>
        ensures { (s : Attributes) → Finds s [] result }
    {
        let faults = Faults {
            some: false,
            unknown: None,
            outside: None,
            twice: None,
            many: None,
        };
        Found {
            faults,
            sources: [None; ATTRIBUTES],
        }
    }

    /// Adds what one more item says.
    pub fn note(&mut self, name: &Name, attr: Option<AttrNo>, given: Given<'a>)
        requires { IfSome attr (λ a. a.0 < ATTRIBUTES) }
        ensures { (s : Attributes) (items : List WrittenItem) (values : WrittenValues) → attr ≡ attribute_named s name.now → IsGiven s attr given.entry values → Finds s items self.old → Finds s (items ++ item_of name.now values ∷ []) self.new }
    {
        self.faults.some = true;
        self.faults.many = self.faults.many.or(large_set(given.met));
        let Some(attr) = attr else {
            self.faults.unknown = self.faults.unknown.or(Some(*name));
            return;
        };
        if given.met.is_outside {
            self.faults.outside = self.faults.outside.or(Some(attr));
            return;
        }
        let place = usize::from(attr.0);
        match self.sources[place] {
            Some(_) => self.faults.twice = self.faults.twice.or(Some(attr)),
            None => self.sources[place] = Some(given.source),
        }
    }
}

// How many values a set has, where there are too many.
fn large_set(met: Met) -> Option<u64>
    ensures { result ≡ (if nat_lt SET_VALUES met.count then Some met.count else None) }
{
    if met.count > SET_VALUES as u64 {
        Some(met.count)
    } else {
        None
    }
}
