//! Names: how they compare, as keys and in lists.

use be_base::Name;
use be_model::Names;
use std::alloc::Global;
use std::collections::{BTreeMap, HashMap};

fn name(text: &str) -> Option<Name> {
    Name::read(text.as_bytes()).ok()
}

/// Whether two names are the same, whether the first is less, and whether they differ.
pub fn compared(text: &str) -> Option<(bool, bool, bool)> {
    let (one, other) = text.split_once(' ')?;
    let (one, other) = (name(one)?, name(other)?);
    Some((one.same(&other), one < other, one != other))
}

/// The names in order, each with its last place in the text.
pub fn sorted(alloc: Global, text: &str) -> Option<String> {
    let mut sorted = BTreeMap::new(alloc);
    for (place, word) in text.split(' ').enumerate() {
        sorted.insert(name(word)?, place).ok()?;
    }
    let mut shown = String::new(alloc);
    for (name, place) in &sorted {
        let part = format!(in alloc; "{name:?}={place};").ok()?;
        shown.push_str(part.as_str()).ok()?;
    }
    Some(shown)
}

/// How many names there are, and the last place of the first one.
pub fn hashed(alloc: Global, text: &str) -> Option<(usize, usize)> {
    let mut hashed = HashMap::new(alloc);
    for (place, word) in text.split(' ').enumerate() {
        hashed.insert(name(word)?, place).ok()?;
    }
    let first = name(text.split(' ').next()?)?;
    Some((hashed.len(), *hashed.get(&first)?))
}

/// The places of two names in the list of the first.
pub fn listed(alloc: Global, text: &str) -> Option<(Option<usize>, Option<usize>)> {
    let (one, other) = text.split_once(' ')?;
    let one = name(one)?;
    let mut names = Names::make(alloc);
    names.push(one).ok()?;
    if names.find(&one) != names.place(one.bytes()) {
        return None;
    }
    Some((names.place(one.bytes()), names.place(other.as_bytes())))
}
