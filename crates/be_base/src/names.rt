//! Names and the numbers by which things are known.

ghost use Rattle.std.specs.Prelude.{◌≡◌, ◌↔◌, IsOk, IfOk, Some, true, refl};
ghost use Rattle.std.specs.List.{position};
ghost use Rattle.std.specs.Ordering.{nat_cmp};
ghost use Rattle.std.specs.Cmp.{partial_equiv_from_equiv};
ghost use Rattle.std.specs.Cmp.Lexicographic.{slice_cmp, nat_list_eq_equiv, nat_list_cmp_total, texts_po, texts_ties};
ghost use Rattle.std.specs.Cmp.Rules.{hashing};
ghost use Rattle.std.specs.Hash as fed;
ghost use Rattle.std.proofs.Common.{rules};
ghost use Rattle.be_base.specs.Text.{IsName, name_of, is_stray, same_text};

use crate::limits::NAME_BYTES;
use crate::tokens::is_word_byte;
use std::alloc::AllocError;
use std::cmp::Ordering;
use std::hash::{Hash, Hasher};
use std::marker::Model;
use std::{fmt, str};
use thiserror::Error;

/// The place of an attribute in its schema, from 0.
#[derive(Clone, Copy, Debug, PartialEq, Eq, PartialOrd, Ord, Hash)]
pub struct AttrNo(pub u16);

/// The place of a subscription's change in the list of changes, from 0.
#[derive(Clone, Copy, Debug, PartialEq, Eq, PartialOrd, Ord, Hash)]
pub struct Id(pub u64);

/// A session's number. Sessions count from 1; 0 is nobody's session.
#[derive(Clone, Copy, Debug, PartialEq, Eq, PartialOrd, Ord, Hash)]
pub struct SessionNo(pub u64);

/// Memory ran out.
#[derive(Clone, Copy, Debug, PartialEq, Eq, Error)]
#[error("out of memory")]
pub struct NoMemory;

impl From<AllocError> for NoMemory {
    fn from(_: AllocError) -> NoMemory {
        NoMemory
    }
}

/// Why a read was refused.
#[derive(Clone, Copy, Debug, PartialEq, Eq, Error)]
pub enum NoRead {
    /// The published copy refused the reader's entry.
    #[error("the reader was refused")]
    Shut,
    #[error("out of memory")]
    NoMemory,
}

/// Why a text is no name.
#[derive(Clone, Copy, Debug, PartialEq, Eq, Error)]
pub enum NameFault {
    #[error("a name has at least one byte")]
    Empty,
    /// The number of bytes.
    #[error("a name has at most 64 bytes, and not {len}")]
    TooLong { len: u64 },
    /// The place of the first byte that isn't allowed, from 0.
    #[error("byte {place} isn't allowed in a name")]
    Byte { place: u64 },
}

/// 1 to 64 bytes of `A-Z a-z 0-9 _ . -`, kept in place. Contracts see it as its bytes.
pub struct Name {
    bytes: [u8; NAME_BYTES],
    len: u8,
}

impl Model for Name {
    ghost use Rattle.std.specs.Prelude.{◌≡◌, ℕ, ◌-◌, ◌≤◌, ◌++◌, List, take, drop, length, replicate};
    ghost use Rattle.be_base.specs.declared.limits.TheConstants.{NAME_BYTES};
    ghost use Rattle.be_base.specs.Text.{IsName};
    ghost use Rattle.be_base.specs.Padding.{padded, length_kept};

    ghost Value = { List ℕ };

    ghost view = { λ n. take n.len n.bytes };

    // The unused places hold 0, so that a name's bytes say all that there is of it.
    ghost invariant = { λ n. IsName (take n.len n.bytes) × (n.len ≤ NAME_BYTES) × (length n.bytes ≡ NAME_BYTES) × (drop n.len n.bytes ≡ replicate (NAME_BYTES - n.len) 0) };

    ghost inverse = { λ text. record { bytes = text ++ replicate (NAME_BYTES - length text) 0; len = length text } };

    ghost inverse_ok = { λ n h i. record {
      bytes = padded n.len n.bytes h.1 h.2 h.3 i;
      len = length_kept n.len n.bytes h.1 h.2 i;
    } };
}

impl Clone for Name {
    ghost is_clone = { λ name copy. copy ≡ name };

    fn clone(&self) -> Result<Name, AllocError> {
        Ok(*self)
    }
}

impl Copy for Name {}

impl Name {
    /// Reads a whole text as a name.
    pub fn read(text: &[u8]) -> Result<Name, NameFault>
        // The name, or the first of the faults in their order.
        ensures exact { result ≡ name_of text.now }
        ensures name { IsOk result ↔ IsName text.now }
    {
        if text.is_empty() {
            return Err(NameFault::Empty);
        }
        if text.len() > NAME_BYTES {
            return Err(NameFault::TooLong {
                len: text.len() as u64,
            });
        }
        if let Some(place) = first_stray(text) {
            return Err(NameFault::Byte {
                place: place as u64,
            });
        }
        Ok(Name::of_bytes(text))
    }

    fn of_bytes(text: &[u8]) -> Name
        requires { IsName text.now }
        ensures { result ≡ text.now }
    {
        let mut bytes = [0; NAME_BYTES];
        bytes[..text.len()].copy_from_slice(text);
        Name {
            bytes,
            len: text.len() as u8,
        }
    }

    /// The bytes of the name.
    pub fn bytes(&self) -> &[u8]
        ensures bytes { result.now ≡ self.now }
        ensures form { IsName self.now }
    {
        &self.bytes[..usize::from(self.len)]
    }

    /// The name as text.
    pub fn as_str(&self) -> &str
        ensures { result.now ≡ self.now }
    {
        let bytes = self.bytes();
        // SAFETY: a name's bytes are ASCII.
        unsafe { str::from_utf8_unchecked(bytes) }
    }

    /// Whether two names are the same.
    pub fn same(&self, other: &Name) -> bool
        ensures exact { result ≡ same_text self.now other.now }
        ensures same { result ≡ true ↔ (self.now ≡ other.now) }
    {
        self == other
    }
}

// The place of the first byte that a name can't have.
fn first_stray(text: &[u8]) -> Option<usize>
    ensures { result ≡ position is_stray text.now }
{
    text.iter().position(|b| !is_word_byte(*b))
}

impl PartialEq for Name {
    ghost eq = { same_text };

    ghost laws = { partial_equiv_from_equiv nat_list_eq_equiv };

    fn eq(&self, other: &Name) -> bool {
        self.bytes() == other.bytes()
    }
}

impl Eq for Name {
    ghost laws = { nat_list_eq_equiv };
}

impl PartialOrd for Name {
    ghost partial_cmp = { λ a b. Some (slice_cmp nat_cmp a b) };

    ghost laws = { texts_po };

    fn partial_cmp(&self, other: &Name) -> Option<Ordering> {
        Some(self.cmp(other))
    }
}

impl Ord for Name {
    ghost cmp = { slice_cmp nat_cmp };

    ghost total = { nat_list_cmp_total };

    ghost matches_partial_cmp = { λ a b. refl };

    ghost matches_eq = { texts_ties };

    fn cmp(&self, other: &Name) -> Ordering {
        self.bytes().cmp(other.bytes())
    }
}

impl Hash for Name {
    ghost hash_input = { fed.slice fed.u8 };

    ghost respects_eq = { Prim.search (hashing, rules) };

    fn hash<H: Hasher>(&self, state: &mut H) {
        self.bytes().hash(state);
    }
}

impl fmt::Debug for Name {
    fn fmt<W: fmt::Write>(&self, f: &mut fmt::Formatter<W>) -> fmt::Result {
        fmt::Debug::fmt(self.as_str(), f)
    }
}

impl fmt::Display for Name {
    ghost output = { λ name. Some name };

    fn fmt<W: fmt::Write>(&self, f: &mut fmt::Formatter<W>) -> fmt::Result {
        f.pad(self.as_str())
    }
}
