//! Links that are kept, each with the session that used it.

ghost use Rattle.std.specs.Prelude.{◌≡◌, ◌-◌, ◌+◌, ◌<◌, ◌≤◌, ◌++◌, ◌∷◌, [], true, length, OnOk, OnErr};
ghost use Rattle.be_door.specs.Kept.{KeptState, put_last};

use be_base::{NoMemory, SessionNo};
use std::alloc::Global;
use std::marker::Model;

/// What comes back, where it is kept.
#[derive(Drop)]
pub struct Kept<L> {
    keeps: bool,
    links: Vec<(SessionNo, L)>,
}

impl<L> Model for Kept<L> {
    ghost use Rattle.std.specs.Prelude.{◌-◌, ◌≤◌, vec_len, vec_capacity};
    ghost use Rattle.be_door.specs.Kept.{KeptState};

    ghost Value = { KeptState L };

    ghost view = { λ k. record { keeps = k.keeps; links = k.links.items; spare = vec_capacity k.links - vec_len k.links } };

    ghost invariant = { λ k. vec_len k.links ≤ vec_capacity k.links };
}

impl<L: Drop> Kept<L> {
    /// Keeps nothing yet. It takes no memory.
    pub fn make(alloc: Global, keeps: bool) -> Kept<L>
        ensures { result ≡ record { keeps = keeps; links = []; spare = 0 } }
    {
        Kept {
            keeps,
            links: Vec::new(alloc),
        }
    }

    pub fn links(&self) -> &[(SessionNo, L)]
        ensures { result.now ≡ self.now.links }
    {
        self.links.as_slice()
    }

    pub fn keeps(&self) -> bool
        ensures { result ≡ self.now.keeps }
    {
        self.keeps
    }

    /// Makes room for so many more.
    pub fn reserve(&mut self, more: usize) -> Result<(), NoMemory>
        ensures same { (self.new.keeps ≡ self.old.keeps) × (self.new.links ≡ self.old.links) }
        ensures room { OnOk result (more ≤ self.new.spare) }
        ensures refused { OnErr result (self.new ≡ self.old) }
    {
        self.links.reserve(more)?;
        Ok(())
    }

    /// Makes room for so many more, where they are kept.
    pub fn make_room(&mut self, more: usize) -> Result<(), NoMemory>
        ensures same { (self.new.keeps ≡ self.old.keeps) × (self.new.links ≡ self.old.links) }
        ensures room { OnOk result (self.old.keeps ≡ true → more ≤ self.new.spare) }
        ensures refused { OnErr result (self.new ≡ self.old) }
    {
        if self.keeps {
            self.reserve(more)?;
        }
        Ok(())
    }

    /// Puts a link last, where it is kept.
    pub fn put(&mut self, session: SessionNo, link: L)
        requires { self.old.keeps ≡ true → 0 < self.old.spare }
        ensures same { self.new.keeps ≡ self.old.keeps }
        ensures links { self.new.links ≡ put_last self.old.keeps self.old.links session link }
        ensures spare { self.old.spare ≤ self.new.spare + 1 }
    {
        if self.keeps {
            self.links.push_reserved((session, link));
        }
    }

    /// Takes over all links of the other, behind its own.
    pub fn take_over(&mut self, mut other: Kept<L>)
        requires { length other.links ≤ self.old.spare }
        ensures same { self.new.keeps ≡ self.old.keeps }
        ensures links { self.new.links ≡ self.old.links ++ other.links }
        ensures spare { self.old.spare ≤ self.new.spare + length other.links }
    {
        if self.links.append(&mut other.links).is_err() {
            unreachable!()
        }
    }
}
