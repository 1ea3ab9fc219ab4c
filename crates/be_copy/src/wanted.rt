//! Which live rows are looked for.

ghost use Rattle.std.specs.Prelude.{◌≡◌};
ghost use Rattle.be_model.specs.Rows.{id_of};
ghost use Rattle.be_copy.specs.Wanted.{wants, key_of};

use crate::keys::name_key;
use be_base::{Name, SessionNo};
use be_model::Row;

#[derive(Clone, Copy)]
pub enum Wanted<'a> {
    Named(&'a Name),
    /// Those of the session that have the name.
    Own(SessionNo, &'a Name),
    Of(SessionNo),
}

impl Wanted<'_> {
    /// The number of the wanted rows' name, or of their session.
    pub fn key(self) -> u64
        ensures { result ≡ key_of self.entry }
    {
        match self {
            Wanted::Named(name) => name_key(name),
            Wanted::Own(_, name) => name_key(name),
            Wanted::Of(session) => session.0,
        }
    }

    pub fn takes(self, row: &Row) -> bool
        ensures { result ≡ wants self.entry (id_of row.now, row.now) }
    {
        match self {
            Wanted::Named(name) => row.name == *name,
            Wanted::Own(session, name) => row.session.0 == session.0 && row.name == *name,
            Wanted::Of(session) => row.session.0 == session.0,
        }
    }
}
