//! A register of rows: their ids by session, and by name.

ghost use Rattle.std.specs.Prelude.{◌≡◌, false, [], Some, OnOk, OnErr};
ghost use Rattle.std.specs.Bool.{OnTrue};
ghost use Rattle.be_model.specs.ByIds.{ByIds, put_by_id, without_id, has_id, row_at};
ghost use Rattle.be_model.specs.Rows.{id_of};
ghost use Rattle.be_copy.specs.Places.{IsLeast};
ghost use Rattle.be_copy.specs.Registers.{IsRegister, is_found, AreWanted};
ghost use Rattle.be_copy.specs.Wanted.{key_of};

use crate::bitmaps::Bitmaps;
use crate::keys::name_key;
use crate::places::Places;
use crate::wanted::Wanted;
use be_base::NoMemory;
use be_model::Row;
use std::alloc::Global;

/// Where the rows of a session are found without a look at others, and those of a name with a look at those alone whose names
/// have the same number.
#[derive(Drop)]
pub struct Register {
    pub sessions: Bitmaps,
    pub names: Places,
}

impl Register {
    /// It takes no memory.
    pub fn make(alloc: Global) -> Register
        ensures { IsRegister result [] }
    {
        Register {
            sessions: Bitmaps::make(alloc),
            names: Places::make(alloc),
        }
    }

    /// Files a row whose id is new, or leaves all as it was.
    pub fn put(&mut self, row: &Row) -> Result<(), NoMemory>
        ensures put { OnOk result ((m : ByIds) → has_id (id_of row.now) m ≡ false → IsRegister self.old m → IsRegister self.new (put_by_id row.now m)) }
        ensures refused { OnErr result ((m : ByIds) → has_id (id_of row.now) m ≡ false → IsRegister self.old m → IsRegister self.new m) }
    {
        self.sessions.put(row.session.0, row.id.0)?;
        match self.names.put(name_key(&row.name), row.id.0) {
            Ok(()) => Ok(()),
            Err(NoMemory) => {
                self.sessions.drop_pair(row.session.0, row.id.0);
                Err(NoMemory)
            }
        }
    }

    /// Takes a row out.
    pub fn drop_row(&mut self, row: &Row)
        ensures removed { (m : ByIds) → row_at (id_of row.now) m ≡ Some row.now → IsRegister self.old m → IsRegister self.new (without_id (id_of row.now) m) }
        // A row that was put is taken out again.
        ensures undone { (m : ByIds) → has_id (id_of row.now) m ≡ false → IsRegister self.old (put_by_id row.now m) → IsRegister self.new m }
    {
        self.sessions.drop_pair(row.session.0, row.id.0);
        self.names.drop_pair(name_key(&row.name), row.id.0);
    }

    /// Whether it can tell that every row is wanted. It never can where they are looked for by name.
    pub fn has_only(&self, wanted: Wanted<'_>) -> bool
        ensures { OnTrue result ((m : ByIds) → IsRegister self.now m → AreWanted wanted.entry m) }
    {
        match wanted {
            Wanted::Of(session) => self.sessions.has_only(session.0),
            Wanted::Named(_) => false,
            Wanted::Own(_, _) => false,
        }
    }

    /// Takes all rows out.
    pub fn clear(&mut self)
        ensures { IsRegister self.new [] }
    {
        self.sessions.clear();
        self.names.clear();
    }

    /// The next id, not below `from`, that stands under the session of the wanted rows, or under the number of their name.
    pub fn next(&self, wanted: Wanted<'_>, key: u64, from: u64) -> Option<u64>
        requires { key ≡ key_of wanted }
        ensures { IsLeast (is_found self.now wanted.entry) from result }
    {
        match wanted {
            Wanted::Named(_) => self.names.next(key, from),
            Wanted::Own(_, _) => self.names.next(key, from),
            Wanted::Of(_) => self.sessions.next(key, from),
        }
    }
}
