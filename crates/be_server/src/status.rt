//! How the program ends.

ghost use Rattle.std.specs.Prelude.{◌≡◌, Some};
ghost use Rattle.be_server.specs.Status.{code_of, status_text, status_of_shelf, status_of_schema, status_of_table, status_of_feed, status_of_close, status_of_serve, status_of_mirror};

use be_base::NoMemory;
use be_desk::{Rift, Stray};
use be_event::{SchemaFault, SchemaKind};
use be_follow::{FeedFault, FeedKind};
use be_hub::{CloseFault, ServeFault};
use be_io::ShelfFault;
use be_load_files::{TableFault, TableKind};
use be_mirror::MirrorFault;
use be_published::{Beyond, Shade};
use std::fmt;

/// How the program ended.
#[derive(Drop)]
pub enum Status {
    /// Each input was read, to its end or to a QUIT.
    Done,
    /// The words have no reading.
    Words,
    /// The first faulty line of the schema, from 1.
    SchemaBad { line: u64, kind: SchemaKind },
    /// The first faulty line of the load file, from 1.
    LoadBad { line: u64, kind: TableKind },
    /// The first faulty line of the feed, from 1.
    FeedBad { line: u64, kind: FeedKind },
    NoMemory,
    ReadFault,
    /// A file is over the limit.
    LongFile,
    WriteFault,
    /// The input gave 1099511627776 bytes.
    Spent,
    /// Two numbers of a seat and the desk differ which should agree.
    Split(Rift),
    /// A mirror's reader knows more than what is published.
    Ahead(Beyond),
    /// The sessions' records and the closing list differ.
    Stray(Stray),
    /// A reader was refused an entry.
    Shut(Shade),
}

impl From<ShelfFault> for Status {
    ghost from_gives = { λ fault status. status ≡ status_of_shelf fault };

    fn from(fault: ShelfFault) -> Status {
        match fault {
            ShelfFault::Failed => Status::ReadFault,
            ShelfFault::Long => Status::LongFile,
            ShelfFault::NoMemory => Status::NoMemory,
        }
    }
}

impl From<SchemaFault> for Status {
    ghost from_gives = { λ fault status. status ≡ status_of_schema fault };

    fn from(fault: SchemaFault) -> Status {
        match fault {
            SchemaFault::Line { line, kind } => Status::SchemaBad { line, kind },
            SchemaFault::NoMemory => Status::NoMemory,
        }
    }
}

impl From<TableFault> for Status {
    ghost from_gives = { λ fault status. status ≡ status_of_table fault };

    fn from(fault: TableFault) -> Status {
        match fault {
            TableFault::Line { line, kind } => Status::LoadBad { line, kind },
            TableFault::NoMemory => Status::NoMemory,
        }
    }
}

impl From<FeedFault> for Status {
    ghost from_gives = { λ fault status. status ≡ status_of_feed fault };

    fn from(fault: FeedFault) -> Status {
        match fault {
            FeedFault::Bad { line, kind } => Status::FeedBad { line, kind },
            FeedFault::NoMemory { .. } => Status::NoMemory,
        }
    }
}

impl From<NoMemory> for Status {
    ghost use Rattle.be_server.specs.declared.status.Status.TheVariants.{NoMemory};

    ghost from_gives = { λ _ status. status ≡ NoMemory };

    fn from(_: NoMemory) -> Status {
        Status::NoMemory
    }
}

impl From<CloseFault> for Status {
    ghost from_gives = { λ fault status. status ≡ status_of_close fault };

    fn from(fault: CloseFault) -> Status {
        match fault {
            CloseFault::Split(rift) => Status::Split(rift),
            CloseFault::Stray(stray) => Status::Stray(stray),
            CloseFault::NoMemory => Status::NoMemory,
        }
    }
}

impl From<ServeFault> for Status {
    ghost from_gives = { λ fault status. status ≡ status_of_serve fault };

    fn from(fault: ServeFault) -> Status {
        match fault {
            ServeFault::Failed => Status::ReadFault,
            ServeFault::Split(rift) => Status::Split(rift),
            ServeFault::Stray(stray) => Status::Stray(stray),
            ServeFault::NoMemory => Status::NoMemory,
        }
    }
}

impl From<MirrorFault> for Status {
    ghost from_gives = { λ fault status. status ≡ status_of_mirror fault };

    fn from(fault: MirrorFault) -> Status {
        match fault {
            MirrorFault::Failed => Status::ReadFault,
            MirrorFault::Ahead(beyond) => Status::Ahead(beyond),
            MirrorFault::NoMemory => Status::NoMemory,
        }
    }
}

impl Status {
    /// The exit code of the process.
    pub fn code(&self) -> u8
        ensures { result ≡ code_of self.now }
    {
        match self {
            Status::Done => 0,
            Status::Words => 2,
            Status::SchemaBad { .. } | Status::LoadBad { .. } | Status::FeedBad { .. } => 3,
            Status::ReadFault | Status::LongFile => 4,
            Status::WriteFault => 5,
            Status::NoMemory => 6,
            Status::Split(_) | Status::Ahead(_) => 7,
            Status::Spent => 8,
            Status::Stray(_) => 9,
            Status::Shut(_) => 10,
        }
    }
}

impl fmt::Display for Status {
    ghost output = { λ status. Some (status_text status) };

    fn fmt<W: fmt::Write>(&self, f: &mut fmt::Formatter<W>) -> fmt::Result {
        match self {
            Status::Done => write!(f, ""),
            Status::Words => write!(f, "words refused"),
            Status::SchemaBad { line, kind } => write!(f, "schema line {line}: {kind}"),
            Status::LoadBad { line, kind } => write!(f, "load line {line}: {kind}"),
            Status::FeedBad { line, kind } => write!(f, "feed line {line}: {kind}"),
            Status::NoMemory => write!(f, "out of memory"),
            Status::ReadFault => write!(f, "read fault"),
            Status::LongFile => write!(f, "file over 67108864 bytes"),
            Status::WriteFault => write!(f, "write fault"),
            Status::Spent => write!(f, "input over 1099511627776 bytes"),
            Status::Split(rift) => write!(f, "split {} {}", rift.read(), rift.written()),
            Status::Ahead(beyond) => write!(f, "ahead {} {}", beyond.known(), beyond.published()),
            Status::Stray(stray) => write!(f, "stray {}", stray.at()),
            Status::Shut(_) => write!(f, "reader refused"),
        }
    }
}
