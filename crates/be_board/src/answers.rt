//! What a board answers.

/// What a change that was asked for led to. `n` and `m` are lengths of the list of changes.
#[derive(Clone, Copy, Debug, PartialEq, Eq)]
pub enum Answer {
    /// It was accepted, and stands at place n - 1.
    Done { n: u64 },
    /// It was accepted, and can't be read yet.
    Held { n: u64 },
    /// A live row has the name, that of this id.
    Dup { m: u64, id: u64 },
    /// No live row has the name.
    NoName { m: u64 },
    /// A live row of another session has the name, that of this id.
    Other { m: u64, id: u64 },
    /// Two numbers that should agree and don't.
    Split { seen: u64, written: u64 },
    NoMemory,
}

/// How many letters were put, and how many weren't, for the hits among the first `n` changes.
#[derive(Clone, Copy, Debug, PartialEq, Eq)]
pub struct Sent {
    pub n: u64,
    pub put: u64,
    pub dropped: u64,
}
