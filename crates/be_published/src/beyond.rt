//! What shows that a reader knows more than what is published.

ghost use Rattle.std.specs.Prelude.{◌≡◌, ◌<◌};

/// The lengths of what a reader knows and of what is published, which is less. It is made by `Glass::within` alone.
#[derive(Clone, Copy, Debug)]
pub struct Beyond {
    known: u64,
    published: u64,
    ghost more: { published < known },
}

impl Beyond {
    pub(crate) fn make(known: u64, published: u64) -> Beyond
        requires { published < known }
        ensures known { result.known ≡ known }
        ensures published { result.published ≡ published }
    {
        Beyond { known, published }
    }

    /// How many changes the reader knows.
    pub fn known(&self) -> u64
        ensures known { result ≡ self.now.known }
        ensures more { self.now.published < self.now.known }
    {
        self.known
    }

    /// How many are published.
    pub fn published(&self) -> u64
        ensures { result ≡ self.now.published }
    {
        self.published
    }
}
