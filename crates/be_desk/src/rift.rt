//! What shows that two numbers differ which should agree.

ghost use Rattle.std.specs.Prelude.{◌≡◌, ◌≢◌};

/// Two numbers that differ. It is made by `Desk::change` and `Desk::ahead` alone.
#[derive(Clone, Copy, Debug)]
pub struct Rift {
    seen: u64,
    written: u64,
    ghost differ: { seen ≢ written },
}

impl Rift {
    pub(crate) fn make(seen: u64, written: u64) -> Rift
        requires { seen ≢ written }
        ensures seen { result.seen ≡ seen }
        ensures written { result.written ≡ written }
    {
        Rift { seen, written }
    }

    /// What the seat has seen, or how many changes of its session it made.
    pub fn read(&self) -> u64
        ensures read { result ≡ self.now.seen }
        ensures differ { self.now.seen ≢ self.now.written }
    {
        self.seen
    }

    /// What is published, or where the session stands in the list.
    pub fn written(&self) -> u64
        ensures written { result ≡ self.now.written }
    {
        self.written
    }
}
