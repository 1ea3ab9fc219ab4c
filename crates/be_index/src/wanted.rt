//! Which rows a search wants.

ghost use Rattle.std.specs.Prelude.{◌≡◌};
ghost use Rattle.be_index.specs.Rows.{is_wanted};

use be_base::SessionNo;
use be_model::{Event, Row};

#[derive(Clone, Copy)]
pub(crate) enum Wanted<'a> {
    SatisfiedBy(&'a Event),
    Of(SessionNo),
    All,
}

impl Wanted<'_> {
    pub(crate) fn takes(self, row: &Row) -> bool
        ensures { result ≡ is_wanted self.entry row.now }
    {
        match self {
            Wanted::SatisfiedBy(event) => row.conj.satisfied_by(event),
            Wanted::Of(session) => row.session.0 == session.0,
            Wanted::All => true,
        }
    }
}
