//! What a session asks of the desk.

use be_base::Name;
use be_model::Conj;

/// A change that a session asks for.
#[derive(Drop)]
pub enum Ask {
    Subscribe { name: Name, conj: Conj },
    Unsubscribe { name: Name },
    Leave,
}

impl Ask {
    // Whether it takes rows out.
    pub(crate) fn takes_out(&self) -> bool {
        !matches!(self, Ask::Subscribe { .. })
    }
}
