//! What shows that an entry was refused.

ghost use Rattle.std.specs.Prelude.{◌≡◌, ◌<◌, ◌↔◌, None};

/// It is made of a refused entry of a glass, and of nothing else.
#[derive(Clone, Copy, Debug)]
pub struct Shade {
    // How many entries the glass was refused.
    shuts: u64,
    ghost some: { 0 < shuts },
}

impl Shade {
    pub(crate) fn of(shuts: u64) -> Option<Shade>
        ensures { (result ≡ None) ↔ (shuts ≡ 0) }
    {
        if shuts == 0 {
            None
        } else {
            Some(Shade { shuts })
        }
    }
}
