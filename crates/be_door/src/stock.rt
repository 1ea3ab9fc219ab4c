//! The links that a door in memory still has.

ghost use Rattle.std.specs.Prelude.{◌≡◌, ◌++◌, All, IfSome};
ghost use Rattle.std.specs.Option.{option_to_list};
ghost use Rattle.be_io.specs.Outside.{link_state};
ghost use Rattle.be_door.specs.Links.{IsUnused};

use be_io::Link;
use std::collections::VecDeque;
use std::marker::Model;

/// Links that nobody has used, in the order in which they are given out.
#[derive(Drop)]
pub struct Stock<L: Link> {
    links: VecDeque<L>,
}

impl<L: Link> Model for Stock<L> {
    ghost use Rattle.std.specs.Prelude.{List, All};
    ghost use Rattle.be_io.specs.Outside.{link_state};
    ghost use Rattle.be_door.specs.Links.{IsUnused};

    ghost Value = { List L };

    ghost view = { λ s. s.links.items };

    ghost invariant = { λ s. All (λ link. IsUnused (link_state L.Source L.Sink link)) s.links.items };
}

impl<L: Link> Stock<L> {
    /// It takes no memory.
    pub fn make(links: Vec<L>) -> Stock<L>
        requires { All (λ link. IsUnused (link_state L.Source L.Sink link)) links.items }
        ensures { result ≡ links.items }
    {
        Stock {
            links: VecDeque::from(links),
        }
    }

    /// The first link leaves, where there is one.
    pub fn next(&mut self) -> Option<L>
        ensures rest { self.old ≡ option_to_list result ++ self.new }
        ensures unused { IfSome result (λ link. IsUnused (link_state L.Source L.Sink link)) }
    {
        self.links.pop_front()
    }
}
