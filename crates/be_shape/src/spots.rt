//! Where a node stands in its tree.

ghost use Rattle.std.specs.Prelude.{◌≡◌, true, IsOk, OnOk, OnErr, IfOk};
ghost use Rattle.be_model.specs.declared.paths.Hop.{Hop};
ghost use Rattle.be_shape.specs.Shape.{nothing, known};
ghost use Rattle.be_shape.specs.Ranges.{is_bounded, is_rising};
ghost use Rattle.be_shape.specs.Children.{is_open, known_below};
ghost use Rattle.be_shape.specs.NodeList.{known_along, are_open};

use crate::ranges::{NodeRange, lower_range, upper_range, whole_range};
use be_base::{AttrNo, NoMemory};
use be_model::{Hop, Schema};
use std::alloc::Global;

/// What the path to a node says of it: its range, and the attributes used on the path, the nearest first.
#[derive(Drop)]
pub struct Spot {
    pub range: NodeRange,
    pub used: Vec<AttrNo>,
    ghost bounded: { is_bounded range ≡ true },
    ghost rising: { is_rising range ≡ true },
}

impl Spot {
    ghost use Rattle.be_shape.specs.Spots.{known_of, CanLeave, used_above};

    /// Of the root nothing is known. It takes no memory.
    pub fn root(alloc: Global) -> Spot
        ensures { known_of result ≡ nothing }
    {
        Spot {
            range: None,
            used: Vec::new(alloc),
        }
    }

    /// Goes down a step. A part may take memory for its attribute, and a half takes none.
    pub fn enter(&mut self, s: &Schema, hop: Hop) -> Result<(), NoMemory>
        requires { is_open hop (known_of self.old) ≡ true }
        ensures entered { OnOk result (known_of self.new ≡ known_below s.now hop (known_of self.old)) }
        ensures refused { OnErr result (known_of self.new ≡ known_of self.old) }
        ensures low { hop ≡ Hop.Low → IsOk result }
        ensures high { hop ≡ Hop.High → IsOk result }
    {
        match hop {
            Hop::Part(a) => {
                self.used.insert(0, a)?;
                self.range = whole_range(s, a);
            }
            Hop::Low => self.range = lower_range(self.range),
            Hop::High => self.range = upper_range(self.range),
        }
        Ok(())
    }

    /// Goes back up the step that was gone last, to a node of this range. It takes no memory.
    pub fn leave(&mut self, hop: Hop, range: NodeRange)
        requires bounded { is_bounded range ≡ true }
        requires rising { is_rising range ≡ true }
        requires used { CanLeave hop self.old.used.items }
        ensures { known_of self.new ≡ known range (used_above hop self.old.used.items) }
    {
        if let Hop::Part(_) = hop {
            let _ = self.used.remove(0);
        }
        self.range = range;
    }

    /// Of the node at the end of a path.
    pub fn along(alloc: Global, s: &Schema, hops: &[Hop]) -> Result<Spot, NoMemory>
        requires { are_open s.now hops.now nothing ≡ true }
        ensures { IfOk result (λ k. known_of k ≡ known_along s.now hops.now nothing) }
    {
        let mut spot = Spot::root(alloc);
        for hop in hops {
            spot.enter(s, *hop)?;
        }
        Ok(spot)
    }
}
