//! The rule of drawn numbers.

ghost use Rattle.std.specs.Prelude.{◌+◌, ◌-◌};

use atomic_table::{Join, Play, Split, TableRule};

/// What a seat knows: how many numbers below `links` it has drawn, and how many others. No value of it is made.
pub struct Drawer {
    pub share: u64,
    pub links: u64,
    pub below: u64,
    pub past: u64,
}

/// The key is the number of links and that of workers.
pub struct Numbered;

impl TableRule<(), Drawer, (u64, u32)> for Numbered {
    ghost use Rattle.be_door.specs.Drawn.{Drawn, drawer};

    ghost holds = { Drawn };

    ghost first = { λ key. drawer key.1 key.0 0 0 };
}

pub struct Draw;

impl Play<(), Drawer> for Draw {
    ghost use Rattle.be_door.specs.Drawn.{Draws};

    ghost then = { Draws };
}

pub struct OneShare;

impl Split<Drawer> for OneShare {
    ghost use Rattle.be_door.specs.Drawn.{drawer};

    ghost left = { λ v. drawer (v.share - 1) v.links v.below v.past };

    ghost right = { λ v. drawer 1 v.links 0 0 };
}

impl Join<Drawer> for OneShare {
    ghost use Rattle.be_door.specs.Drawn.{drawer};

    ghost both = { λ v w. drawer (v.share + w.share) v.links (v.below + w.below) (v.past + w.past) };

    ghost spent = { drawer 0 0 0 0 };
}
