//! Numbers that workers draw: one atomic word, from 0.

ghost use Rattle.std.specs.Prelude.{◌≡◌, ◌+◌, ◌-◌, ◌<◌, ◌≤◌, true, false, [], IfOk, IfSome, IfNone};
ghost use Rattle.be_base.specs.declared.limits.TheConstants.{LINKS, SEATS};
ghost use Rattle.be_door.specs.Numbers.{TurnState, HomeState, NumbersState, ends};
ghost use Rattle.be_door.specs.Drawn.{drawer};

use crate::views::{Draw, Drawer, Numbered, OneShare};
use atomic_table::{Seat, Table};
use std::alloc::{AllocError, Global};
use std::marker::Model;

/// One worker's right to draw.
#[derive(Drop)]
pub struct Turn {
    seat: Seat<(), Drawer>,
    links: u64,
    drawn: u64,
    ended: bool,
}

impl Model for Turn {
    ghost Value = { TurnState };

    ghost view = { λ t. record { of = t.seat.table_id; links = t.links; drawn = t.drawn; ended = t.ended } };

    ghost invariant = { λ t. (t.seat.me ≡ (drawer 1 t.links t.drawn (ends t.ended), [])) × (t.drawn ≤ t.links) × (t.links ≤ LINKS) };
}

/// The shares that are at home, with what was drawn by the turns that came back.
#[derive(Drop)]
pub struct Home {
    seat: Seat<(), Drawer>,
    links: u64,
}

impl Model for Home {
    ghost Value = { HomeState };

    ghost view = { λ h. record {
      of = h.seat.table_id;
      links = h.links;
      shares = h.seat.me.0.share;
      drawn = h.seat.me.0.below;
      ended = h.seat.me.0.past;
    } };

    ghost invariant = { λ h. (h.seat.me.1 ≡ []) × (h.seat.me.0.links ≡ h.links) × (h.links ≤ LINKS) };
}

/// The word. It has no seat of its own, so that threads can share it.
#[derive(Drop)]
pub struct Numbers {
    table: Table<(), Drawer, (u64, u32), Numbered, Global>,
}

impl Model for Numbers {
    ghost Value = { NumbersState };

    ghost view = { λ n. record { of = n.table.shared.table_id; links = n.table.shared.key.0; workers = n.table.shared.key.1 } };

    ghost invariant = { λ n. (n.table.shared.table_id.words ≡ 1) × (n.table.shared.table_id.slots ≡ 0)
        × (n.table.shared.key.0 ≤ LINKS) × (n.table.shared.key.1 ≤ SEATS) };
}

impl Numbers {
    pub fn open(alloc: Global, links: u64, workers: u32) -> Result<(Numbers, Home), AllocError>
        requires { (links ≤ LINKS) × (workers ≤ SEATS) }
        ensures numbers { IfOk result (λ r. r.0 ≡ record { of = r.0.of; links = links; workers = workers }) }
        ensures home { IfOk result (λ r. r.1 ≡ record { of = r.0.of; links = links; shares = workers; drawn = 0; ended = 0 }) }
    {
        let (table, seat) = Table::of_words(alloc, &[0], &(links, workers))?;
        Ok((Numbers { table }, Home { seat, links }))
    }

    /// Hands on one share, before anything was drawn by what is at home.
    pub fn split(&self, home: &mut Home) -> Turn
        requires of { (home.old.of ≡ self.now.of) × (home.old.links ≡ self.now.links) }
        requires none { (0 < home.old.shares) × (home.old.drawn ≡ 0) × (home.old.ended ≡ 0) }
        ensures turn { result ≡ record { of = self.now.of; links = self.now.links; drawn = 0; ended = false } }
        ensures home { home.new ≡ record home.old { shares = home.old.shares - 1 } }
    {
        let seat = self.table.shared.split_seat::<OneShare>(&mut home.seat);
        Turn {
            seat,
            links: home.links,
            drawn: 0,
            ended: false,
        }
    }

    /// Draws one number, in one step, and gives it where it is below the number of links.
    pub fn draw(&self, turn: &mut Turn) -> Option<u64>
        requires { (turn.old.of ≡ self.now.of) × (turn.old.ended ≡ false) }
        ensures drawn { IfSome result (λ n. (n < turn.old.links) × (turn.old.drawn < turn.old.links) × (turn.new ≡ record turn.old { drawn = turn.old.drawn + 1 })) }
        ensures ended { IfNone result (turn.new ≡ record turn.old { ended = true }) }
    {
        let number = self.table.shared.fetch_add::<Draw>(&mut turn.seat, 0, 1);
        if number < turn.links {
            turn.drawn += 1;
            Some(number)
        } else {
            turn.ended = true;
            None
        }
    }

    /// Takes back a turn.
    pub fn join(&self, home: &mut Home, turn: Turn)
        requires of { (home.old.of ≡ self.now.of) × (turn.of ≡ self.now.of) }
        requires some { 0 < home.old.shares }
        ensures { home.new ≡ record home.old { shares = home.old.shares + 1; drawn = home.old.drawn + turn.drawn; ended = home.old.ended + ends turn.ended } }
    {
        self.table
            .shared
            .join_seat::<OneShare>(&mut home.seat, turn.seat);
    }

    /// With every share at home, one turn that met the end shows that each number below the links was drawn.
    pub fn close(self, home: Home)
        requires { (home.of ≡ self.of) × (home.shares ≡ self.workers) }
        ensures { 0 < home.ended → home.drawn ≡ self.links }
    {
        let Numbers { table } = self;
        table.close_with(home.seat).free();
    }
}

impl Turn {
    pub fn has_ended(&self) -> bool
        ensures { result ≡ self.now.ended }
    {
        self.ended
    }

    /// The first turn that comes back.
    pub fn into_home(self) -> Home
        ensures { result ≡ record { of = self.of; links = self.links; shares = 1; drawn = self.drawn; ended = ends self.ended } }
    {
        Home {
            seat: self.seat,
            links: self.links,
        }
    }
}
