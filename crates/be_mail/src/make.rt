//! How mailboxes are made.

ghost use Rattle.std.specs.Prelude.{◌≡◌, ℕ, ◌+◌, ◌<◌, ◌≤◌, ◌++◌, [], ◌∷◌, true, length, map, IfOk, OnOk};
ghost use Rattle.std.specs.List.{range_with_len};
ghost use Rattle.be_base.specs.declared.limits.TheConstants.{SEATS, BOX_LETTERS};
ghost use Rattle.crossbeam_queue.specs.Passes.{view, IsPassOf, ruled_capacity};
ghost use Rattle.be_mail.specs.Rule.{hand, no_puts, first_hand};
ghost use Rattle.be_mail.specs.Passes.{new_passes, box_of};
ghost use Rattle.be_mail.specs.Mailbox.{box_id, ForEachState};
ghost use Rattle.be_mail.specs.Boxes.{name_of, HaveRoom, AreRows, IsNewRow};

use crate::mail::Mail;
use crate::naming::{Post, ThisBox};
use crate::passes::MailPasses;
use crate::rule::{BoxPass, HandOut, Mailbox, Names};
use be_base::{BOX_LETTERS, NoMemory};
use be_waiting::Bell;
use std::alloc::{AllocError, Global};
use std::marker::{Brand, Model};

// The passes of one seat so far. Contracts see the list.
#[derive(Drop)]
struct PassRow {
    passes: Vec<BoxPass>,
}

impl Model for PassRow {
    ghost use Rattle.std.specs.Prelude.{List};
    ghost use Rattle.be_mail.specs.Passes.{BoxPass};

    ghost Value = { List BoxPass };

    ghost view = { λ r. r.passes.items };
}

impl PassRow {
    fn new(alloc: Global) -> PassRow
        ensures { result ≡ [] }
    {
        PassRow {
            passes: Vec::new(alloc),
        }
    }

    fn push(&mut self, pass: BoxPass) -> Result<(), AllocError>
        ensures { OnOk result (self.new ≡ self.old ++ pass ∷ []) }
    {
        self.passes.push(pass)?;
        Ok(())
    }
}

/// Makes an empty mailbox for each seat, and the passes of each seat, in order, which show nothing put or taken.
pub fn make_mail<S: Post>(alloc: Global, seats: u32) -> Result<(Mail<S>, Vec<MailPasses>), NoMemory>
    requires seats { (0 < seats) × (seats ≤ SEATS) }
    requires named { seats ≡ S.seats }
    requires receipts { ForEachState S.found }
    ensures boxes { IfOk result (λ r. length r.0 ≡ seats) }
    ensures passes { IfOk result (λ r. r.1.items ≡ map (new_passes r.0) (range_with_len 0 seats)) }
{
    let mut rows = empty_rows(alloc, seats)?;
    let mut boxes = Vec::new(alloc);
    for place in 0..seats {
        add_mailbox::<S>(alloc, place, &mut boxes, &mut rows)?;
    }
    let passes = all_seated::<S>(alloc, &boxes, rows)?;
    let bells = make_bells(alloc, seats)?;
    Ok((Mail { boxes, bells }, passes))
}

fn make_bells(alloc: Global, seats: u32) -> Result<Vec<Bell>, AllocError> {
    let mut bells = Vec::new(alloc);
    for _ in 0..seats {
        bells.push(Bell::make())?;
    }
    Ok(bells)
}

fn empty_rows(alloc: Global, seats: u32) -> Result<Vec<PassRow>, AllocError>
    ensures { IfOk result (λ rows. AreRows seats [] rows.items) }
{
    let mut rows = Vec::new(alloc);
    for _ in 0..seats {
        rows.push(PassRow::new(alloc))?;
    }
    Ok(rows)
}

// Makes the mailbox of a place, and a pass there for each seat.
fn add_mailbox<S: Post>(
    alloc: Global,
    place: u32,
    boxes: &mut Vec<Mailbox<S>>,
    rows: &mut Vec<PassRow>,
) -> Result<(), AllocError>
    requires place { length boxes.old.items ≡ place }
    requires receipts { ForEachState S.found }
    requires room { HaveRoom boxes.old.items }
    requires rows { AreRows S.seats (map name_of boxes.old.items) rows.old.items }
    ensures place { OnOk result (length boxes.new.items ≡ place + 1) }
    ensures room { OnOk result (HaveRoom boxes.new.items) }
    ensures rows { OnOk result (AreRows S.seats (map name_of boxes.new.items) rows.new.items) }
{
    let (mailbox, mut root) = open_mailbox::<S>(alloc, place)?;
    for seat in 0..rows.len() {
        let pass = mailbox.another::<HandOut>(&mut root);
        rows[seat].push(pass)?;
    }
    boxes.push(mailbox)?;
    Ok(())
}

// An empty mailbox, whose rule knows its name and its place, and the pass that has every seat.
fn open_mailbox<S: Post>(alloc: Global, place: u32) -> Result<(Mailbox<S>, BoxPass), AllocError>
    requires { ForEachState S.found }
    ensures pass { IfOk result (λ r. IsPassOf r.0 r.1 × (view r.1 ≡ hand (box_id (name_of r.0) place) (no_puts 0 S.seats) true [])) }
    ensures room { IfOk result (λ r. ruled_capacity r.0 ≡ BOX_LETTERS) }
{
    let (mailbox, mut root) = Mailbox::<S>::ruled(alloc, BOX_LETTERS)?;
    name_mailbox::<S, Brand>(&mailbox, &mut root, place);
    Ok((mailbox, root))
}

// Tells the rule of a new mailbox which one it is.
fn name_mailbox<S: Post, N: ThisBox>(mailbox: &Mailbox<S>, root: &mut BoxPass, place: u32)
    requires named { N.mailbox ≡ box_id (name_of mailbox.now) place }
    requires pass { IsPassOf mailbox.now root.old × (view root.old ≡ first_hand S.seats) }
    ensures pass { IsPassOf mailbox.now root.new × (view root.new ≡ hand (box_id (name_of mailbox.now) place) (no_puts 0 S.seats) true []) }
{
    mailbox.another::<Names<N>>(root);
}

fn all_seated<S: Post>(
    alloc: Global,
    boxes: &Vec<Mailbox<S>>,
    rows: Vec<PassRow>,
) -> Result<Vec<MailPasses>, AllocError>
    requires seats { (S.seats ≤ SEATS) × (length boxes.now.items ≡ S.seats) }
    requires rows { AreRows S.seats (map name_of boxes.now.items) rows.items }
    ensures { IfOk result (λ passes. passes.items ≡ map (new_passes (map name_of boxes.now.items)) (range_with_len 0 S.seats)) }
{
    let mut passes = Vec::new(alloc);
    let mut seat = 0;
    for row in rows {
        passes.push(seated(seat, row))?;
        seat += 1;
    }
    Ok(passes)
}

// The passes of one seat, with which nothing was put or taken.
fn seated(seat: u32, row: PassRow) -> MailPasses
    requires { (seat < length row) × IsNewRow seat (map box_of row) row }
    ensures { result ≡ new_passes (map box_of row) seat }
{
    MailPasses {
        seat,
        passes: row.passes,
        fulls: 0,
        empties: 0,
    }
}
