//! What the workers of a door count.

ghost use Rattle.std.specs.Prelude.{◌≡◌, ◌+◌, ◌<◌, ◌≤◌, ◌++◌, true, false, length, sum_by, All, IfOk};
ghost use Rattle.be_base.specs.declared.limits.TheConstants.{LINKS, SEATS};
ghost use Rattle.be_door.specs.Counts.{CountState, IsSound, new_count, after_link, sums_of, with_counts, all_kept};

use crate::kept::Kept;
use crate::meter::Meter;
use crate::numbers::{Home, Numbers, Turn};
use crate::sums::Sums;
use be_base::SessionNo;
use std::alloc::{AllocError, Global};
use std::marker::Model;

/// One worker's count of the links that it was given and gave back. Only doors change it.
#[derive(Drop)]
pub struct DoorCount<L> {
    pub(crate) turn: Turn,
    pub(crate) sums: Sums,
    pub(crate) kept: Kept<L>,
}

impl<L> Model for DoorCount<L> {
    ghost use Rattle.std.specs.Prelude.{◌≡◌, ◌+◌, ◌≤◌, true, length, if◌then◌else◌};
    ghost use Rattle.be_base.specs.declared.limits.TheConstants.{LINKS};
    ghost use Rattle.be_door.specs.Counts.{CountState};

    ghost Value = { CountState L };

    ghost view = { λ c. record {
      of = c.turn.of;
      links = c.turn.links;
      given = c.sums.given;
      back = c.sums.back;
      failed = c.sums.failed;
      refused = c.sums.refused;
      ended = c.turn.ended;
      read_faults = c.sums.read_faults;
      write_faults = c.sums.write_faults;
      most = c.sums.most;
      keeps = c.kept.keeps;
      kept = c.kept.links;
    } };

    // A link that is out has its place among those that are kept.
    ghost invariant = { λ c. (c.sums.given + c.sums.failed + c.sums.refused ≡ c.turn.drawn)
        × (c.turn.drawn ≤ c.turn.links) × (c.turn.links ≤ LINKS) × (c.sums.back ≤ c.sums.given)
        × (length c.kept.links ≡ (if c.kept.keeps then c.sums.back else 0))
        × (c.kept.keeps ≡ true → c.sums.given ≤ c.sums.back + c.kept.spare) };
}

impl<L> DoorCount<L> {
    pub fn sums(&self) -> Sums
        ensures sums { result ≡ sums_of self.now }
        // What its type keeps.
        ensures sound { IsSound self.now }
    {
        self.sums
    }

    pub fn has_ended(&self) -> bool
        ensures { result ≡ self.now.ended }
    {
        self.turn.has_ended()
    }
}

impl<L: Drop> DoorCount<L> {
    pub(crate) fn make(alloc: Global, turn: Turn, keeps: bool) -> DoorCount<L>
        requires { (turn.drawn ≡ 0) × (turn.ended ≡ false) }
        ensures { result ≡ new_count turn.of turn.links keeps }
    {
        DoorCount {
            turn,
            sums: Sums::none(),
            kept: Kept::make(alloc, keeps),
        }
    }

    /// Counts a link that came back from this session, and keeps it where links are kept.
    pub(crate) fn take_back(&mut self, session: SessionNo, link: L, meter: Meter)
        requires { self.old.back < self.old.given }
        ensures back { self.new ≡ after_link self.old session link meter }
        ensures sound { IsSound self.new }
    {
        self.sums.add_back(meter);
        self.kept.put(session, link);
    }
}

/// Opens numbers, and makes one count for each worker.
pub(crate) fn deal<L: Drop>(
    alloc: Global,
    links: u64,
    workers: u32,
    keeps: bool,
) -> Result<(Numbers, Vec<DoorCount<L>>), AllocError>
    requires { (links ≤ LINKS) × (workers ≤ SEATS) }
    ensures numbers { IfOk result (λ dealt. dealt.0 ≡ record { of = dealt.0.of; links = links; workers = workers }) }
    ensures many { IfOk result (λ dealt. length dealt.1.items ≡ workers) }
    ensures counts { IfOk result (λ dealt. All (λ c. c ≡ new_count dealt.0.of links keeps) dealt.1.items) }
{
    let (numbers, mut home) = Numbers::open(alloc, links, workers)?;
    let mut counts = Vec::new(alloc);
    for _worker in 0..workers {
        counts.push(DoorCount::make(alloc, numbers.split(&mut home), keeps))?;
    }
    Ok((numbers, counts))
}

/// How many links they kept.
pub(crate) fn count_kept<L: Drop>(counts: &[DoorCount<L>]) -> usize
    requires { length counts.now ≤ SEATS }
    ensures { result ≡ sum_by (λ c. length c.kept) counts.now }
{
    let mut links = 0;
    for count in counts.iter() {
        links += count.kept.links().len();
    }
    links
}

/// Takes all counts back, and closes the numbers.
pub(crate) fn gather<L: Drop>(
    numbers: Numbers,
    counts: Vec<DoorCount<L>>,
    sums: &mut Sums,
    kept: &mut Kept<L>,
)
    requires all { (length counts.items ≡ numbers.workers) × (0 < numbers.workers) }
    requires each { All (λ c. (c.of ≡ numbers.of) × (c.ended ≡ true)) counts.items }
    requires none { (sums.old.given ≡ 0) × (sums.old.back ≡ 0) × (sums.old.failed ≡ 0) × (sums.old.refused ≡ 0) }
    requires room { length (all_kept counts.items) ≤ kept.old.spare }
    ensures sums { sums.new ≡ with_counts sums.old counts.items }
    ensures links { sums.new.given + sums.new.failed + sums.new.refused ≡ numbers.links }
    ensures same { kept.new.keeps ≡ kept.old.keeps }
    ensures kept { kept.new.links ≡ kept.old.links ++ all_kept counts.items }
{
    let mut counts = counts.into_iter();
    let Some(first) = counts.next() else {
        unreachable!()
    };
    sums.add(&first.sums);
    kept.take_over(first.kept);
    let mut home = first.turn.into_home();
    for count in counts {
        sums.add(&count.sums);
        kept.take_over(count.kept);
        numbers.join(&mut home, count.turn);
    }
    numbers.close(home);
}
