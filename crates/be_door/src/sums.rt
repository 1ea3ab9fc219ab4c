//! How many links there were, and what came of them.

ghost use Rattle.std.specs.Prelude.{◌≡◌, ◌+◌, ◌-◌, ◌*◌, ◌<◌, ◌≤◌, IfOk, IfSome, Ok, Err, None};
ghost use Rattle.be_base.specs.declared.limits.TheConstants.{LINKS, SEATS};
ghost use Rattle.be_door.specs.Sums.{no_sums, plus, after_meter, after_accept, accepts};

use crate::meter::Meter;
use be_io::AcceptFault;

/// What a door has of its links, or one worker's count.
#[derive(Clone, Copy, Debug, PartialEq, Eq)]
pub struct Sums {
    pub given: u64,
    pub back: u64,
    pub failed: u64,
    pub refused: u64,
    pub read_faults: u64,
    pub write_faults: u64,
    pub most: u64,
}

impl Sums {
    pub fn none() -> Sums
        ensures { result ≡ no_sums }
    {
        Sums {
            given: 0,
            back: 0,
            failed: 0,
            refused: 0,
            read_faults: 0,
            write_faults: 0,
            most: 0,
        }
    }

    /// How many links are out.
    pub(crate) fn out(&self) -> usize
        requires { (self.now.back ≤ self.now.given) × (self.now.given ≤ LINKS) }
        ensures { result ≡ self.now.given - self.now.back }
    {
        (self.given - self.back) as usize
    }

    /// Adds what a worker counted.
    pub fn add(&mut self, other: &Sums)
        requires few { accepts self.old + accepts other.now ≤ SEATS * LINKS }
        requires back { (self.old.back ≤ self.old.given) × (other.now.back ≤ other.now.given) }
        ensures { self.new ≡ plus self.old other.now }
    {
        self.given += other.given;
        self.back += other.back;
        self.failed += other.failed;
        self.refused += other.refused;
        self.read_faults = self.read_faults.saturating_add(other.read_faults);
        self.write_faults = self.write_faults.saturating_add(other.write_faults);
        self.most = self.most.max(other.most);
    }

    /// Counts a link that came back.
    pub(crate) fn add_back(&mut self, meter: Meter)
        requires { self.old.back < LINKS }
        ensures { self.new ≡ after_meter self.old meter }
    {
        self.back += 1;
        self.read_faults = self.read_faults.saturating_add(meter.read_faults);
        self.write_faults = self.write_faults.saturating_add(meter.write_faults);
        self.most = self.most.max(meter.taken);
    }

    /// Counts what came of an accept.
    pub(crate) fn count<L>(
        &mut self,
        link: Result<L, AcceptFault>,
    ) -> Result<Option<L>, AcceptFault>
        requires { accepts self.old < LINKS }
        ensures counted { self.new ≡ after_accept self.old link }
        ensures given { IfOk result (λ drawn. IfSome drawn (λ link'. link ≡ Ok link')) }
        ensures some { ¬ (result ≡ Ok None) }
        ensures failed { result ≡ Err AcceptFault.Failed → link ≡ Err AcceptFault.Failed }
        ensures no_memory { result ≡ Err AcceptFault.NoMemory → link ≡ Err AcceptFault.NoMemory }
    {
        match link {
            Ok(link) => {
                self.given += 1;
                Ok(Some(link))
            }
            Err(AcceptFault::Failed) => {
                self.failed += 1;
                self.read_faults = self.read_faults.saturating_add(1);
                Err(AcceptFault::Failed)
            }
            Err(AcceptFault::NoMemory) => {
                self.refused += 1;
                Err(AcceptFault::NoMemory)
            }
        }
    }
}
