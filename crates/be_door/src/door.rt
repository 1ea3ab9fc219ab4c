//! What a door is.

ghost use Rattle.std.specs.Prelude.{◌≡◌, ◌+◌, ◌<◌, ◌≤◌, ℕ, false, All, Ok, Err, IfOk, IfErr, IfSome, OnOk, length};
ghost use Rattle.be_base.specs.declared.limits.TheConstants.{LINKS, SEATS};
ghost use Rattle.be_base.specs.Counts.{HasRisen};
ghost use Rattle.be_io.specs.Outside.{link_state};
ghost use Rattle.be_door.specs.Links.{IsUnused};
ghost use Rattle.be_door.specs.Counts.{IsSound, after_given, after_failed, after_refused, after_end, after_back};
ghost use Rattle.be_door.specs.Door.{DoorState, IsOf, IsNew, AreAllCounts, after_try, after_listen, after_settle};

use crate::count::DoorCount;
use be_base::{NoMemory, SessionNo};
use be_io::{AcceptFault, Link, ListenFault};

/// Something that gives out links to workers, a bounded number of them. Workers share it by reference, and each has a
/// count of its own.
pub trait Door<L: Link> {
    ghost state: { Self → DoorState L };

    /// Begins to give out so many links, and makes one count for each worker. Counts of an earlier listen that wasn't
    /// settled are of no door from then on.
    fn listen(
        &mut self,
        port: u16,
        links: u64,
        workers: u32,
    ) -> Result<Vec<DoorCount<L>>, ListenFault>
        requires links { links ≤ LINKS }
        requires some { 0 < workers }
        requires workers { workers ≤ SEATS }
        ensures listens { OnOk result (state self.new
            ≡ after_listen (state self.old) (state self.new).«open» port links workers) }
        ensures many { IfOk result (λ counts. length counts.items ≡ workers) }
        ensures counts { IfOk result (λ counts. All (IsNew (state self.new)) counts.items) }
        // After a fault only the numbers of the try and, where the door failed, its faults have changed.
        ensures failed { result ≡ Err ListenFault.Failed
            → HasRisen (state self.old).read_faults (state self.new).read_faults
            × (state self.new ≡ record (after_try (state self.old) port) { read_faults = (state self.new).read_faults }) }
        ensures no_memory { result ≡ Err ListenFault.NoMemory → state self.new ≡ after_try (state self.old) port };

    /// Draws one number, and gives out a link, or nothing exactly where all links were drawn before. It may wait.
    fn accept(&self, count: &mut DoorCount<L>) -> Result<Option<L>, AcceptFault>
        requires of_last { IsOf (state self.now) count.old }
        requires before_end { count.old.ended ≡ false }
        ensures given { IfOk result (λ drawn. IfSome drawn (λ link. IsUnused (link_state L.Source L.Sink link))) }
        ensures counted { IfOk result (λ drawn. IfSome drawn (λ _. count.new ≡ after_given count.old)) }
        ensures ended { result ≡ Ok None → count.new ≡ after_end count.old }
        ensures failed { result ≡ Err AcceptFault.Failed → count.new ≡ after_failed count.old }
        ensures no_memory { result ≡ Err AcceptFault.NoMemory → count.new ≡ after_refused count.old }
        // So whoever accepts until the end does so at most `links` times.
        ensures sound { IsSound count.new };

    /// Ends a link, which this session used. It takes no memory.
    fn give_back(&self, count: &mut DoorCount<L>, session: SessionNo, link: L)
        requires of_last { IsOf (state self.now) count.old }
        requires out { count.old.back < count.old.given }
        ensures back { count.new ≡ after_back count.old session link (link_state L.Source L.Sink link) }
        ensures sound { IsSound count.new };

    /// Takes back all counts of the last listen, and adds their numbers to the door's. Where memory runs out the counts,
    /// with the links that they kept, are lost, and the door may listen again.
    fn settle(&mut self, counts: Vec<DoorCount<L>>) -> Result<(), NoMemory>
        requires { AreAllCounts (state self.old) counts.items }
        ensures settled { OnOk result (state self.new ≡ after_settle (state self.old) counts.items) }
        ensures links { OnOk result ((state self.new).given + (state self.new).failed + (state self.new).refused
            ≡ (state self.new).links) }
        ensures no_memory { IfErr result (λ _. state self.new ≡ state self.old) };
}
