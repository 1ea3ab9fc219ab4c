//! The numbers of a link, and a link under a meter.

ghost use Rattle.std.specs.Prelude.{◌≡◌, refl};
ghost use Rattle.be_base.specs.Counts.{raised};
ghost use Rattle.be_io.specs.Outside.{source_state, sink_state, link_state};
ghost use Rattle.be_door.specs.Links.{IsUnused, no_numbers};

use be_io::{Failed, Link, Sink, SinkFault, Source};

/// How many bytes a link gave, and how many of its calls failed.
#[derive(Clone, Copy, Debug)]
pub struct Meter {
    pub taken: u64,
    pub read_faults: u64,
    pub write_faults: u64,
}

impl Meter {
    pub(crate) fn none() -> Meter
        ensures { result ≡ no_numbers }
    {
        Meter {
            taken: 0,
            read_faults: 0,
            write_faults: 0,
        }
    }

    pub(crate) fn add_taken(&mut self, count: usize)
        ensures { self.new ≡ record self.old { taken = raised count self.old.taken } }
    {
        self.taken = self.taken.saturating_add(count as u64);
    }

    pub(crate) fn add_read_fault(&mut self)
        ensures { self.new ≡ record self.old { read_faults = raised 1 self.old.read_faults } }
    {
        self.read_faults = self.read_faults.saturating_add(1);
    }

    pub(crate) fn add_write_fault(&mut self)
        ensures { self.new ≡ record self.old { write_faults = raised 1 self.old.write_faults } }
    {
        self.write_faults = self.write_faults.saturating_add(1);
    }
}

/// A link under a meter, which counts what passes. A link tells its numbers to contracts alone, and a door has to add
/// them up.
#[derive(Drop)]
pub struct Metered<L> {
    link: L,
    pub(crate) meter: Meter,
}

impl<L> Metered<L> {
    pub fn link(&self) -> &L
        ensures { result.now ≡ self.now.link }
    {
        &self.link
    }
}

impl<L: Link> Metered<L> {
    pub(crate) fn of(link: L) -> Metered<L>
        requires { IsUnused (link_state L.Source L.Sink link) }
        ensures { result ≡ record { link = link; meter = no_numbers } }
    {
        Metered {
            link,
            meter: Meter::none(),
        }
    }
}

impl<L: Link> Source for Metered<L> {
    ghost left = { λ m. L.left m.link };

    ghost taken = { λ m. m.meter.taken };

    ghost read_faults = { λ m. m.meter.read_faults };

    ghost kept_by_read = { λ m. record (L.kept_by_read m.link) {
      sink = record (sink_state L.Sink m.link) { faults = m.meter.write_faults };
    } };

    fn read(&mut self, buf: &mut [u8]) -> Result<usize, Failed> {
        let read = self.link.read(buf);
        match read {
            Ok(count) => self.meter.add_taken(count),
            Err(Failed) => self.meter.add_read_fault(),
        }
        read
    }
}

impl<L: Link> Sink for Metered<L> {
    ghost held = { λ m. L.held m.link };

    ghost write_faults = { λ m. m.meter.write_faults };

    ghost refusals = { λ m. L.refusals m.link };

    ghost kept_back = { λ m. L.kept_back m.link };

    ghost kept_by_write = { λ m. record {
      source = record (source_state L.Source m.link) { faults = m.meter.read_faults; taken = m.meter.taken };
      references = (L.kept_by_read m.link).references;
    } };

    fn write(&mut self, bytes: &[u8]) -> Result<usize, SinkFault> {
        let written = self.link.write(bytes);
        if written == Err(SinkFault::Failed) {
            self.meter.add_write_fault();
        }
        written
    }

    fn flush(&mut self) -> Result<(), SinkFault> {
        let flushed = self.link.flush();
        if flushed == Err(SinkFault::Failed) {
            self.meter.add_write_fault();
        }
        flushed
    }
}

impl<L: Link> Link for Metered<L> {
    ghost reads_leave_the_sink = { λ m. refl };

    ghost writes_leave_the_source = { λ m. refl };

    ghost is_one = { λ m. refl };
}
