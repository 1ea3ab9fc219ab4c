//! A link over the network. It tells no content.

ghost use Rattle.std.specs.Prelude.{◌≡◌, [], None, refl};
ghost use Rattle.be_door.specs.Links.{no_numbers};

use crate::meter::Meter;
use be_io::{Failed, Link, Sink, SinkFault, Source};
use std::io::{ErrorKind, Read, Write};
use std::net::{Net, OpenStream};

/// A connection of the system. Each read and each write is one call of the system, and what is written is sent at once. A
/// door gives it out with a buffer before it.
#[derive(Drop)]
pub struct TcpLink<R: Net> {
    stream: R::Stream,
    pub(crate) meter: Meter,
}

impl<R: Net> TcpLink<R> {
    pub(crate) fn of(stream: R::Stream) -> TcpLink<R>
        ensures { result ≡ record { stream = result.stream; meter = no_numbers } }
    {
        // Where the system refuses this, short replies come late, and nothing is wrong.
        let _ = stream.set_nodelay(true);
        TcpLink {
            stream,
            meter: Meter::none(),
        }
    }
}

impl<R: Net> Source for TcpLink<R> {
    ghost left = { λ _. None };

    ghost taken = { λ l. l.meter.taken };

    ghost read_faults = { λ l. l.meter.read_faults };

    ghost kept_by_read = { λ l. record {
      whole = None;
      sink = record { held = None; faults = l.meter.write_faults; refusals = 0; kept_back = 0 };
      references = [];
    } };

    fn read(&mut self, buf: &mut [u8]) -> Result<usize, Failed> {
        match self.stream.read(buf) {
            Ok(count) => {
                self.meter.add_taken(count);
                Ok(count)
            }
            Err(_) => {
                self.meter.add_read_fault();
                Err(Failed)
            }
        }
    }
}

impl<R: Net> Sink for TcpLink<R> {
    ghost held = { λ _. None };

    ghost write_faults = { λ l. l.meter.write_faults };

    // it asks for no memory, and so never answers that memory was wanting
    ghost refusals = { λ _. 0 };

    ghost kept_back = { λ _. 0 };

    ghost kept_by_write = { λ l. record {
      source = record { left = None; faults = l.meter.read_faults; taken = l.meter.taken; whole = None };
      references = [];
    } };

    fn write(&mut self, bytes: &[u8]) -> Result<usize, SinkFault> {
        match self.stream.write(bytes) {
            Ok(count) if count > 0 => Ok(count),
            _ => {
                self.meter.add_write_fault();
                Err(SinkFault::Failed)
            }
        }
    }

    fn flush(&mut self) -> Result<(), SinkFault> {
        Ok(())
    }

    fn hears(&self) -> bool {
        if self.stream.set_nonblocking(true).is_err() {
            return false;
        }
        let mut first = [0u8; 1];
        let peeked = self.stream.peek(&mut first);
        // Where the system refuses this, the next read fails, and that ends the session.
        let _ = self.stream.set_nonblocking(false);
        match peeked {
            Ok(_) => true,
            Err(error) => error.kind() != ErrorKind::WouldBlock,
        }
    }
}

impl<R: Net> Link for TcpLink<R> {
    ghost reads_leave_the_sink = { λ l. refl };

    ghost writes_leave_the_source = { λ l. refl };

    ghost is_one = { λ l. refl };
}
