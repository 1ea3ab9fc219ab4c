//! How a conversation ends.

ghost use Rattle.std.specs.Prelude.{◌≡◌};
ghost use Rattle.be_protocol.specs.Ends.{end_of};

use be_io::SinkFault;

/// How a conversation ended.
#[derive(Clone, Copy, Debug, PartialEq, Eq)]
pub enum SessionEnd {
    /// The input was read to its end.
    Eof,
    /// A QUIT was read.
    Quit,
    ReadFault,
    WriteFault,
    /// The input gave 1099511627776 bytes.
    Spent,
    /// A change found two numbers that should agree and don't, and the reply says so.
    Split { seen: u64, written: u64 },
    /// Memory was wanting before the first line, or to the output.
    NoMemory,
}

// How it ends where the output broke off.
pub(crate) fn end_of(fault: SinkFault) -> SessionEnd
    ensures { result ≡ end_of fault }
{
    match fault {
        SinkFault::Failed => SessionEnd::WriteFault,
        SinkFault::NoMemory => SessionEnd::NoMemory,
    }
}
