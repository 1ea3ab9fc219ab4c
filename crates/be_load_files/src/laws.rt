//! Laws of load files. Each function's contract is a law, which its proof shows; to call one does nothing.

ghost use Rattle.be_load_files.specs.Dumps.{DumpsReadBack};

/// The reply to a DUMP is a load file of the rows that it tells.
pub fn dump_reads_back()
    ensures { DumpsReadBack }
{}
