//! Where a test may hold a worker.

/// `before` is called when a worker has read a line, and `after` when the reply was handed to the link.
/// Lines count from 1.
pub trait Gate {
    fn before(&self, worker: u32, line: u64);

    fn after(&self, worker: u32, line: u64);
}

/// A gate that holds nobody.
#[derive(Clone, Copy, Debug)]
pub struct NoGate;

impl Gate for NoGate {
    fn before(&self, _worker: u32, _line: u64) {}

    fn after(&self, _worker: u32, _line: u64) {}
}
