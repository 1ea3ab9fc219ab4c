//! What a workload is.

/// The texts of a workload.
#[derive(Debug, Drop)]
pub struct Workload {
    pub schema: Vec<u8>,
    /// A line for each subscription, and two for each event.
    pub script: Vec<u8>,
}
