//! What the texts of workloads mean. To call the function does nothing; its contract is a law.

ghost use Rattle.be_workload.specs.Asked.{AreRead};

/// The schema is read, and no line of a script is refused.
pub fn workloads_are_read()
    ensures { AreRead }
{}
