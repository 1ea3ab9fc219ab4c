//! Ways from the root of a tree to a node, and steps that reshape a tree.

ghost use Rattle.std.specs.Prelude.{◌≡◌, ◌-◌, [], ◌∷◌, ◌++◌, length, take, OnOk, OnErr, IfOk};
ghost use Rattle.std.specs.Option.{option_to_list};

use be_base::{AttrNo, Id, NoMemory};
use std::alloc::Global;
use std::marker::Model;

/// A step down from a node.
#[derive(Clone, Copy, Debug, PartialEq, Eq)]
pub enum Hop {
    Part(AttrNo),
    Low,
    High,
}

/// Steps down from the root.
#[derive(Drop)]
pub struct Path {
    hops: Vec<Hop>,
}

impl Model for Path {
    ghost use Rattle.std.specs.Prelude.{List};
    ghost use Rattle.be_model.specs.declared.paths.Hop.{Hop};

    ghost Value = { List Hop };

    ghost view = { λ p. p.hops.items };
}

impl Path {
    /// The way to the root itself. It takes no memory.
    pub fn make(alloc: Global) -> Path
        ensures { result ≡ [] }
    {
        Path {
            hops: Vec::new(alloc),
        }
    }

    /// Puts a step last.
    pub fn push(&mut self, hop: Hop) -> Result<(), NoMemory>
        ensures put { OnOk result (self.new ≡ self.old ++ hop ∷ []) }
        ensures refused { OnErr result (self.new ≡ self.old) }
    {
        self.hops.push(hop)?;
        Ok(())
    }

    /// Takes the last step out, if there is one.
    pub fn pop(&mut self) -> Option<Hop>
        ensures rest { self.new ≡ take (length self.old - 1) self.old }
        ensures last { self.old ≡ self.new ++ option_to_list result }
    {
        self.hops.pop()
    }

    /// The same path once more.
    pub fn copy(&self) -> Result<Path, NoMemory>
        ensures { IfOk result (λ path. path ≡ self.now) }
    {
        let mut hops = Vec::new(*self.hops.allocator());
        hops.extend_from_slice(self.hops.as_slice())?;
        Ok(Path { hops })
    }

    pub fn hops(&self) -> &[Hop]
        ensures { result.now ≡ self.now }
    {
        self.hops.as_slice()
    }
}

/// A change of a tree's shape, which leaves what the tree contains. A path leads to a node from the root.
#[derive(Drop)]
pub enum Step {
    /// Rows of the node's leaf that have the attribute move to a new part of it.
    SplitPart {
        path: Path,
        attr: AttrNo,
    },
    /// Rows of the node's leaf that a half of its range encloses move to a new node for it; `half` is `Low` or `High`.
    SplitHalf {
        path: Path,
        half: Hop,
    },
    /// The rows of the node and of all below it move to the leaf above, and the node is dropped.
    Merge {
        path: Path,
    },
    /// A row moves from one part of the node to another.
    Shift {
        path: Path,
        from: AttrNo,
        to: AttrNo,
        id: Id,
    },
}

/// What came of a step.
#[derive(Clone, Copy, Debug, PartialEq, Eq)]
pub enum StepDone {
    Done,
    /// The step doesn't stand in the tree.
    NotHere,
    /// Memory was wanting.
    Skipped,
}
