//! Why a text is no load file.

ghost use Rattle.std.specs.Prelude.{◌≡◌, Some};
ghost use Rattle.be_load_files.specs.Faults.{kind_name, fault_at};

use be_base::NoMemory;
use be_expr::ExprFault;
use std::fmt;
use thiserror::Error;

/// What is wrong with a line of a load file.
#[derive(Clone, Copy, Debug, PartialEq, Eq)]
pub enum TableKind {
    /// It isn't `ROW`, a name and a condition.
    Form,
    /// The schema hasn't an attribute of its condition.
    Attr,
    /// A value of its condition is outside its domain.
    Dom,
    /// There are too many predicates, or values of a set.
    Many,
    /// A row before it has its name.
    Twice,
}

impl TableKind {
    fn name(self) -> &'static str
        ensures { result.now ≡ kind_name self }
    {
        match self {
            TableKind::Form => "Form",
            TableKind::Attr => "Attr",
            TableKind::Dom => "Dom",
            TableKind::Many => "Many",
            TableKind::Twice => "Twice",
        }
    }
}

impl fmt::Display for TableKind {
    ghost output = { λ kind. Some (kind_name kind) };

    fn fmt<W: fmt::Write>(&self, f: &mut fmt::Formatter<W>) -> fmt::Result {
        f.pad(self.name())
    }
}

/// Why a text is no load file.
#[derive(Clone, Copy, Debug, PartialEq, Eq, Error)]
pub enum TableFault {
    /// The number of the first faulty line, from 1.
    #[error("line {line} {kind}")]
    Line { line: u64, kind: TableKind },
    #[error("out of memory")]
    NoMemory,
}

impl TableFault {
    /// The fault of a line whose name and condition have this one.
    pub fn at(line: u64, fault: ExprFault) -> TableFault
        ensures { result ≡ fault_at line fault }
    {
        let kind = match fault {
            ExprFault::Bad => TableKind::Form,
            ExprFault::Attr { .. } => TableKind::Attr,
            ExprFault::Dom { .. } => TableKind::Dom,
            ExprFault::Many { .. } => TableKind::Many,
            ExprFault::NoMemory => return TableFault::NoMemory,
        };
        TableFault::Line { line, kind }
    }
}

impl From<NoMemory> for TableFault {
    ghost use Rattle.be_load_files.specs.declared.faults.TableFault.TheVariants.{NoMemory};

    ghost from_gives = { λ _ fault. fault ≡ NoMemory };

    fn from(_: NoMemory) -> TableFault {
        TableFault::NoMemory
    }
}
