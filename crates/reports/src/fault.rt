//! Why an input is refused.

ghost use Rattle.std.specs.Prelude.{◌≡◌};

use crate::problem::ProblemFault;
use crate::status::Status;
use lang_check::CheckFault;
use node_lang::{Program, TextFault};
use table_formula::RefuteError;
use table_text::TableFault;
use win_index::RingFault;

/// Why an input is refused.
#[derive(Drop)]
pub enum Fault {
    /// The fault of a program text.
    Text(TextFault),
    /// The refusal of a program.
    Program {
        program: Program,
        ids: u32,
        fault: CheckFault,
    },
    /// The fault of a list of identifiers that is not a ring.
    Ring {
        rounds: u32,
        ids: u32,
        places: Vec<u32>,
        fault: RingFault,
    },
    /// A place that the ring has not, and the number of its places.
    Place {
        place: u32,
        places: usize,
    },
    /// A number of segments, and the number of places of the ring.
    Segments {
        segments: u32,
        places: usize,
    },
    /// The fault of a table text.
    TableText(TableFault),
    /// Why there is no formula of these numbers of identifiers and rounds.
    Formula {
        ids: u32,
        rounds: u32,
        fault: ProblemFault,
    },
    /// The fault of a text that is no refutation.
    Refutation(RefuteError),
}

impl Fault {
    ghost use Rattle.std.specs.Prelude.{◌≡◌};
    ghost use Rattle.reports.specs.Findings.{fault_of, fault_status};

    /// Returns the status of the refusal.
    pub fn status(&self) -> Status
        ensures { result ≡ fault_status (fault_of self.now) }
    {
        match self {
            Fault::Text(_) | Fault::Program { .. } | Fault::TableText(_) | Fault::Refutation(_) =>
                Status::Refused,
            Fault::Ring { .. } | Fault::Place { .. } => Status::RingRefused,
            Fault::Segments { .. } => Status::Words,
            Fault::Formula { .. } => Status::FormulaRefused,
        }
    }
}
