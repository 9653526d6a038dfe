//! The outcome of a task.

ghost use Rattle.std.specs.Prelude.{◌≡◌};
ghost use Rattle.reports.specs.StatusCodes.{exit_code, answer_code};

use devices::fault::EngineFault;

/// The outcome of a task whose report was written.
#[derive(Clone, Copy, Debug, PartialEq, Eq)]
pub enum Status {
    /// The task was done, or its verdict is yes.
    Done,
    /// The verdict is no.
    No,
    /// The ring can't be run in the number of segments that the words request.
    Words,
    /// The program text, the program, the table text or the refutation was refused.
    Refused,
    /// The ring was refused.
    RingRefused,
    /// There is no formula of the numbers, or it is too large.
    FormulaRefused,
}

impl Status {
    /// Returns the exit status of the process: 0 to 4 and 7, in the order of the variants.
    pub fn code(self) -> u8
        ensures { result ≡ exit_code self }
    {
        match self {
            Status::Done => 0,
            Status::No => 1,
            Status::Words => 2,
            Status::Refused => 3,
            Status::RingRefused => 4,
            Status::FormulaRefused => 7,
        }
    }
}

/// Returns the exit status of the process for this result of the engine.
pub fn code_of(answer: Result<Status, EngineFault>) -> u8
    ensures { result ≡ answer_code answer }
{
    match answer {
        Ok(status) => status.code(),
        Err(fault) => fault.code(),
    }
}
