//! Faults of the engine and of its output.

ghost use Rattle.std.specs.Prelude.{◌≡◌};
ghost use Rattle.devices.specs.declared.fault.EngineFault.TheVariants.{Memory};
ghost use Rattle.devices.specs.declared.fault.OutFault.TheVariants.{Memory as NoMemory};

use node_program::OutOfMemory;
use std::alloc::AllocError;
use thiserror::Error;

/// Why a report was not written completely.
#[derive(Clone, Copy, Debug, PartialEq, Eq, Error)]
pub enum EngineFault {
    /// A read of the input failed.
    #[error("nbhd: read failed")]
    Read,
    /// A write of the report failed, or took no byte.
    #[error("nbhd: write failed")]
    Write,
    /// Memory was refused.
    #[error("nbhd: out of memory")]
    Memory,
    /// The start of a thread was refused.
    #[error("nbhd: no thread")]
    Thread,
    /// A cell or a border that threads share held an unexpected value, or nothing where a value was
    /// put.
    #[error("nbhd: stranger")]
    Stranger,
}

impl EngineFault {
    ghost use Rattle.devices.specs.FaultCodes.{engine_fault_code};

    /// Returns the exit status of the process: 5 after a failed read or write, else 6.
    pub fn code(self) -> u8
        ensures { result ≡ engine_fault_code self }
    {
        match self {
            EngineFault::Read | EngineFault::Write => 5,
            EngineFault::Memory | EngineFault::Thread | EngineFault::Stranger => 6,
        }
    }
}

impl From<AllocError> for EngineFault {
    ghost from_gives = { λ _ fault. fault ≡ Memory };

    fn from(_refused: AllocError) -> EngineFault {
        EngineFault::Memory
    }
}

impl From<OutOfMemory> for EngineFault {
    ghost from_gives = { λ _ fault. fault ≡ Memory };

    fn from(_refused: OutOfMemory) -> EngineFault {
        EngineFault::Memory
    }
}

/// Why a table text was not written completely.
#[derive(Clone, Copy, Debug, PartialEq, Eq, Error)]
pub enum OutFault {
    /// A write failed, or took no byte.
    #[error("nbhd: write failed")]
    Write,
    /// Memory was refused.
    #[error("nbhd: out of memory")]
    Memory,
}

impl From<AllocError> for OutFault {
    ghost from_gives = { λ _ fault. fault ≡ NoMemory };

    fn from(_refused: AllocError) -> OutFault {
        OutFault::Memory
    }
}
