//! The faults of program texts.
ghost use Rattle.std.specs.Prelude.{◌≡◌};
ghost use Rattle.node_lang.specs.declared.fault.FaultKind.TheVariants.{OutOfMemory};
ghost use Rattle.node_lang.specs.declared.expected.Expected.TheVariants.{End};

use crate::expected::Expected;
use std::alloc::{AllocError, AllocFailed};

/// Why a program text is refused. A report names each kind by `N` and its number.
#[derive(Clone, Copy, Debug, PartialEq, Eq)]
pub enum FaultKind {
    /// N1: the text is over `LONGEST_TEXT` bytes.
    TooLong,
    /// N2: a byte over 127.
    NotAscii,
    /// N3: a byte or a word that is not a token.
    BadWord,
    /// N4: a number over 4,294,967,295.
    NumberTooLarge,
    /// N5: a number of the header that is out of range.
    HeaderRange,
    /// N6: an unexpected token.
    Unexpected,
    /// N7: an expression node of depth 65, one over `MAX_DEPTH`.
    TooDeep,
    /// N8: the 4,097th expression node, one over `MAX_NODES`.
    TooManyNodes,
    /// N9: the text ends where a token is expected.
    EndOfText,
    /// N10: memory could not be allocated.
    OutOfMemory,
}

/// A fault of a program text and its byte offset, counted from 0.
#[derive(Clone, Copy, Debug, PartialEq, Eq)]
pub struct TextFault {
    pub kind: FaultKind,
    pub offset: usize,
}

impl TextFault {
    pub(crate) fn at(kind: FaultKind, offset: usize) -> TextFault
        ensures { result ≡ record { kind = kind; offset = offset } }
    {
        TextFault { kind, offset }
    }
}

impl<T: Drop> From<AllocFailed<T>> for TextFault {
    ghost from_gives = { λ _ f. f ≡ record { kind = OutOfMemory; offset = 0 } };

    fn from(_refused: AllocFailed<T>) -> TextFault {
        TextFault::from(AllocError)
    }
}

impl From<AllocError> for TextFault {
    ghost from_gives = { λ _ f. f ≡ record { kind = OutOfMemory; offset = 0 } };

    fn from(_refused: AllocError) -> TextFault {
        TextFault {
            kind: FaultKind::OutOfMemory,
            offset: 0,
        }
    }
}

// Where reading stops: its fault, and what was expected there.
#[derive(Clone, Copy)]
pub(crate) struct Stop {
    pub(crate) kind: FaultKind,
    pub(crate) expected: Expected,
    pub(crate) offset: usize,
}

impl Stop {
    pub(crate) fn at(kind: FaultKind, expected: Expected, offset: usize) -> Stop
        ensures { result ≡ record { kind = kind; expected = expected; offset = offset } }
    {
        Stop {
            kind,
            expected,
            offset,
        }
    }
}

impl<T: Drop> From<AllocFailed<T>> for Stop {
    ghost from_gives = { λ _ f. f ≡ record { kind = OutOfMemory; expected = End; offset = 0 } };

    fn from(_refused: AllocFailed<T>) -> Stop {
        Stop::from(AllocError)
    }
}

impl From<AllocError> for Stop {
    ghost from_gives = { λ _ f. f ≡ record { kind = OutOfMemory; expected = End; offset = 0 } };

    fn from(_refused: AllocError) -> Stop {
        Stop {
            kind: FaultKind::OutOfMemory,
            expected: Expected::End,
            offset: 0,
        }
    }
}
