//! Why a log isn't rewritten: a line that can't be read, where all are to be read; a line that is too long; no memory.
//! `IsFault` in `specs/Faults.antt` has the cause of each.

ghost use Rattle.std.specs.Prelude.{◌≡◌};
ghost use Rattle.raw_trace.specs.declared.fault.Fault.TheVariants.{Memory};
ghost use Rattle.raw_trace.specs.Faults.{of_log};

use raw_logs::LogFault;
use std::alloc::AllocError;
use strace_reader::What;
use thiserror::Error;

/// Why a line can't be read.
#[derive(Clone, Copy, PartialEq, Eq, Debug, Drop, Error)]
pub enum Cause {
    /// The reader refuses it, and it can't be mended: what was due.
    #[error("{0}")]
    Form(What),
    /// A second half whose first half isn't there.
    #[error("second half without its first")]
    Alone,
    /// As it would be written it would be read otherwise.
    #[error("unclear line")]
    Unclear,
    /// A call that changes an address space, in a form that the profile hasn't.
    #[error("form that isn't played")]
    OtherForm,
    /// The beginning of the line isn't known.
    #[error("unknown beginning")]
    Unknown,
}

/// Why a line can't be read or isn't played, and where.
#[derive(Clone, Copy, PartialEq, Eq, Debug)]
pub struct Trouble {
    /// The column, counted from 1.
    pub column: u32,
    /// Why.
    pub cause: Cause,
}

/// Why a log isn't rewritten.
#[derive(Clone, Copy, PartialEq, Eq, Debug, Drop, Error)]
pub enum Fault {
    /// A line can't be read, and every line is to be read.
    #[error("line {line} column {column}: {cause}")]
    Unreadable {
        /// Its number, counted from 1; of two halves, that of the first.
        line: u32,
        /// The column in the plain text or in what the halves make, counted from 1.
        column: u32,
        /// Why.
        cause: Cause,
    },
    /// A line is longer than 65,535 bytes, as it is read or as it would be written.
    #[error("line {line}: too long")]
    LongLine {
        /// Its number, counted from 1; of two halves, that of the first.
        line: u32,
    },
    /// The process that is asked for has no line.
    #[error("no such process")]
    NoProcess,
    /// There was no memory.
    #[error("out of memory")]
    Memory,
}

impl From<AllocError> for Fault {
    ghost from_gives = { λ _ fault. fault ≡ Memory };

    fn from(_: AllocError) -> Fault {
        Fault::Memory
    }
}

impl From<LogFault> for Fault {
    ghost from_gives = { λ why fault. fault ≡ of_log why };

    fn from(why: LogFault) -> Fault {
        match why {
            LogFault::LongLine { line } => Fault::LongLine { line },
            LogFault::NoProcess => Fault::NoProcess,
            LogFault::Memory => Fault::Memory,
        }
    }
}
