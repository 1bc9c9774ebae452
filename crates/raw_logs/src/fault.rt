//! Why a log isn't read: a line of a call is too long, the process that is asked for has no line, or there was no
//! memory. `IsLogFault` in `specs/Reading.antt` has the cause of each.

ghost use Rattle.std.specs.Prelude.{◌≡◌};
ghost use Rattle.raw_logs.specs.declared.fault.LogFault.TheVariants.{Memory};

use std::alloc::AllocError;
use thiserror::Error;

/// Why a log isn't read.
#[derive(Clone, Copy, PartialEq, Eq, Debug, Drop, Error)]
pub enum LogFault {
    /// A line of a call of the profile is longer than 65,535 bytes, as a plain text with its number.
    #[error("line {line} too long")]
    LongLine {
        /// Its number, counted from 1.
        line: u32,
    },
    /// The process that is asked for has no line.
    #[error("no such process")]
    NoProcess,
    /// There was no memory.
    #[error("out of memory")]
    Memory,
}

impl From<AllocError> for LogFault {
    ghost from_gives = { λ _ fault. fault ≡ Memory };

    fn from(_: AllocError) -> LogFault {
        LogFault::Memory
    }
}
