//! How a run ends. The program's exit status and what it says on standard error follow from it alone. The statuses and
//! their numbers are this project's own profile, like those of `range_cli` where both have one.

ghost use Rattle.std.specs.Prelude.{◌≡◌};

use raw_logs::Counts;
use raw_trace::{Cause, Tally};

/// How a run ends.
#[derive(Clone, Copy, Debug, PartialEq, Eq)]
pub enum Status {
    /// The lines were written: how many were changed or left out, and whether the log ends within a line.
    Done {
        /// How many of the lines are calls, and what their heaps show.
        calls: Tally,
        /// How many lines of each sort.
        counts: Counts,
        /// The log ends within a line, which is left out.
        ends_cut: bool,
    },
    /// The help was written.
    Helped,
    /// The words of the command line are not accepted.
    Usage,
    /// Every line is to be read, and one can't be: its number and column, counted from 1, and why. Nothing was written.
    Unreadable {
        /// The number.
        line: u32,
        /// The column.
        column: u32,
        /// Why.
        cause: Cause,
    },
    /// The process that is asked for has no line. Nothing was written.
    NoProcess,
    /// The input failed. Nothing was written.
    ReadFault,
    /// The output failed; it has a first part of the lines or of the help.
    WriteFault,
    /// There was no memory. Nothing was written.
    Memory,
    /// The input has more than 67,108,864 bytes. Nothing was written.
    LongInput,
    /// A line is longer than 65,535 bytes, or would be as it is written: its number, counted from 1. Nothing was
    /// written.
    LongLine {
        /// The number.
        line: u32,
    },
}

impl Status {
    ghost use Rattle.strace_lines.specs.Texts.{exit_code};

    /// The exit status of the program.
    pub fn code(&self) -> u8
        ensures { result ≡ exit_code self.now }
    {
        match self {
            Status::Done { .. } | Status::Helped => 0,
            Status::Usage => 2,
            Status::Unreadable { .. } | Status::NoProcess => 3,
            Status::ReadFault => 4,
            Status::WriteFault => 5,
            Status::Memory => 6,
            Status::LongInput | Status::LongLine { .. } => 7,
        }
    }
}
