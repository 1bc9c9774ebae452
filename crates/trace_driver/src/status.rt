//! How a run ends, and how the reading of an input ends before anything is played. The program's exit status and its
//! line on standard error follow from the run's status alone. An early end becomes a status in one place, here, so the
//! code that reads can't say that a run is done. The statuses and their numbers are this project's own profile.
ghost use Rattle.std.specs.Prelude.{◌≡◌};

use area_rows::Closed;
use strace_reader::What;

/// Which limit an input passes.
#[derive(Clone, Copy, Debug, PartialEq, Eq)]
pub enum Which {
    /// The bytes of the input.
    Input,
    /// The bytes of one line, without its newline.
    Line,
    /// The lines that are played, or those of a log that is checked.
    Lines,
    /// The rows of the opening maps.
    Rows,
}

/// Why the reading of an input ends before anything is played.
#[derive(Clone, Copy, Debug, PartialEq, Eq)]
pub enum EarlyEnd {
    /// A line is refused: its number, counted from 1, its column in bytes, counted from 1, and what was due there.
    Refused { line: u32, column: u32, what: What },
    /// The input failed.
    Failed,
    /// There was no memory.
    NoMemory,
    /// A limit is passed; the value is the first number above it, or the count of rows.
    Above { which: Which, value: u64 },
}

impl EarlyEnd {
    ghost use Rattle.trace_driver.specs.Status.{status_of};

    /// The status of a run that ends so.
    pub fn status(self) -> Status
        ensures { result ≡ status_of self }
    {
        match self {
            EarlyEnd::Refused { line, column, what } => Status::BadLine { line, column, what },
            EarlyEnd::Failed => Status::ReadFault,
            EarlyEnd::NoMemory => Status::Memory,
            EarlyEnd::Above { which, value } => Status::Limit { which, value },
        }
    }
}

/// How a run ends. Where it played and wrote something it carries what the closing of its space gave: nothing else
/// makes one, so the report is that of a space on which the run played. A run that checked a log carries none.
#[derive(Drop)]
pub enum Status {
    /// The whole report was written, or that a log is legal.
    Done(Option<Closed>),
    /// The words of the command line are not accepted.
    Usage,
    /// A line is refused: its number, counted from 1, its column in bytes, counted from 1, and what was due there.
    BadLine { line: u32, column: u32, what: What },
    /// The input failed, and nothing was played.
    ReadFault,
    /// The output failed; it has a first part of the report or of the verdict.
    WriteFault(Option<Closed>),
    /// There was no memory.
    Memory,
    /// A limit is passed; the value is the first number above it, or the count of rows.
    Limit { which: Which, value: u64 },
    /// The input is no log of a legal history, and its verdict was written: the number of its first wrong line, counted
    /// from 1.
    Wrong { line: u32 },
}

impl Status {
    ghost use Rattle.trace_driver.specs.Status.{exit_code};

    /// The exit status of the program.
    pub fn code(&self) -> u8
        ensures { result ≡ exit_code self.now }
    {
        match self {
            Status::Done(_) => 0,
            Status::Usage => 2,
            Status::BadLine { .. } => 3,
            Status::ReadFault => 4,
            Status::WriteFault(_) => 5,
            Status::Memory => 6,
            Status::Limit { .. } => 7,
            Status::Wrong { .. } => 8,
        }
    }
}
