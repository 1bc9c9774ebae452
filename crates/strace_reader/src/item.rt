//! What a line of a trace says: a call with what the trace recorded of it, or nothing that is played. The error names
//! are those that mmap(2) and the calls like it give, and the SIGSEGV codes of sigaction(2) for a page fault. A refusal
//! says where the line stops being one that is read, and why.

use line_parts::What;
use page_types::Call;
use thiserror::Error;

/// The seven calls by the name that a line begins with.
#[derive(Clone, Copy, PartialEq, Eq, Debug, Drop)]
pub enum Name {
    /// `mmap`
    Mmap,
    /// `munmap`
    Munmap,
    /// `mprotect`
    Mprotect,
    /// `fault`, this project's own word for an access of a thread to a page.
    Fault,
    /// `mseal`
    Mseal,
    /// `brk`
    Brk,
    /// `mremap`
    Mremap,
}

/// The error that a trace recorded, by its name in errno(3) or sigaction(2).
#[derive(Clone, Copy, PartialEq, Eq, Debug, Drop)]
pub enum Errno {
    /// `EINVAL`
    Einval,
    /// `ENOMEM`
    Enomem,
    /// `EEXIST`
    Eexist,
    /// `EPERM`
    Eperm,
    /// `EFAULT`
    Efault,
    /// `SEGV_MAPERR`
    MapErr,
    /// `SEGV_ACCERR`
    AccErr,
    /// Every other name.
    Other,
}

/// What a trace recorded as a call's result.
#[derive(Clone, Copy, PartialEq, Eq, Debug, Drop)]
pub enum Recorded {
    /// A number, for a Map an address in bytes.
    Value(u64),
    /// -1 and an error's name.
    Failed(Errno),
}

/// What a line is.
#[derive(Clone, Copy, PartialEq, Eq, Debug, Drop)]
pub enum Item {
    /// A call to be played.
    Played {
        /// The process that made the call; 0 where the line names none.
        pid: u32,
        /// The call.
        call: Call,
        /// What was recorded; None where the line has no result, or `?`.
        recorded: Option<Recorded>,
    },
    /// The first half of a call that another process interrupted. Its bytes from `from` up to and without `to` are
    /// kept.
    Unfinished {
        /// The process that made the call; 0 where the line names none.
        pid: u32,
        /// The call's name.
        name: Name,
        /// The first byte of the name, counted from 0.
        from: u32,
        /// The byte behind the last one that is kept: the spaces before the ending are not.
        to: u32,
    },
    /// The second half of a call. Its bytes from `from` on are kept.
    Resumed {
        /// The process that made the call; 0 where the line names none.
        pid: u32,
        /// The call's name.
        name: Name,
        /// The first byte behind the name and its spaces, counted from 0.
        from: u32,
    },
    /// A line that is skipped.
    Other,
    /// An empty line.
    Blank,
}

/// What a line is behind its prefix, which alone names a process.
#[derive(Clone, Copy, PartialEq, Eq, Debug, Drop)]
pub(crate) enum Body {
    /// A call.
    Called {
        /// The call.
        call: Call,
        /// What was recorded; None where the line has no result, or `?`.
        recorded: Option<Recorded>,
    },
    /// The first half of a call.
    FirstHalf {
        /// The call's name.
        name: Name,
        /// How many bytes are kept, from the first on.
        len: usize,
    },
    /// The second half of a call.
    SecondHalf {
        /// The call's name.
        name: Name,
        /// How many bytes are kept, up to the last.
        left: usize,
    },
    /// Nothing that is played.
    Other,
}

/// Where a line is refused, and why.
#[derive(Clone, Copy, PartialEq, Eq, Debug, Drop, Error)]
#[error("column {column}: {what}")]
pub struct BadCall {
    /// The byte that cannot go on, counted from 1; behind the last byte where the line ends too early.
    pub column: u32,
    /// What was due there.
    pub what: What,
}
