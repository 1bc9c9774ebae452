//! What a check of a log says: how many entries it has, or its first wrong line and why. `IsVerdict` in `specs/` says
//! which verdict a log has; each has one. The causes are this project's own profile.

/// Why a line of a printed log is wrong. Of one line the first of these that applies is the cause.
#[derive(Clone, Copy, PartialEq, Eq, Hash, Debug)]
pub enum WrongLog {
    /// The line begins as one of the log, but is the line of no entry.
    Form,
    /// The entry's number isn't that of its place, counted from 0.
    Number,
    /// The entry's line number isn't above the last one of its worker.
    Order,
    /// What the entry says was held isn't what its call has to hold.
    Held,
    /// The entry's reply isn't the one that the address space gives.
    Reply,
    /// What follows the log isn't the maps of its last state, a line that begins `played ` and at most one more, which
    /// begins `touched `.
    Rest,
}

/// What a check says of a printed log.
#[derive(Clone, Copy, PartialEq, Eq, Hash, Debug)]
pub enum Verdict {
    /// The log is good.
    Legal {
        /// How many entries it has.
        entries: u32,
    },
    /// The log isn't good.
    Wrong {
        /// The first wrong line, counted from 1. Where the text ends too early it is the line behind the last one.
        line: u32,
        /// Why it is wrong.
        why: WrongLog,
    },
}
