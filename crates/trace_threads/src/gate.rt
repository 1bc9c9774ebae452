//! What stands between the lines and their calls. A gate decides nothing: a program plays behind an open one, and a
//! trial may hold a worker back by one that waits. Nothing is proved of when a gate is called, since its calls leave
//! nothing that a clause could see.

/// What workers pass before and behind each line. It may be shared by threads.
pub trait Gate: Sync {
    /// A worker, counted from 0, is about to play the line of that number, counted from 1.
    fn before(&self, worker: u32, line: u32);

    /// The worker's line has its answer.
    fn after(&self, worker: u32, line: u32);
}

/// A gate that does nothing.
#[derive(Clone, Copy, Debug, PartialEq, Eq)]
pub struct OpenGate;

impl Gate for OpenGate {
    fn before(&self, _worker: u32, _line: u32) {}

    fn after(&self, _worker: u32, _line: u32) {}
}
