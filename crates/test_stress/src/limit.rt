//! How long rounds are played: a limit on the time since a start, which is looked at after each round.
use std::io;
use std::time::{Clock, Instant};

/// A time that began, and how long it may last.
#[derive(Clone, Copy, Debug)]
pub struct Limit {
    start: Instant,
    millis: u64,
}

impl Limit {
    /// So many milliseconds from now on.
    pub fn from_now<R: Clock>(rt: &R, millis: u64) -> io::Result<Limit> {
        Ok(Limit {
            start: Instant::now(rt)?,
            millis,
        })
    }

    /// Whether they are over.
    pub fn is_past<R: Clock>(&self, rt: &R) -> io::Result<bool> {
        Ok(self.start.elapsed(rt)?.as_millis() >= u128::from(self.millis))
    }
}
