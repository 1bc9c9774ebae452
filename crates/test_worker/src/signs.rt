//! A gate with two signs. Each is raised at one moment of one line, and at other moments the gate waits for a sign, but
//! no more than so many turns. It counts which waits were given up, so a test can tell that two workers ran beside each
//! other.
use std::sync::atomic::{AtomicU64, Ordering};
use trace_threads::Gate;
use word_rows::Backoff;

/// How many turns a wait takes at most. A turn is one look and one wait of `Backoff`.
pub const MOST_TURNS: u32 = 200_000;

/// A moment of a worker's line.
#[derive(Clone, Copy, Debug, PartialEq, Eq)]
pub enum Moment {
    /// The line is about to be played by the worker.
    Before(u32, u32),
    /// It has its answer.
    After(u32, u32),
}

/// At this moment the gate waits for the sign of that number, 0 or 1.
#[derive(Clone, Copy, Debug, PartialEq, Eq)]
pub struct Hold {
    pub at: Moment,
    pub until: usize,
}

/// The gate.
#[derive(Drop)]
pub struct SignGate {
    /// When each sign is raised.
    raised_at: [Moment; 2],
    holds: [Hold; 2],
    /// For each sign 1 where it is raised.
    first: AtomicU64,
    second: AtomicU64,
    late: AtomicU64,
}

impl SignGate {
    /// A gate whose signs are raised at these moments, and which holds workers back so.
    pub fn new(raised_at: [Moment; 2], holds: [Hold; 2]) -> SignGate {
        SignGate {
            raised_at,
            holds,
            first: AtomicU64::new(0),
            second: AtomicU64::new(0),
            late: AtomicU64::new(0),
        }
    }

    /// The word of a sign.
    fn sign(&self, number: usize) -> &AtomicU64 {
        if number == 0 {
            &self.first
        } else {
            &self.second
        }
    }

    /// Waits until a sign is raised, or gives up after `MOST_TURNS` looks.
    pub fn wait_for(&self, number: usize) {
        let mut backoff = Backoff::new();
        for _ in 0..MOST_TURNS {
            if self.sign(number).load(Ordering::SeqCst) == 1 {
                return;
            }
            backoff.wait();
        }
        self.late.fetch_add(1, Ordering::SeqCst);
    }

    /// How many waits were given up.
    pub fn late(&self) -> u64 {
        self.late.load(Ordering::SeqCst)
    }

    /// Raises the signs of a moment, and then waits where it holds a worker back there.
    fn pass(&self, moment: Moment) {
        if moment == self.raised_at[0] {
            self.first.store(1, Ordering::SeqCst);
        }
        if moment == self.raised_at[1] {
            self.second.store(1, Ordering::SeqCst);
        }
        for hold in self.holds {
            if moment == hold.at {
                self.wait_for(hold.until);
            }
        }
    }
}

impl Gate for SignGate {
    fn before(&self, worker: u32, line: u32) {
        self.pass(Moment::Before(worker, line));
    }

    fn after(&self, worker: u32, line: u32) {
        self.pass(Moment::After(worker, line));
    }
}
