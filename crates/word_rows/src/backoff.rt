//! Waiting between two looks at a word that another thread has to change. Each look takes the word's cache line from
//! the thread that is about to write it, so a caller that looks again at once slows down the one that it waits for.
//! All that waits for a range waits by these numbers, `acquire`, its readers and the calls from C; `docs/LOCK.md` says
//! where and for how long. They were measured, by what threads at one range get done together. The name is that of
//! crossbeam's `Backoff`, which waits far less.
ghost use Rattle.std.specs.Prelude.{◌≡◌, ◌*◌, ◌≤◌, ◌==◌, ℕ, min, max};
ghost use Rattle.word_rows.specs.declared.backoff.TheConstants.{SHORTEST_WAIT, LONGEST_WAIT};

use std::marker::Model;
use std::{hint, thread};

/// How many turns of `std::hint::spin_loop` the first wait takes.
pub const SHORTEST_WAIT: u32 = 1024;

/// How many turns a wait takes at most. One that takes as many also yields the processor.
pub const LONGEST_WAIT: u32 = 8192;

/// How many waits there are from the shortest to the longest: of 1024, 2048, 4096 and 8192 turns. Who keeps others from
/// going on while it waits looks again as many times at most.
pub const MOST_LOOKS: u32 = 4;

/// How many rounds of a caller whose range takes several lists are refused before it has a round in which it keeps its
/// place while it waits. These rounds' waits take at least twice as long as that one's.
pub const REFUSED_ROUNDS: u32 = 16;

/// How many times such a caller looks again in that round, with a wait before each.
pub const KEPT_LOOKS: u32 = 8;

/// How long a caller waits before it looks again: twice as long each time, up to `LONGEST_WAIT`. Contracts see it as
/// the number of turns of its next wait.
#[derive(Debug, Drop)]
pub struct Backoff {
    turns: u32,
}

impl Model for Backoff {
    ghost Value = { ℕ };

    ghost view = { λ b. b.turns };

    ghost invariant = { λ b. b.turns ≤ LONGEST_WAIT };

    ghost inverse = { λ n. record { turns = n } };
}

impl Backoff {
    /// A caller that has not waited yet.
    pub fn new() -> Backoff
        ensures { result ≡ SHORTEST_WAIT }
    {
        Backoff {
            turns: SHORTEST_WAIT,
        }
    }

    /// A caller that waits so many turns next, or as near to it as the shortest and the longest wait allow.
    pub fn of(turns: u32) -> Backoff
        ensures { result ≡ min (max turns SHORTEST_WAIT) LONGEST_WAIT }
    {
        Backoff {
            turns: turns.max(SHORTEST_WAIT).min(LONGEST_WAIT),
        }
    }

    /// How many turns the next wait takes.
    pub fn turns(&self) -> u32
        ensures { result ≡ self.now }
    {
        self.turns
    }

    /// Waits without yielding the processor, and takes twice as long the next time, up to the longest. Says whether
    /// this wait was one of the longest. It comes back by itself: it waits for no other thread.
    pub fn pause(&mut self) -> bool
        ensures longer { self.new ≡ min (2 * self.old) LONGEST_WAIT }
        ensures longest { result ≡ (self.old == LONGEST_WAIT) }
    {
        let longest = self.turns == LONGEST_WAIT;
        for _ in 0..self.turns {
            hint::spin_loop();
        }
        self.turns = (2 * self.turns).min(LONGEST_WAIT);
        longest
    }

    /// The same, and yields the processor where the wait was one of the longest.
    pub fn wait(&mut self)
        ensures longer { self.new ≡ min (2 * self.old) LONGEST_WAIT }
    {
        if self.pause() {
            thread::yield_now();
        }
    }
}
