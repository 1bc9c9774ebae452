//! Threads at the range lock and at an address space, for as many seconds as the first word says, and two without one;
//! the second word is a seed. With a third word each of 16 callers makes so many calls more on a space that keeps no
//! history, which takes the same memory however many they are. What is played is proved below, over every interleaving:
//! this program looks at the build, the compiler and the processor. It ends with an error where an owner of a slot was
//! found that exclusion doesn't allow, or a history isn't legal. What it counted goes to standard error, since it
//! differs from run to run.
#![tactic(auto)]

mod callers;
mod calls;
mod counts;
mod cuts;
mod draws;
mod limit;
mod rounds;
mod seats;
mod visits;

use anyhow::{Result, ensure};
use counts::Tries;
use limit::Limit;
use list_cuts::Cut;
use rounds::{play_unkept, stress_space};
use seats::stress_lock;
use std::alloc::Global;
use std::env;
use std::io::Eprint;
use std::sync::{Mutex, Wait};
use std::thread::Threads;
use std::time::Clock;

/// How many seconds the program plays in the gate, and how many calls each caller makes there in a round.
const GATE: (u64, u32) = (2, 500);

/// How many calls each caller makes in a round otherwise.
const CALLS: u32 = 5_000;

fn main(rt: HostRuntime) -> Result<()> {
    let (seconds, calls) = match env::args(&rt)?.nth(1) {
        Some(word) => (word.as_str().parse::<u64>()?, CALLS),
        None => GATE,
    };
    let seed = match env::args(&rt)?.nth(2) {
        Some(word) => word.as_str().parse::<u64>()?,
        None => 1,
    };
    // Each half has half of the time.
    let millis = seconds.saturating_mul(500);
    try_lock(&rt, rt.alloc(), seed, millis)?;
    try_space(&rt, rt.alloc(), seed, calls, millis)?;
    if let Some(word) = env::args(&rt)?.nth(3) {
        try_calls(&rt, rt.alloc(), seed, word.as_str().parse::<u32>()?)?;
    }
    println!(rt; "no wrong owner of a slot, and each history is legal")?;
    Ok(())
}

/// One round more of so many calls of each caller, on a space that keeps no history.
fn try_calls<R: Threads + Wait + Sync + Eprint>(
    rt: &R,
    alloc: Global,
    seed: u64,
    calls: u32,
) -> Result<()> {
    let total = Mutex::new(Tries::none());
    play_unkept(rt, alloc, Cut::one(), seed, calls, &total)?;
    let tries = *total.lock(rt);
    eprintln!(rt; "without a history: {calls} calls of each caller")?;
    print_tries(rt, tries)
}

/// Rounds at the range lock, and their totals.
fn try_lock<R: Threads + Wait + Sync + Clock + Eprint>(
    rt: &R,
    alloc: Global,
    seed: u64,
    millis: u64,
) -> Result<()> {
    let limit = Limit::from_now(rt, millis)?;
    let lock = stress_lock(rt, alloc, seed, limit)?;
    let wrong = lock.visits.wrong;
    eprintln!(rt;
        "range lock, seed {seed}: rounds {}, wrong owners of a slot {wrong}",
        lock.rounds
    )?;
    print_tries(rt, lock.visits.tries)?;
    ensure!(wrong == 0, "{wrong} wrong owners of a slot");
    Ok(())
}

/// Rounds on an address space, and their totals.
fn try_space<R: Threads + Wait + Sync + Clock + Eprint>(
    rt: &R,
    alloc: Global,
    seed: u64,
    calls: u32,
    millis: u64,
) -> Result<()> {
    let limit = Limit::from_now(rt, millis)?;
    let space = stress_space(rt, alloc, seed, calls, limit)?;
    let entries = space.entries;
    eprintln!(rt;
        "address space, seed {seed}: rounds {}, entries {}, of them refused {}; under nothing {}, a page {}, an area {}, everything {}",
        space.rounds,
        entries.all,
        entries.refused,
        entries.nothing,
        entries.reader,
        entries.area,
        entries.whole
    )?;
    print_tries(rt, space.tries)
}

/// How tries were answered.
fn print_tries<R: Eprint>(rt: &R, tries: Tries) -> Result<()> {
    eprintln!(rt;
        "tries: held {}, busy {}, lost an exchange {}, too long {}, without a node {}",
        tries.held, tries.busy, tries.again, tries.long, tries.no_node
    )?;
    Ok(())
}
