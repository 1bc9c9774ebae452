//! The range lock by example: a range that another seat's range refuses, a guard of one's own over a client word,
//! threads that share a table, and a bound on counted steps. `docs/guide/rust.md` walks through this code. What it
//! prints is the same whatever the threads' schedule is.
#![tactic(auto)]

mod high_water;
mod marks;
mod threads;
mod tries;

use anyhow::bail;
use lock_core::Range;
use marks::{mark, open_mark};
use std::alloc::Global;
use std::sync::Wait;
use std::thread::Threads;
use threads::mark_all;
use tries::{hold_once, meet, open_two};

fn main(rt: HostRuntime) -> anyhow::Result<()> {
    let alloc = rt.alloc();
    refused(&rt, alloc)?;
    marked(&rt, alloc)
}

/// Two seats of one thread ask for ranges that overlap, and one of them then for another.
fn refused<R: Print>(rt: &R, alloc: Global) -> anyhow::Result<()> {
    let (table, mut writer, mut reader) = open_two(alloc)?;
    let met = meet(&table, &mut writer, &mut reader);
    let Ok(range) = Range::of(3, 4) else {
        unreachable!()
    };
    let held = hold_once(&table, &mut reader, range);
    drop(reader);
    drop(writer);
    drop(table);
    match met {
        Ok(()) => println!(rt; "both held their ranges")?,
        Err(why) => println!(rt; "refused: {why}")?,
    }
    match held {
        Ok(()) => println!(rt; "held 3 to 4")?,
        Err(why) => println!(rt; "refused: {why}")?,
    }
    Ok(())
}

/// Four threads raise one mark, and the table is closed for it.
fn marked<R: Print + Threads + Wait + Sync>(rt: &R, alloc: Global) -> anyhow::Result<()> {
    let (table, mut seats) = open_mark(alloc, 4)?;
    mark_all(rt, &table, seats.as_mut_slice());
    let Ok(words) = table.close(alloc, seats) else {
        bail!("out of memory");
    };
    println!(rt; "the mark is {}", words[0])?;
    Ok(())
}
