//! A table of the range lock with two client words: opened, and closed with these words left. Each call is made once
//! more where it had no memory.
ghost use Rattle.std.specs.Prelude.{◌≡◌, IfOk, length};
ghost use Rattle.range_rw.specs.Contract.{AreIdleSeats};

use anyhow::{Result, bail};
use lock_core::FreeGuard;
use range_rw::{CloseRefused, OpenFault, RangeTable, Seat};
use std::alloc::Global;
use std::io::Print;

/// The client words.
const WORDS: [u64; 2] = [7, 8];

/// A table, and its seats in order of their numbers.
type Opened = (RangeTable<FreeGuard>, Vec<Seat<FreeGuard>>);

/// A table of four seats.
fn open_four(alloc: Global) -> std::result::Result<Opened, OpenFault>
    ensures count { IfOk result (λ r. length r.1.items ≡ r.0.seats) }
    ensures idle { IfOk result (λ r. AreIdleSeats r.0.table r.1.items) }
{
    RangeTable::open(alloc, 4, &WORDS)
}

/// Opens a table.
fn open<R: Print>(rt: &R, alloc: Global) -> Result<Opened>
    ensures count { IfOk result (λ r. length r.1.items ≡ r.0.seats) }
    ensures idle { IfOk result (λ r. AreIdleSeats r.0.table r.1.items) }
{
    match open_four(alloc) {
        Ok(opened) => return Ok(opened),
        Err(OpenFault::Memory) => println!(rt; "RangeTable::open had no memory")?,
        Err(OpenFault::Seats(_)) => bail!("no table of four seats"),
    }
    match open_four(alloc) {
        Ok(opened) => Ok(opened),
        Err(_) => bail!("no table"),
    }
}

/// Closes a table, and gives its client words.
fn close<R: Print>(
    rt: &R,
    alloc: Global,
    table: RangeTable<FreeGuard>,
    seats: Vec<Seat<FreeGuard>>,
) -> Result<Vec<u64>>
    requires count { length seats.items ≡ table.seats }
    requires idle { AreIdleSeats table.table seats.items }
    ensures words { IfOk result (λ words. length words.items ≡ table.client) }
{
    match table.close(alloc, seats) {
        Ok(words) => Ok(words),
        Err(CloseRefused { table, seats }) => {
            println!(rt; "RangeTable::close had no memory")?;
            match table.close(alloc, seats) {
                Ok(words) => Ok(words),
                Err(_) => bail!("the table isn't closed"),
            }
        }
    }
}

/// Opens a table and closes it.
pub fn try_table<R: Print>(rt: &R, alloc: Global) -> Result<()> {
    let (table, seats) = open(rt, alloc)?;
    let words = close(rt, alloc, table, seats)?;
    println!(rt; "client words: {:?}", words.as_slice())?;
    Ok(())
}
