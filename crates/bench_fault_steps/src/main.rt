//! Makes page faults over a large table by one caller that meets no other, so that the gate can count their steps: as
//! many faults as the first word says, over as many rows as the second says; eighteen, and as many rows as a space may
//! have, where there is no such word. Two runs over the same rows differ by the steps of the faults that one makes
//! more. The rows are pages that may be read and gaps between them, in turn; each fault reads another page than the one
//! before. It prints how many faults there were, over how many rows, and how many of the faults were granted.
#![tactic(auto)]

mod faults;
mod start;

use anyhow::Result;
use faults::made_and_granted;
use page_types::ROWS;
use start::every_other_page;
use std::env;

/// How many faults are made in the gate's own run.
const FAULTS: u32 = 18;

fn main(rt: HostRuntime) -> Result<()> {
    let faults = match env::args(&rt)?.nth(1) {
        Some(word) => word.as_str().parse::<u32>()?,
        None => FAULTS,
    };
    let rows = match env::args(&rt)?.nth(2) {
        Some(word) => word.as_str().parse::<u32>()?,
        None => ROWS as u32,
    };
    let start = every_other_page(rt.alloc(), rows)?;
    let (made, granted) = made_and_granted(&rt, rt.alloc(), &start, faults)?;
    println!(rt; "faults {made} over {rows} rows, granted {granted}")?;
    Ok(())
}
