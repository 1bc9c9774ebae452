//! The lines of a load: calls that a generator makes from a seed, so many for so many workers. The generator is the
//! linear congruential one of the C standard's example of `rand`, with its numbers; what a call is made of is this
//! project's own profile. `line_at` says line by line what is made, and a reader may rely on `made_lines` giving
//! exactly these lines.
#![tactic(auto)]

ghost use Rattle.std.specs.Prelude.{◌≡◌, ◌<◌, ◌≤◌, All, IfOk};
ghost use Rattle.load_lines.specs.Calls.{drawn_lines, IsNamedLine};

mod calls;
mod draws;

use crate::calls::next_line;
pub use calls::MadeLine;
pub use draws::draw;
use std::alloc::{AllocError, Global};

/// The greatest seed.
pub const SEED_LIMIT: u32 = 2_147_483_647;

/// The most threads that a load may have.
pub const THREADS_LIMIT: u32 = 16;

/// The most calls that a load may have.
pub const CALLS_LIMIT: u32 = 1_048_576;

/// The lines of the load with this seed, for so many threads: so many calls, in their order. It takes room for them at
/// once, and no memory besides.
pub fn made_lines(
    alloc: Global,
    seed: u32,
    threads: u32,
    calls: u32,
) -> Result<Vec<MadeLine>, AllocError>
    requires seed { seed ≤ SEED_LIMIT }
    requires some_threads { 0 < threads }
    requires few_threads { threads ≤ THREADS_LIMIT }
    requires calls { calls ≤ CALLS_LIMIT }
    ensures lines { IfOk result (λ lines. lines.items ≡ drawn_lines seed threads calls) }
    ensures named { IfOk result (λ lines. All IsNamedLine lines.items) }
{
    let mut lines = Vec::with_capacity(alloc, calls as usize)?;
    let mut state = seed as u64;
    for made in 0..calls {
        lines.push(next_line(&mut state, threads, made))?;
    }
    Ok(lines)
}
