//! Opens and closes a table, a space that keeps its history and one that doesn't, feeds halves of calls, and makes each
//! call once more where it answers that there is no memory. With ample memory no call is refused, and standard output
//! says only what the calls left. Where one growth is refused, as the library `refuse_growth.c` does, the output has
//! one line more, which names the call that had no memory; that the other lines stay shows that a refused call has left
//! all as it was.
#![tactic(auto)]

mod halves;
mod spaces;
mod tables;

use anyhow::Result;

fn main(rt: HostRuntime) -> Result<()> {
    tables::try_table(&rt, rt.alloc())?;
    spaces::try_space(&rt, rt.alloc())?;
    spaces::try_unkept(&rt, rt.alloc())?;
    halves::try_halves(&rt, rt.alloc())
}
