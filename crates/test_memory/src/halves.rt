//! The halves of two calls, fed to a joiner: each text is fed again where there was no memory, which leaves the joiner
//! as it was.
ghost use Rattle.std.specs.Prelude.{◌≤◌, ℕ, List, IfOk, length};
ghost use Rattle.strace_reader.specs.Joiner.{IsFed};
ghost use Rattle.strace_reader.specs.Joining.{IsAnswer};

use anyhow::{Result, bail};
use std::alloc::Global;
use std::io::Print;
use strace_reader::{Fed, FeedFault, Joiner};

/// The halves, and a first half that is left.
const TEXTS: [&str; 5] = [
    "7 munmap(0x10000, <unfinished ...>",
    "8 mprotect(0x20000, 4096 <unfinished ...>",
    "8 <... mprotect resumed>, PROT_READ) = 0",
    "7 <... munmap resumed>4096) = 0",
    "9 munmap(0x10000 <unfinished ...>",
];

/// Feeds a text, and once more where there was no memory. The answer is the one that the texts fed so far say.
fn feed<R: Print>(rt: &R, joiner: &mut Joiner, text: &[u8]) -> Result<Fed>
    requires { length text.now ≤ 65535 }
    ensures answer { IfOk result (λ answer. (fed : List (List ℕ)) → IsFed joiner.old fed → IsAnswer fed text.now answer) }
{
    match joiner.feed(text) {
        Ok(fed) => return Ok(fed),
        Err(FeedFault::Memory) => println!(rt; "Joiner::feed had no memory")?,
        Err(FeedFault::Bad(_)) => bail!("a text is refused"),
    }
    match joiner.feed(text) {
        Ok(fed) => Ok(fed),
        Err(_) => bail!("a text isn't taken"),
    }
}

/// Feeds all halves.
pub fn try_halves<R: Print>(rt: &R, alloc: Global) -> Result<()> {
    let mut joiner = Joiner::new(alloc);
    let mut played = 0u32;
    for text in TEXTS {
        let bytes = text.as_bytes();
        if bytes.len() > 65_535 {
            bail!("a text is too long");
        }
        if matches!(feed(rt, &mut joiner, bytes)?, Fed::Played { .. }) {
            played = played.saturating_add(1);
        }
    }
    println!(rt; "played {played}, left {}", joiner.end())?;
    Ok(())
}
