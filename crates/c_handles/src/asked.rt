//! What the numbers mean that C gives: a flag that is a mode, and how long a wait between two tries is to be. A reader
//! may rely on both being functions of what C gave (`specs/Asked.antt`).
ghost use Rattle.std.specs.Prelude.{◌≡◌, ◌*◌, ◌==◌, min};
ghost use Rattle.word_rows.specs.declared.backoff.TheConstants.{LONGEST_WAIT};
ghost use Rattle.c_handles.specs.Asked.{mode_for, wait_of};

use lock_core::Mode;
use word_rows::Backoff;

/// The mode that C's flag means: true is a writer's.
pub fn mode_of(writer: bool) -> Mode
    ensures { result ≡ mode_for writer }
{
    if writer { Mode::Writer } else { Mode::Reader }
}

/// Waits as many turns as `turns` says, or as near to that as the shortest and the longest wait allow, without yielding
/// the processor. `turns` becomes the number of the next wait. Says whether this one was one of the longest.
pub fn pause(turns: &mut u32) -> bool
    ensures longer { turns.new ≡ min (2 * wait_of turns.old) LONGEST_WAIT }
    ensures longest { result ≡ (wait_of turns.old == LONGEST_WAIT) }
{
    let mut backoff = Backoff::of(*turns);
    let longest = backoff.pause();
    *turns = backoff.turns();
    longest
}
