//! When a wide caller of `acquire` has further looks: one that was refused often enough keeps its node in list 0 while
//! it looks at the lists again, so many times at most, and narrow callers find it there and are refused. That any of
//! them gets its range by that was measured, and isn't claimed. A reader may rely on the counts alone. This project's
//! own profile.
ghost use Rattle.std.specs.Prelude.{◌≡◌, ◌<◌, ◌≤◌, ◌+◌};
ghost use Rattle.range_rw.specs.declared.patience.Anew.TheVariants.{AtOnce, Later};
ghost use Rattle.word_rows.specs.declared.backoff.TheConstants.{REFUSED_ROUNDS, KEPT_LOOKS};

use crate::patience::Anew;
use word_rows::{KEPT_LOOKS, REFUSED_ROUNDS};

/// How many further looks a wide caller has in its next round, by how many of its rounds were refused since it had
/// some: none before `REFUSED_ROUNDS`, and all of them then.
pub fn looks_after(refused: u32) -> u32
    ensures none { refused < REFUSED_ROUNDS → result ≡ 0 }
    ensures some { REFUSED_ROUNDS ≤ refused → result ≡ KEPT_LOOKS }
{
    if refused < REFUSED_ROUNDS {
        0
    } else {
        KEPT_LOOKS
    }
}

/// How many rounds of a caller were refused since its last one with further looks, once a round has ended so before
/// which there were `refused`. A round with further looks begins the count anew, however it ended. Of the others those
/// count after which the caller has to wait.
pub fn next_refused(refused: u32, anew: Anew) -> u32
    ensures anew { REFUSED_ROUNDS ≤ refused → result ≡ 0 }
    ensures counts { refused < REFUSED_ROUNDS → anew ≡ Later → result ≡ refused + 1 }
    ensures stays { refused < REFUSED_ROUNDS → anew ≡ AtOnce → result ≡ refused }
{
    if refused >= REFUSED_ROUNDS {
        return 0;
    }
    match anew {
        Anew::AtOnce => refused,
        Anew::Later => refused + 1,
    }
}
