//! One body judges each call on pages, whichever way their kinds are kept: by the areas of a `PlainSpace`, or by row
//! words that were read. It hands the calls on: mmap(2), munmap(2), mprotect(2), mseal(2) and a fault to `judging`,
//! brk(2) to `heap`, and mremap(2) to `moving`. A reader may rely on `IsJudged`: the reply is the one of the model, and
//! what is left to ask is how many rows a change makes.

ghost use Rattle.std.specs.Prelude.{None, ◌≡◌};
ghost use Rattle.page_types.specs.PlainReply.{plain_reply};
ghost use Rattle.space_model.specs.Judges.{IsJudged};
ghost use Rattle.space_model.specs.Looking.{TakesLooks};

use crate::heap::judge_brk;
use crate::judged::Judged;
use crate::judging::{
    Pages, judge_fault, judge_fixed, judge_hinted, judge_protect, judge_seal, judge_unmap,
};
use crate::moving::judge_remap;
use page_types::Call;

/// What a call comes to that its arguments don't decide.
pub fn judge<P: Pages>(pages: &P, hand: &mut P::Hand, call: &Call) -> Judged
    requires may { P.may_look pages.now hand.old }
    requires undecided { plain_reply call.now ≡ None }
    ensures judged { IsJudged (P.kinds pages.now hand.old) call.now result }
    ensures looked { P.looked pages.now hand.old hand.new }
    ensures looks { TakesLooks (P.kinds pages.now hand.old) (P.reach pages.now hand.old) (P.fit_looks pages.now hand.old) call.now
        (P.looks pages.now hand.old) (P.looks pages.now hand.new) }
{
    match *call {
        Call::Map {
            addr,
            len,
            prot,
            flags,
        } => {
            if flags.is_fixed() {
                judge_fixed(pages, hand, addr, len, prot, flags)
            } else {
                judge_hinted(pages, hand, addr, len, prot, flags)
            }
        }
        Call::Unmap { addr, len } => judge_unmap(pages, hand, addr, len),
        Call::Protect { addr, len, prot } => judge_protect(pages, hand, addr, len, prot),
        Call::Fault { addr, access } => judge_fault(pages, hand, addr, access),
        Call::Seal { addr, len, flags } => judge_seal(pages, hand, addr, len, flags),
        Call::Brk { base, addr } => judge_brk(pages, hand, base, addr),
        Call::Remap {
            addr,
            old_len,
            new_len,
            may_move,
            hint,
        } => judge_remap(pages, hand, addr, old_len, new_len, may_move, hint),
    }
}
