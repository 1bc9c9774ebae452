//! Legal histories: entries taken by number, each with the reply that the address space gives at the state that the
//! entries before it leave, as a sequential history of an object has it (Herlihy and Wing, TOPLAS 1990). `legal`
//! computes exactly what `IsLegal` in `specs/` says, in both directions, so a test or a log may be judged by it.

ghost use Rattle.std.specs.Prelude.{◌^◌, ◌<◌, ◌≡◌, ◌↔◌, length, IsTrue, IfOk, MatchOption, IsPermutation};
ghost use Rattle.std.specs.List.Sorted.{IsNonDecreasingBy};
ghost use Rattle.page_types.specs.Named.{IsNamedCall};
ghost use Rattle.space_model.specs.Building.{IsNextAnswer};
ghost use Rattle.space_model.specs.History.{IsLegal, IsFirstIllegal, HasNamedCalls};

use crate::entries::Entry;
use crate::space::PlainSpace;
use page_types::Reply;
use std::alloc::{AllocError, Global};

/// Sorts entries by number. It takes no memory; entries of one number may come in any order.
pub fn by_number(list: &mut Vec<Entry>)
    ensures same { IsPermutation list.old.items list.new.items }
    ensures in_order { IsNonDecreasingBy (λ e. e.number) list.new.items }
{
    list.sort_unstable_by_key(|entry| entry.number);
}

/// The first entry, counted from 0, that isn't as a legal history from `start` has it, or None.
///
/// An entry is right where it has its place's number, counted from 0, and the reply that the address space gives at the
/// state that the entries before it leave. Nothing else of an entry counts.
pub fn legal(alloc: Global, start: &PlainSpace, list: &[Entry]) -> Result<Option<u32>, AllocError>
    requires few { length list.now < 2 ^ 32 }
    requires named { HasNamedCalls list.now }
    ensures { IfOk result (λ found. MatchOption found (IsLegal start.now list.now) (IsFirstIllegal start.now list.now)) }
{
    let mut space = start.copied(alloc)?;
    for i in 0..list.len() {
        let right = is_next(&mut space, i, &list[i])?;
        if !right {
            return Ok(Some(i as u32));
        }
    }
    Ok(None)
}

/// Makes the entry's call, and says whether the entry has this number and the space's reply.
fn is_next(space: &mut PlainSpace, number: usize, entry: &Entry) -> Result<bool, AllocError>
    requires { IsNamedCall entry.now.call }
    ensures { IfOk result (λ right. IsNextAnswer space.old number entry.now right space.new) }
{
    let reply = space.step(&entry.call)?;
    Ok(entry.number == number as u64 && same_reply(entry.reply, reply))
}

fn same_reply(one: Reply, other: Reply) -> bool
    ensures { IsTrue result ↔ (one ≡ other) }
{
    one == other
}
