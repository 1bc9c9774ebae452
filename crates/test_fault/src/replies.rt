//! Replies that the cases expect.
ghost use Rattle.std.specs.Prelude.{◌≡◌};
ghost use Rattle.page_types.specs.declared.calls.Reply.TheVariants.{Refused};
ghost use Rattle.page_types.specs.declared.calls.Why.TheVariants.{Enomem};

use page_types::{Reply, Short, Why};

/// A refusal for want of pages or of room.
pub fn short(why: Short) -> Reply
    ensures { result ≡ Refused (Enomem why) }
{
    Reply::Refused(Why::Enomem(why))
}
