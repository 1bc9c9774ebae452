//! Replies that the cases expect.
ghost use Rattle.std.specs.Prelude.{◌≡◌, Some};
ghost use Rattle.page_types.specs.declared.calls.Reply.TheVariants.{Refused};
ghost use Rattle.page_types.specs.declared.calls.Why.TheVariants.{Einval};

use page_types::{Field, Reply, Why};

/// A call that its arguments decide: it is refused for this one.
pub fn einval(field: Field) -> Option<Reply>
    ensures { result ≡ Some (Refused (Einval field)) }
{
    Some(Reply::Refused(Why::Einval(field)))
}
