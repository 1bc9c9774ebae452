//! The bytes that are kept of the first half of an interrupted call, as strace(1) prints it before `<unfinished ...>`.
//! They are no longer than a line that a joiner takes, so that two halves are no longer than a line that is read.

ghost use Rattle.std.specs.Prelude.{◌≤◌, vec_len};

use crate::item::Name;

/// What is kept of a first half.
#[derive(Drop)]
pub(crate) struct Half {
    /// The call's name.
    pub(crate) name: Name,
    /// The bytes, from the name on.
    pub(crate) text: Vec<u8>,
    ghost short: { vec_len text ≤ 65535 },
}
