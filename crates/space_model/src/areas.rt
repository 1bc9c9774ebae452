//! Areas of an address space: proc_pid_maps(5) prints one line for each. An area list is in order, and where two
//! areas touch they differ in kind, so it is the only list of areas that gives its pages their kinds.

ghost use Rattle.std.specs.Prelude.{◌↔◌, IsTrue};
ghost use Rattle.space_model.specs.Areas.{HasNamedKinds};

use page_types::{Kind, LIMIT, Span};

/// Neighbouring pages of one kind. In an area list `lo` is below `hi`, and `hi` is at most `LIMIT`.
#[derive(Clone, Copy, PartialEq, Eq, Hash, Debug)]
pub struct Area {
    /// The first page.
    pub lo: u64,
    /// The page after the last one.
    pub hi: u64,
    /// The kind of each page.
    pub kind: Kind,
}

impl Area {
    ghost use Rattle.space_model.specs.Areas.{IsInRange};
    ghost use Rattle.space_model.specs.Held.{IsWidened};

    /// The area's pages and one page more on each side, clipped to 0 and `LIMIT`: what a Protect holds that keeps the
    /// number of rows.
    pub fn widened(self) -> Span
        requires { IsInRange self }
        ensures { IsWidened self result }
    {
        Span {
            lo: self.lo.saturating_sub(1),
            hi: (self.hi + 1).min(LIMIT),
        }
    }
}

/// Whether no kind of the list has a bit but READ, WRITE and EXEC.
pub fn have_named_kinds(list: &[Area]) -> bool
    ensures { IsTrue result ↔ HasNamedKinds list.now }
{
    list.iter().all(|area| area.kind.is_named())
}
