//! What is wanted of a set, and which two wants are in each other's way. Two wants conflict by the rule for held
//! ranges: they overlap and at least one is a writer's, as in Kogan, Dice and Issa 2020. A reader may rely on `clash`
//! finding the first such pair wherever there is one.
ghost use Rattle.std.specs.Prelude.{◌≡◌, ◌↔◌, ◌<◌, ◌^◌, ◌⊎◌, IfSome, IsNone, IsTrue, length};
ghost use Rattle.lock_core.specs.Grants.{Conflicts};
ghost use Rattle.range_sets.specs.Wants.{IsFirstClash, NoClash, want_held};

use lock_core::{Grant, Mode, Range, conflict};

/// A range that is wanted, and the mode in which it is wanted.
#[derive(Clone, Copy, Debug, PartialEq, Eq)]
pub struct Want {
    pub range: Range,
    pub mode: Mode,
}

/// Whether two wants conflict. The seats that they are given here don't matter.
fn conflicts(one: Want, other: Want) -> bool
    ensures { IsTrue result ↔ Conflicts (want_held one) (want_held other) }
{
    let first = Grant {
        seat: 0,
        range: one.range,
        mode: one.mode,
    };
    let second = Grant {
        seat: 1,
        range: other.range,
        mode: other.mode,
    };
    conflict(&first, &second)
}

/// The first two places, counted from 0, whose wants conflict, in order of the first place and then of the second;
/// None exactly where no two conflict. Fewer than 2^32 wants.
pub fn clash(wants: &[Want]) -> Option<(u32, u32)>
    requires { length wants.now < 2 ^ 32 }
    ensures found { IfSome result (λ r. IsFirstClash wants.now r.0 r.1) }
    ensures none { IsNone result ↔ NoClash wants.now }
{
    let mut i = 0;
    'firsts: while i < wants.len() {
        let mut j = i + 1;
        'others: while j < wants.len() {
            if conflicts(wants[i], wants[j]) {
                return Some((i as u32, j as u32));
            }
            j += 1;
        }
        i += 1;
    }
    None
}
