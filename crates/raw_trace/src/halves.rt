//! Which texts are the halves of one call. A first half waits for the second of its process and name; any other call or
//! half of that process, and a line of it that is refused, ends the waiting. `part` in `specs/Places.antt` says it of
//! the texts before and behind.

ghost use Rattle.std.specs.Prelude.{◌≡◌, ◌≤◌, ◌<◌, ◌-◌, ◌^◌, ℕ, [], length, IfOk};
ghost use Rattle.std.specs.Prelude.{◌≢◌, ◌⊎◌, ◌+◌, ◌++◌, ◌∷◌, List, Some, None, OnOk, slice_set};
ghost use Rattle.std.specs.BTreeMap.{get};
ghost use Rattle.std.specs.Ordering.{nat_cmp};
ghost use Rattle.raw_trace.specs.Places.{ReadText, IsReadText};
ghost use Rattle.raw_trace.specs.Stages.{AreRoles};
ghost use Rattle.raw_logs.specs.Log.{line_of};
ghost use Rattle.raw_logs.specs.Stages.{AreShort};

use crate::roles::Roles;
use raw_logs::Lines;
use std::alloc::{AllocError, Global};
use std::collections::BTreeMap;
use strace_reader::{Item, Name, cut, read_line};

/// What a text is to its other half. Places count texts from 0.
#[derive(Clone, Copy, PartialEq, Eq, Debug)]
pub(crate) enum Role {
    /// No half, or one whose other half isn't there.
    Alone,
    /// A first half.
    First {
        /// The place of the second half.
        other: u32,
        /// How many bytes of the first half are kept.
        to: u32,
        /// The first byte of the second half that is kept, counted from 0.
        behind: u32,
    },
    /// A second half.
    Second {
        /// The process.
        process: u32,
    },
}

/// A first half that waits for its second.
#[derive(Clone, Copy)]
struct Waiting {
    place: u32,
    to: u32,
    name: Name,
}

/// What is known of the halves so far.
#[derive(Drop)]
struct Finder {
    /// The first half that waits, by process.
    waiting: BTreeMap<u32, Waiting>,
    /// What each text so far is to its other half.
    roles: Roles,
}

impl Finder {
    ghost use Rattle.raw_trace.specs.declared.halves.Waiting.{Waiting as WaitingOf};
    ghost use Rattle.raw_trace.specs.declared.halves.Role.TheVariants.{Alone, First, Second};
    ghost use Rattle.raw_trace.specs.Stages.{Finds, FindsRole};

    /// A first half waits for its second from here on.
    fn wait(&mut self, pid: u32, waiting: Waiting) -> Result<(), AllocError>
        ensures waits { OnOk result (get nat_cmp self.new.waiting pid ≡ Some waiting) }
        ensures others { OnOk result ((q : ℕ) → q ≢ pid → get nat_cmp self.new.waiting q ≡ get nat_cmp self.old.waiting q) }
        ensures roles { self.new.roles ≡ self.old.roles }
    {
        match self.waiting.insert(pid, waiting) {
            Ok(_) => Ok(()),
            Err(_) => Err(AllocError),
        }
    }

    /// What a second half at this place is, and what its first half is then.
    fn resume(&mut self, pid: u32, name: Name, place: u32, behind: u32) -> Result<Role, AllocError>
        requires { (first : WaitingOf) → get nat_cmp self.old.waiting pid ≡ Some first → first.place < length self.old.roles }
        ensures found { IfOk result (λ role. (((first : WaitingOf) → get nat_cmp self.old.waiting pid ≡ Some first → first.name ≢ name)
            × (role ≡ Alone) × (self.new.roles ≡ self.old.roles))
            ⊎ ((first : WaitingOf) × (get nat_cmp self.old.waiting pid ≡ Some first) × (first.name ≡ name)
            × (role ≡ Second pid) × (self.new.roles ≡ slice_set self.old.roles first.place (First place first.to behind)))) }
        ensures gone { OnOk result (get nat_cmp self.new.waiting pid ≡ None) }
        ensures others { OnOk result ((q : ℕ) → q ≢ pid → get nat_cmp self.new.waiting q ≡ get nat_cmp self.old.waiting q) }
    {
        let Some(first) = self.waiting.remove(&pid) else {
            return Ok(Role::Alone);
        };
        if first.name != name {
            return Ok(Role::Alone);
        }
        let half = Role::First {
            other: place,
            to: first.to,
            behind,
        };
        self.roles.set(first.place, half)?;
        Ok(Role::Second { process: pid })
    }

    /// No first half of the process waits from here on.
    fn forget(&mut self, pid: u32)
        ensures gone { get nat_cmp self.new.waiting pid ≡ None }
        ensures others { (q : ℕ) → q ≢ pid → get nat_cmp self.new.waiting q ≡ get nat_cmp self.old.waiting q }
        ensures roles { self.new.roles ≡ self.old.roles }
    {
        self.waiting.remove(&pid);
    }

    /// What the next text is, which stands at this place, and what waits behind it.
    fn role_of(&mut self, text: &[u8], place: u32) -> Result<Role, AllocError>
        requires short { length text.now ≤ 65535 }
        requires place { place ≡ length self.old.roles }
        requires known { (before : List ReadText) × Finds self.old before }
        ensures { IfOk result (λ role. (before : List ReadText) (number : ℕ) → Finds self.old before
            → (one : ReadText) × IsReadText (line_of number text.now) one × FindsRole self.new (before ++ (one ∷ [])) role) }
    {
        match read_line(text) {
            Ok(Item::Other) => Ok(Role::Alone),
            Ok(Item::Blank) => Ok(Role::Alone),
            Ok(Item::Played { pid, .. }) => {
                self.forget(pid);
                Ok(Role::Alone)
            }
            Ok(Item::Unfinished { pid, name, to, .. }) => {
                self.wait(pid, Waiting { place, to, name })?;
                Ok(Role::Alone)
            }
            Ok(Item::Resumed { pid, name, from }) => {
                let role = self.resume(pid, name, place, from)?;
                Ok(role)
            }
            Err(_) => {
                let (pid, _) = cut(text);
                self.forget(pid);
                Ok(Role::Alone)
            }
        }
    }

    /// Takes the next text, which stands at this place.
    fn take(&mut self, text: &[u8], place: u32) -> Result<(), AllocError>
        requires short { length text.now ≤ 65535 }
        requires place { place ≡ length self.old.roles }
        requires few { place < 2 ^ 32 - 1 }
        requires known { (before : List ReadText) × Finds self.old before }
        ensures finds { OnOk result ((before : List ReadText) (number : ℕ) → Finds self.old before
            → (one : ReadText) × IsReadText (line_of number text.now) one × Finds self.new (before ++ (one ∷ []))) }
        ensures one { OnOk result (length self.new.roles ≡ length self.old.roles + 1) }
    {
        let role = self.role_of(text, place)?;
        self.roles.push(place, role)?;
        Ok(())
    }
}

/// What each text is to its other half.
pub(crate) fn roles_of(alloc: Global, lines: &Lines) -> Result<Roles, AllocError>
    requires few { length lines.now < 2 ^ 32 }
    requires short { AreShort lines.now }
    ensures { IfOk result (λ roles. AreRoles lines.now roles) }
{
    let mut finder = Finder {
        waiting: BTreeMap::new(alloc),
        roles: Roles::new(alloc),
    };
    let mut room = Vec::new(alloc);
    'lines: for place in 0..lines.len() {
        let (_, text) = lines.at(place, &mut room)?;
        finder.take(text, place as u32)?;
    }
    Ok(finder.roles)
}
