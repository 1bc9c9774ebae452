//! What each text of a log is to its other half, place by place. Most texts are no half, so only halves take memory.
//! Contracts see a list with a role for each text.

ghost use Rattle.std.specs.Prelude.{◌≡◌, ◌≢◌, ◌<◌, ◌-◌, ◌^◌, ◌+◌, ◌++◌, ◌∷◌, ℕ, [], Some, length, get_or, slice_set, OnOk};
ghost use Rattle.std.specs.BTreeMap.{get};
ghost use Rattle.std.specs.Ordering.{nat_cmp};
ghost use Rattle.raw_trace.specs.declared.halves.Role.TheVariants.{Alone};
ghost use Rattle.raw_trace.specs.Roles.{role_or};

use crate::halves::Role;
use std::alloc::{AllocError, Global};
use std::collections::BTreeMap;
use std::marker::Model;

/// What each text so far is to its other half.
#[derive(Drop)]
pub(crate) struct Roles {
    /// How many texts there are.
    count: u32,
    /// What those are that are halves, by place.
    halves: BTreeMap<u32, Role>,
}

impl Model for Roles {
    ghost use Rattle.std.specs.Prelude.{List};
    ghost use Rattle.raw_trace.specs.declared.halves.Role.{Role};
    ghost use Rattle.raw_trace.specs.Roles.{roles_in, AreBelow};

    ghost Value = { List Role };

    ghost view = { λ r. roles_in r.halves 0 r.count };

    ghost invariant = { λ r. AreBelow r.halves r.count };
}

/// Puts the role of a half in. Where there is no memory for it, none changes.
fn put(halves: &mut BTreeMap<u32, Role>, place: u32, role: Role) -> Result<(), AllocError>
    ensures is { OnOk result (get nat_cmp halves.new place ≡ Some role) }
    ensures others { (q : ℕ) → q ≢ place → get nat_cmp halves.new q ≡ get nat_cmp halves.old q }
{
    match halves.insert(place, role) {
        Ok(_) => Ok(()),
        Err(_) => Err(AllocError),
    }
}

/// The role at a place: of no half, where none is there.
fn role_in(halves: &BTreeMap<u32, Role>, place: u32) -> Role
    ensures { result ≡ role_or (get nat_cmp halves.now place) }
{
    match halves.get(&place) {
        Some(role) => *role,
        None => Role::Alone,
    }
}

impl Roles {
    /// No role.
    pub(crate) fn new(alloc: Global) -> Roles
        ensures { result ≡ [] }
    {
        Roles {
            count: 0,
            halves: BTreeMap::new(alloc),
        }
    }

    /// The role of the text at a place.
    pub(crate) fn at(&self, place: u32) -> Role
        requires { place < length self.now }
        ensures { result ≡ get_or self.now place Alone }
    {
        role_in(&self.halves, place)
    }

    /// Adds the role of the text at this place, behind the others.
    pub(crate) fn push(&mut self, place: u32, role: Role) -> Result<(), AllocError>
        requires place { place ≡ length self.old }
        requires few { place < 2 ^ 32 - 1 }
        ensures { OnOk result (self.new ≡ self.old ++ (role ∷ [])) }
    {
        self.add_alone(place);
        if role == Role::Alone {
            return Ok(());
        }
        self.set(place, role)?;
        Ok(())
    }

    /// Adds the text at this place as no half, or as one whose other half isn't there.
    fn add_alone(&mut self, place: u32)
        requires place { place ≡ length self.old }
        requires few { place < 2 ^ 32 - 1 }
        ensures { self.new ≡ self.old ++ (Alone ∷ []) }
    {
        self.count = place + 1;
    }

    /// Gives the text at a place another role.
    pub(crate) fn set(&mut self, place: u32, role: Role) -> Result<(), AllocError>
        requires { place < length self.old }
        ensures { OnOk result (self.new ≡ slice_set self.old place role) }
    {
        put(&mut self.halves, place, role)
    }
}
