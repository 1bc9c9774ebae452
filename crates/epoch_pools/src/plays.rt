//! What each kind of step says to the seat that makes it, in the words of `atomic_table`: a step of the lock, a step on
//! a client word, and the joining of two seats. The step itself is data, which the call picks; a reader may rely on a
//! play naming what belongs to the seat after the step, and nothing that the code could invent.
use crate::views::ListView;
use atomic_table::{Join, Play};
use lock_core::{Guard, Means};
use std::marker::{Brand, PhantomData};

/// Which step is made on a client word, and of which list of how many the token shows the seat. Each call picks it.
pub trait Acting {
    ghost use Rattle.std.specs.Prelude.{ℕ};
    ghost use Rattle.lock_core.specs.Client.{ClientStep};

    ghost acting: { ClientStep };

    ghost lists: { ℕ };

    ghost list: { ℕ };
}

impl Acting for Brand {
    ghost use Rattle.lock_core.specs.Client.{loads};

    ghost acting = { loads 0 };

    ghost lists = { 0 };

    ghost list = { 0 };
}

/// A step on a client word that says which value it found.
pub(crate) struct Acts<G, M, C> {
    of: PhantomData<(G, M, C)>,
}

impl<G: Guard, M: Means<G>, C: Acting> Play<(), ListView<G::Pass>> for Acts<G, M, C> {
    ghost use Rattle.std.specs.Prelude.{[]};
    ghost use Rattle.epoch_pools.specs.Running.{IsClientPlay};

    ghost then = { λ _ me found me'. IsClientPlay (G.first [] 0) G.holds G.allows M.note C.lists C.list C.acting me found me' };
}

/// A store to a client word, which says that there was a value and not which.
pub(crate) struct Overwrites<G, M, C> {
    of: PhantomData<(G, M, C)>,
}

impl<G: Guard, M: Means<G>, C: Acting> Play<(), ListView<G::Pass>> for Overwrites<G, M, C> {
    ghost use Rattle.std.specs.Prelude.{ℕ, []};
    ghost use Rattle.epoch_pools.specs.Running.{IsClientPlay};

    ghost then = { λ _ me _ me'. (found : ℕ) × IsClientPlay (G.first [] 0) G.holds G.allows M.note C.lists C.list C.acting me found me' };
}

/// Which step of the lock is made, in which list of how many, and in a table of how many seats. Each call picks it.
pub trait Doing {
    ghost use Rattle.std.specs.Prelude.{ℕ};
    ghost use Rattle.lock_core.specs.declared.steps.Step.{Step};

    ghost doing: { Step };

    ghost seats: { ℕ };

    ghost lists: { ℕ };

    ghost list: { ℕ };
}

impl Doing for Brand {
    ghost use Rattle.lock_core.specs.declared.steps.Step.TheVariants.{Walk};

    ghost doing = { Walk };

    ghost seats = { 0 };

    ghost lists = { 0 };

    ghost list = { 0 };
}

/// A step of the lock that says which value it found.
pub(crate) struct Does<G, D> {
    of: PhantomData<(G, D)>,
}

impl<G: Guard, D: Doing> Play<(), ListView<G::Pass>> for Does<G, D> {
    ghost use Rattle.std.specs.Prelude.{[]};
    ghost use Rattle.epoch_pools.specs.Running.{IsLockPlay};

    ghost then = { λ _ me found me'. IsLockPlay (G.first [] 0) G.rested D.lists D.list D.seats D.doing me found me' };
}

/// A store on a word of the lock, which says that there was a value and not which.
pub(crate) struct Puts<G, D> {
    of: PhantomData<(G, D)>,
}

impl<G: Guard, D: Doing> Play<(), ListView<G::Pass>> for Puts<G, D> {
    ghost use Rattle.std.specs.Prelude.{ℕ, []};
    ghost use Rattle.epoch_pools.specs.Running.{IsLockPlay};

    ghost then = { λ _ me _ me'. (found : ℕ) × IsLockPlay (G.first [] 0) G.rested D.lists D.list D.seats D.doing me found me' };
}

/// Which look is made, under which cut, from which list of how many, and at which: what the seat's standing is where
/// the list is found empty, and whether it is that whatever the look finds, since the seat holds its range there too or
/// nothing comes to count. Each call picks it.
pub trait Look {
    ghost use Rattle.std.specs.Prelude.{ℕ, Bool};
    ghost use Rattle.list_cuts.specs.Cut.{Regions};
    ghost use Rattle.epoch_pools.specs.declared.views.Standing.{Standing};

    ghost cut: { Regions };

    ghost standing: { Standing };

    ghost too: { Bool };

    ghost lists: { ℕ };

    ghost list: { ℕ };

    ghost at: { ℕ };
}

impl Look for Brand {
    ghost use Rattle.std.specs.Prelude.{false};
    ghost use Rattle.epoch_pools.specs.declared.views.Standing.TheVariants.{Free};

    ghost cut = { record { count = 1; bits = 62 } };

    ghost standing = { Free };

    ghost too = { false };

    ghost lists = { 0 };

    ghost list = { 0 };

    ghost at = { 0 };
}

/// A load of the head of a list behind the own link.
pub(crate) struct Looks<G, D> {
    of: PhantomData<(G, D)>,
}

impl<G: Guard, D: Look> Play<(), ListView<G::Pass>> for Looks<G, D> {
    ghost use Rattle.std.specs.Prelude.{[]};
    ghost use Rattle.epoch_pools.specs.Passing.{IsLookPlay};

    ghost then = { λ _ me found me'. IsLookPlay (G.first [] 0) D.cut D.lists D.list D.at D.standing D.too me found me' };
}

/// The seat that stays takes in what belongs to the other.
pub(crate) struct Gathers;

impl<P> Join<ListView<P>> for Gathers {
    ghost use Rattle.std.specs.Prelude.{[], ◌++◌};
    ghost use Rattle.epoch_pools.specs.Running.{view};

    ghost both = { λ v w. view (v.parts ++ w.parts) };

    ghost spent = { view [] };
}
