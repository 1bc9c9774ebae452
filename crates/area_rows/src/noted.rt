//! What a step on a client word means to the guard. A draw of a number means the entry that is drawn, and what is then
//! to be written; a step of any other kind means nothing beside what it does. A reader may rely on the note being the
//! one that the call picked.
use area_guard::RowGuard;
use lock_core::Means;
use std::marker::{Brand, PhantomData};

/// What a call means by its step. Each call picks it.
pub(crate) trait Noted {
    ghost use Rattle.area_guard.specs.declared.guard.Note.{Note};

    ghost noted: { Note };
}

impl Noted for Brand {
    ghost use Rattle.area_guard.specs.Keeping.{no_note};

    ghost noted = { no_note };
}

/// The note that was picked.
pub(crate) struct By<N> {
    of: PhantomData<N>,
}

impl<N: Noted> Means<RowGuard> for By<N> {
    ghost note = { N.noted };
}
