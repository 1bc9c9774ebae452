//! What each kind of step says to the seat that makes it, in the words of `atomic_table`. There are two kinds, a load
//! of a word and an exchange of it from 0, and one sentence for both; the joining of two seats is said beside them.
use crate::records::SeatRecord;
use atomic_table::{Join, Play};
use std::marker::{Brand, PhantomData};

/// Which page is looked for, in how many words, and whether the step is an exchange. Each call picks it.
pub trait Probing {
    ghost use Rattle.std.specs.Prelude.{ℕ, Bool};

    ghost room: { ℕ };

    ghost page: { ℕ };

    ghost puts: { Bool };
}

impl Probing for Brand {
    ghost use Rattle.std.specs.Prelude.{false};

    ghost room = { 0 };

    ghost page = { 0 };

    ghost puts = { false };
}

/// A step on a word that says which value it found.
pub(crate) struct Probes<D> {
    of: PhantomData<D>,
}

impl<D: Probing> Play<(), SeatRecord> for Probes<D> {
    ghost use Rattle.page_touch.specs.Probes.{probe_play};

    ghost then = { λ st me found me'. probe_play D.room D.page D.puts st.word me found me' };
}

/// The seat that stays takes in what belongs to the other.
pub(crate) struct Gathers;

impl Join<SeatRecord> for Gathers {
    ghost use Rattle.page_touch.specs.Touched.{begin};
    ghost use Rattle.page_touch.specs.Gathering.{gathered};

    ghost both = { gathered };

    ghost spent = { begin 0 };
}
