//! Two stretches of pages, as a Remap that moves names them; most calls name one, and the other one is empty then.
ghost use Rattle.std.specs.Prelude.{◌≤◌};
ghost use Rattle.page_types.specs.declared.TheConstants.{LIMIT};

/// Pages in two stretches, in order, of which each may be empty.
#[derive(Clone, Copy, Debug)]
pub struct Touched {
    /// The first page of the first stretch.
    pub lo: u64,
    /// The page after its last one.
    pub hi: u64,
    /// The first page of the second stretch.
    pub next: u64,
    /// The page after its last one, at most `LIMIT`.
    pub end: u64,
    pub ghost first: { lo ≤ hi },
    pub ghost ordered: { hi ≤ next },
    pub ghost second: { next ≤ end },
    pub ghost in_range: { end ≤ LIMIT },
}
