//! Why a list of areas makes no address space. A refusal names the first area that proc_pid_maps(5) wouldn't print
//! there, so that a caller can point to it. A lack of memory is a case of its own, and comes only for a list that is in
//! order; `Explains` in `specs/` says both.

use thiserror::Error;

/// The list isn't in order.
#[derive(Clone, Copy, PartialEq, Eq, Debug, Error)]
#[error("the area with index {index} is not in order")]
pub struct NotAreas {
    /// The first area, counted from 0, that isn't in range, starts before the one before it ends, or touches
    /// it and is of its kind.
    pub index: u32,
}

/// Why a list of areas makes no address space.
#[derive(Clone, Copy, PartialEq, Eq, Debug, Error)]
pub enum AreasFault {
    /// The list isn't in order.
    #[error(transparent)]
    NotAreas(NotAreas),
    /// There is no memory for the list.
    #[error("out of memory")]
    Memory,
}
