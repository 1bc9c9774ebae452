//! The ways of the changes of protection of a trial, kept by the threads while they run. Each is written once and read
//! when the threads are done; a reader may rely on nothing but that, and tests judge what is in them.
use area_protect::Path;
use std::alloc::{AllocError, Global};
use std::sync::OnceLock;

/// The ways of the calls of a crew, by caller and turn.
#[derive(Drop)]
pub struct Ways {
    cells: Vec<OnceLock<Path>>,
    turns: u32,
}

impl Ways {
    /// Room for the ways of so many callers that each take so many turns.
    pub fn open(alloc: Global, callers: u32, turns: u32) -> Result<Ways, AllocError> {
        let mut cells = Vec::new(alloc);
        for _ in 0..u32::saturating_mul(callers, turns) {
            cells.push(OnceLock::new())?;
        }
        Ok(Ways { cells, turns })
    }

    /// Where the way of a caller's turn is kept.
    fn cell(&self, caller: u32, turn: u32) -> Option<&OnceLock<Path>> {
        let at = u64::wrapping_add(
            u64::wrapping_mul(u64::from(caller), u64::from(self.turns)),
            u64::from(turn),
        );
        self.cells.get(at as usize)
    }

    /// Keeps the way of a caller's turn, both counted from 0, where none is kept.
    pub fn keep(&self, caller: u32, turn: u32, path: Path) {
        if let Some(cell) = self.cell(caller, turn) {
            let _kept = cell.try_set(path);
        }
    }

    /// The way of a caller's turn, or None where none was kept.
    pub fn of(&self, caller: u32, turn: u32) -> Option<Path> {
        self.cell(caller, turn)?.get().copied()
    }
}
