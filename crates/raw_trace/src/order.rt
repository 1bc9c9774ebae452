//! In which order lines are written: calls that were cut in two wait from their first half on, and what a call needs
//! goes before it. `order` in `specs/Order.antt` is the rule.

ghost use Rattle.std.specs.Prelude.{◌≡◌, ◌++◌, ◌∷◌, [], OnOk, IfErr};
ghost use Rattle.raw_trace.specs.declared.fault.Fault.TheVariants.{Memory};
ghost use Rattle.raw_trace.specs.Order.{frees_for, put, of_others, write_entry, does, Ends};
ghost use Rattle.raw_trace.specs.Waiting.{entry};
ghost use Rattle.raw_trace.specs.Stages.{TookTurn, WroteDue, EndsTurn, EndsDue};

use crate::fault::Fault;
use crate::piece::Piece;
use crate::waiting::Waiting;
use crate::writing::Written;
use std::alloc::Global;

/// Adds a piece behind others.
fn push(pieces: &mut Vec<Piece>, piece: Piece) -> Result<(), Fault>
    ensures items { OnOk result (pieces.new.items ≡ pieces.old.items ++ (piece ∷ [])) }
    ensures fault { IfErr result (λ fault. fault ≡ Memory) }
{
    if pieces.push(piece).is_err() {
        return Err(Fault::Memory);
    }
    Ok(())
}

/// The lines in their order, as far as they are known.
#[derive(Drop)]
pub(crate) struct Ordering {
    /// Calls whose second half wasn't seen yet, and that weren't needed.
    pub(crate) waiting: Waiting,
    /// What was written.
    pub(crate) written: Written,
}

impl Ordering {
    /// Writes an entry, or makes what it needs due before it.
    fn turn(
        &mut self,
        alloc: Global,
        due: &mut Vec<Piece>,
        piece: Piece,
        strict: bool,
    ) -> Result<(), Fault>
        ensures took { OnOk result (TookTurn strict (entry piece) self.old due.old.items self.new due.new.items) }
        ensures fault { IfErr result (EndsTurn strict (entry piece) self.old.waiting) }
    {
        match self.waiting.take_that_frees(&piece) {
            Some(other) => {
                push(due, piece)?;
                push(due, other)?;
                Ok(())
            }
            None => self.written.write(alloc, &piece, strict),
        }
    }

    /// Writes a line, behind those that it needs.
    pub(crate) fn write(&mut self, alloc: Global, piece: Piece, strict: bool) -> Result<(), Fault>
        ensures wrote { OnOk result (WroteDue strict self.old (write_entry frees_for (entry piece) self.old.waiting) self.new) }
        ensures fault { IfErr result (EndsDue strict (write_entry frees_for (entry piece) self.old.waiting).lines) }
    {
        let mut due = Vec::new(alloc);
        push(&mut due, piece)?;
        'due: while let Some(next) = due.pop() {
            self.turn(alloc, &mut due, next, strict)?;
        }
        Ok(())
    }

    /// The call of a process begins, and waits.
    pub(crate) fn begin(&mut self, piece: Piece) -> Result<(), Fault>
        ensures waits { OnOk result (self.new.waiting ≡ put (entry piece) (of_others piece.process self.old.waiting)) }
        ensures written { self.new.written ≡ self.old.written }
        ensures fault { IfErr result (λ fault. fault ≡ Memory) }
    {
        self.waiting.insert(piece)?;
        Ok(())
    }

    /// The call of a process ends, and is written where it waits still.
    pub(crate) fn end(&mut self, alloc: Global, process: u32, strict: bool) -> Result<(), Fault>
        ensures wrote { OnOk result (WroteDue strict self.old (does frees_for (Ends process) self.old.waiting) self.new) }
        ensures fault { IfErr result (EndsDue strict (does frees_for (Ends process) self.old.waiting).lines) }
    {
        let Some(piece) = self.waiting.take_of(process) else {
            return Ok(());
        };
        self.write(alloc, piece, strict)
    }
}
