//! What a call under everything left is written: the splice that it makes of the rows, their count, and then the
//! sequence word is raised. How it is written over blocks is `row_blocks`, and by which steps `plan_words`.
//! Only the caller that has the splice stores rows, and nobody else reads them meanwhile; a reader may rely on the rows
//! showing the last state again when the sequence word is raised.
ghost use Rattle.std.specs.Prelude.{◌≡◌, ◌≤◌, ◌+◌, ◌*◌, length};
ghost use Rattle.area_guard.specs.Rows.{blocks_by};
ghost use Rattle.area_rows.specs.Callers.{HasSameRows, HasToWrite, IsWritten};

use crate::space::{Caller, Space};
use plan_words::write_splice;

impl Space {
    /// Writes what the caller's last call under everything left: the splice that it planned, of the rows as they stand,
    /// and the row count; then it raises the sequence word. The caller is of this space, holds everything, and has
    /// numbered that call and not written it yet. It takes at most three steps for each row that comes, 16 for each
    /// block that the space has room for, and 2362 more; and one step where no row goes and none comes, as after a
    /// refused call. It takes no memory.
    pub fn write_plan(&self, caller: &mut Caller)
        requires table { caller.old.seat.table ≡ self.now.table }
        requires planned { HasToWrite caller.old }
        ensures written { IsWritten caller.old.seat caller.new.seat }
        ensures steps { caller.new.seat.trace.taken ≤ caller.old.seat.trace.taken
            + (3 * length caller.old.more + 16 * blocks_by self.now.table + 2362) }
        ensures none { caller.old.cut.gone ≡ 0 → length caller.old.more ≡ 0
            → caller.new.seat.trace.taken ≡ caller.old.seat.trace.taken + 1 }
        ensures left { caller.new.left ≡ caller.old.left }
        ensures rows { HasSameRows caller.old caller.new }
    {
        write_splice(
            &self.table,
            &mut caller.seat,
            self.blocks,
            caller.count,
            caller.cut.at,
            caller.cut.gone,
            caller.plan.as_slice(),
        );
    }
}
