//! The rows with which a space begins. They stand apart from the tests, so that the crate has a function without them.
ghost use Rattle.std.specs.Prelude.{IfOk};
ghost use Rattle.row_plans.specs.Plans.{IsRowList};

use row_plans::write_row;
use std::alloc::{AllocError, Global};

/// The rows of a space in which nothing is mapped. `AllocError` where there was no memory for one row.
pub fn no_areas(alloc: Global) -> Result<Vec<u64>, AllocError>
    ensures { IfOk result (λ rows. IsRowList rows.items) }
{
    let mut rows = Vec::new(alloc);
    rows.push(write_row(0, None))?;
    Ok(rows)
}
