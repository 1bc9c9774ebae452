//! The areas of the space: one page each, with gaps of one page between, so many that areas and gaps are the rows that
//! are asked for.

use anyhow::{Result, ensure};
use page_types::{Kind, Prot};
use space_model::{Area, PlainSpace, have_named_kinds};
use std::alloc::{AllocError, Global};

/// Half as many areas as rows, of one readable page each, at every other page: from page 0 on, or from page 1 on where
/// the number of rows is odd, since the gap before it is a row too.
fn single_pages(alloc: Global, rows: u32) -> std::result::Result<Vec<Area>, AllocError> {
    let first = u64::from(rows % 2);
    let mut list = Vec::new(alloc);
    for i in 0..rows / 2 {
        let lo = first + 2 * u64::from(i);
        list.push(Area {
            lo,
            hi: lo + 1,
            kind: Kind {
                prot: Prot::READ,
                shared: false,
                sealed: false,
            },
        })?;
    }
    Ok(list)
}

/// The space of one thread that has just so many rows: each of the first pages is one, and every other of these may be
/// read; the last row reaches from there to the end.
pub fn every_other_page(alloc: Global, rows: u32) -> Result<PlainSpace> {
    let list = single_pages(alloc, rows)?;
    ensure!(
        have_named_kinds(&list) && list.len() < 1 << 30,
        "no area list"
    );
    let start = PlainSpace::of_areas(alloc, &list)?;
    ensure!(start.rows() == rows, "not as many rows");
    Ok(start)
}
