//! Address spaces of two callers, of which the first one maps a page: one that keeps its history, closed with it, and
//! one that doesn't, closed with its areas. Each call is made once more where it had no memory.
ghost use Rattle.std.specs.Prelude.{List, true, ◌≡◌, IfOk};
ghost use Rattle.page_types.specs.Named.{IsNamedCall};
ghost use Rattle.space_model.specs.declared.entries.Entry.{Entry};
ghost use Rattle.area_rows.specs.Rows.{keeps_by};
ghost use Rattle.area_rows.specs.Callers.{IsWhole};
ghost use Rattle.test_crews.specs.Crews.{IsCrew};

use anyhow::{Result, bail};
use area_rows::{Caller, Closed, Space, SpaceCloseRefused, SpaceFault};
use list_cuts::Cut;
use page_types::{Call, PAGE, Prot};
use space_model::{Area, PlainSpace};
use std::alloc::Global;
use std::io::Print;
use std::sync::Wait;
use test_crews::{call_by, open_cut_crew, replacing};

/// How many calls each caller may make, where the history is kept.
const CALLS: [u32; 2] = [2, 1];

/// Opens a space that keeps its history or doesn't.
fn open<R: Print>(
    rt: &R,
    alloc: Global,
    keeps: bool,
    start: &PlainSpace,
) -> Result<(Space, Vec<Caller>)>
    ensures crew { IfOk result (λ r. IsCrew r.0.table r.0.seats r.1.items) }
    ensures keeps { IfOk result (λ r. keeps_by r.0.table ≡ keeps) }
{
    match open_cut_crew(alloc, keeps, &CALLS, Cut::one(), start) {
        Ok(opened) => return Ok(opened),
        Err(SpaceFault::Memory) if keeps => println!(rt; "Space::open had no memory")?,
        Err(SpaceFault::Memory) => println!(rt; "Space::open_unkept had no memory")?,
        Err(_) => bail!("no space of two callers"),
    }
    match open_cut_crew(alloc, keeps, &CALLS, Cut::one(), start) {
        Ok(opened) => Ok(opened),
        Err(_) => bail!("no space"),
    }
}

/// Closes a space, and gives its history.
fn close<R: Print>(rt: &R, alloc: Global, space: Space, crew: Vec<Caller>) -> Result<Closed>
    requires crew { IsCrew space.table space.seats crew.items }
    requires keeps { keeps_by space.table ≡ true }
    ensures whole { IfOk result (λ c. IsWhole crew.items c.entries c.areas) }
{
    match space.close(alloc, crew) {
        Ok(closed) => Ok(closed),
        Err(SpaceCloseRefused { space, callers }) => {
            println!(rt; "Space::close had no memory")?;
            match space.close(alloc, callers) {
                Ok(closed) => Ok(closed),
                Err(_) => bail!("the space isn't closed"),
            }
        }
    }
}

/// Closes a space, and gives the areas that are left.
fn close_areas<R: Print>(
    rt: &R,
    alloc: Global,
    space: Space,
    crew: Vec<Caller>,
) -> Result<Vec<Area>>
    requires { IsCrew space.table space.seats crew.items }
    ensures left { IfOk result (λ areas. (history : List Entry) × IsWhole crew.items history areas.items) }
{
    match space.close_areas(alloc, crew) {
        Ok(areas) => Ok(areas),
        Err(SpaceCloseRefused { space, callers }) => {
            println!(rt; "Space::close_areas had no memory")?;
            match space.close_areas(alloc, callers) {
                Ok(areas) => Ok(areas),
                Err(_) => bail!("the space isn't closed"),
            }
        }
    }
}

/// The map of a page.
fn map() -> Call
    ensures { IsNamedCall result }
{
    Call::Map {
        addr: 16 * PAGE,
        len: PAGE,
        prot: Prot::READ,
        flags: replacing(),
    }
}

/// Opens a space, maps a page, and closes it.
pub fn try_space<R: Print + Wait>(rt: &R, alloc: Global) -> Result<()> {
    let start = PlainSpace::new(alloc);
    let (space, mut crew) = open(rt, alloc, true, &start)?;
    call_by(rt, &space, crew.as_mut_slice(), 1, map());
    let closed = close(rt, alloc, space, crew)?;
    println!(rt;
        "entries {}, areas {}",
        closed.entries().len(),
        closed.areas().len()
    )?;
    Ok(())
}

/// The same with a space that keeps no history.
pub fn try_unkept<R: Print + Wait>(rt: &R, alloc: Global) -> Result<()> {
    let start = PlainSpace::new(alloc);
    let (space, mut crew) = open(rt, alloc, false, &start)?;
    call_by(rt, &space, crew.as_mut_slice(), 1, map());
    let areas = close_areas(rt, alloc, space, crew)?;
    println!(rt; "areas without a history {}", areas.len())?;
    Ok(())
}
