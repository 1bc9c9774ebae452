//! The views that a hand keeps of the lists to which it isn't turned, each in a box, one place for each list behind the
//! first. Where the hand is turned to another list than the first, the view of the first one stands in the place of
//! that list; so a hand of one list keeps none. This project's own profile.
ghost use Rattle.std.specs.Prelude.{◌≡◌, ◌<◌, ◌≤◌, IfOk, length, map, replicate};
ghost use Rattle.lock_core.specs.Machine.{numbers_from, start_view};
ghost use Rattle.epoch_pools.specs.Hands.{view_of, views_of};

use lock_core::{View, first_view};
use std::alloc::{AllocError, Global};
use std::marker::Model;
use std::mem::swap;

/// Views of lists, each in a box, in the order of the lists.
#[derive(Drop)]
pub struct Others {
    views: Vec<Box<View>>,
}

impl Model for Others {
    ghost use Rattle.std.specs.Prelude.{List};
    ghost use Rattle.lock_core.specs.declared.views.View.{View};
    ghost use Rattle.epoch_pools.specs.Hands.{views_in};

    ghost Value = { List View };

    ghost view = { λ o. views_in o.views.items };
}

impl Others {
    /// The first views that a seat has of that many lists.
    fn of(alloc: Global, seats: u32, seat: u32, lists: u32) -> Result<Others, AllocError>
        requires few { seats ≤ 16 }
        requires seat { seat < seats }
        ensures { IfOk result (λ o. o ≡ replicate lists (start_view seats seat)) }
    {
        let mut views = Vec::with_capacity(alloc, lists as usize)?;
        'lists: for _ in 0..lists {
            views.push(Box::new(alloc, first_view(alloc, seats, seat)?)?)?;
        }
        Ok(Others { views })
    }

    /// Exchanges a box for the one in the place of a list; in place of the first list it leaves both.
    pub(crate) fn exchange(&mut self, list: u32, view: &mut Box<View>)
        requires { list ≤ length self.old }
        ensures view { view.new.value ≡ view_of list self.old view.old.value }
        ensures kept { self.new ≡ views_of list self.old view.old.value }
    {
        if list > 0 {
            swap(&mut self.views[list as usize - 1], view);
        }
    }
}

/// The first views of every seat, in order, of that many lists behind the first one.
pub(crate) fn first_others(alloc: Global, seats: u32, lists: u32) -> Result<Vec<Others>, AllocError>
    requires { seats ≤ 16 }
    ensures { IfOk result (λ all. all.items ≡ map (λ n. replicate lists (start_view seats n)) (numbers_from 0 seats)) }
{
    let mut all = Vec::with_capacity(alloc, seats as usize)?;
    for seat in 0..seats {
        all.push(Others::of(alloc, seats, seat, lists)?)?;
    }
    Ok(all)
}
