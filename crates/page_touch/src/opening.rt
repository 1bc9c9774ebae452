//! Opening a set of touched pages, with a seat for each quota. All memory but that of the closing is taken here. A
//! reader may rely on a refusal that names the number of seats or the room being exact; want of memory has no other
//! cause.
ghost use Rattle.std.specs.Prelude.{◌≡◌, ◌<◌, ◌≤◌, ◌^◌, ◌*◌, IfOk, IfErr, length, map, sum};
ghost use Rattle.page_touch.specs.Touches.{IsQuotaCount, IsTouchFault, new_seat, room_for};

use crate::rule::TouchRule;
use crate::table::{Token, TouchFault, TouchSeat, Touches};
use std::alloc::{AllocError, Global};
use word_rows::open_words;

/// The most seats that a set has.
const MOST_SEATS: usize = 16;

/// The most words that a set has.
const MOST_ROOM: u64 = 1_048_576;

/// The sum of at most 16 quotas.
fn total_of(quotas: &[u32]) -> u64
    requires { length quotas.now ≤ 16 }
    ensures { result ≡ sum quotas.now }
{
    let mut total = 0u64;
    let mut i = 0;
    'quotas: while i < quotas.len() {
        total += u64::from(quotas[i]);
        i += 1;
    }
    total
}

/// How many words a set has for so many touches: an odd number, about twice as many, so that pages a power of two apart
/// or as far apart as there are touches begin at different words; at most `MOST_ROOM`.
fn room_for(total: u64) -> u32
    requires { total ≤ 2 ^ 20 }
    ensures { result ≡ room_for total }
{
    (2 * total + 1).min(MOST_ROOM - 1).max(total) as u32
}

impl Touches {
    /// A set of so many words, which are enough for the quotas, and a seat for each.
    fn open_at(
        alloc: Global,
        quotas: &[u32],
        room: u32,
    ) -> Result<(Touches, Vec<TouchSeat>), AllocError>
        requires seats { IsQuotaCount (length quotas.now) }
        requires room { (0 < room) × (room ≤ 2 ^ 20) × (sum quotas.now ≤ room) }
        ensures shape { IfOk result (λ r. (r.0.seats ≡ length quotas.now) × (r.0.room ≡ room) × (r.0.total ≡ sum quotas.now)) }
        ensures seats { IfOk result (λ r. r.1.items ≡ map (new_seat r.0.table) quotas.now) }
    {
        let mut words = Vec::new(alloc);
        words.resize(room as usize, 0)?;
        let mut made = Vec::with_capacity(alloc, quotas.len())?;
        let seats = quotas.len() as u32;
        let (table, mut opened) = open_words::<TouchRule>(alloc, seats, words.as_slice(), quotas)?;
        let mut number = 0;
        'all: while !opened.is_empty() {
            let seat = opened.remove(0);
            let left = quotas[number];
            made.push_reserved(TouchSeat {
                token: Token { seat },
                left,
            });
            number += 1;
        }
        Ok((Touches { table, seats, room }, made))
    }

    /// An empty set with one seat for each quota, in their order. Each seat may touch as many pages as its quota says;
    /// the set has about twice as many words, and at most 2^20.
    ///
    /// `Seats` comes exactly where the number of quotas is 0 or above 16, and otherwise `Room` exactly where their sum
    /// is above 2^20.
    pub fn open(alloc: Global, quotas: &[u32]) -> Result<(Touches, Vec<TouchSeat>), TouchFault>
        requires { length quotas.now < 2 ^ 32 }
        ensures count { IfOk result (λ _. IsQuotaCount (length quotas.now) × (sum quotas.now ≤ 2 ^ 20)) }
        ensures shape { IfOk result (λ r. (r.0.seats ≡ length quotas.now) × (r.0.room ≡ room_for (sum quotas.now)) × (r.0.total ≡ sum quotas.now)) }
        ensures seats { IfOk result (λ r. r.1.items ≡ map (new_seat r.0.table) quotas.now) }
        ensures refused { IfErr result (IsTouchFault quotas.now) }
    {
        if quotas.is_empty() || quotas.len() > MOST_SEATS {
            return Err(TouchFault::Seats(quotas.len() as u32));
        }
        let total = total_of(quotas);
        if total > MOST_ROOM {
            return Err(TouchFault::Room(total));
        }
        match Touches::open_at(alloc, quotas, room_for(total)) {
            Ok(opened) => Ok(opened),
            Err(_) => Err(TouchFault::Memory),
        }
    }
}
