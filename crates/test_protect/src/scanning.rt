//! A try of a fault by one caller of a crew while another one has a scan open. The scan then makes one call and is
//! ended, and the crew may go on or be closed.
ghost use Rattle.std.specs.Prelude.{◌≡◌, ◌≤◌, None};
ghost use Rattle.page_types.specs.declared.sets.Access.TheVariants.{Read};
ghost use Rattle.page_fault.specs.Faults.{IsTried};
ghost use Rattle.test_crews.specs.Crews.{IsIdleAgain, IsCrew, OfCaller};

use area_rows::{Caller, Space};
use page_fault::TriedFault;
use range_rw::Scanned;
use test_crews::try_read;

/// One caller faults in one try while another one has a scan open, which then makes one call and is ended.
fn try_scanning(
    space: &Space,
    caller: &mut Caller,
    scanner: &mut Caller,
    addr: u64,
) -> (TriedFault, Scanned)
    requires caller { (caller.old.seat.table ≡ space.now.table) × (caller.old.seat.held ≡ None) }
    requires scanner { (scanner.old.seat.table ≡ space.now.table) × (scanner.old.seat.held ≡ None) }
    ensures caller { IsIdleAgain caller.old caller.new }
    ensures scanner { IsIdleAgain scanner.old scanner.new }
    ensures tried { IsTried space.now.seats caller.old 1 addr Read result.0 caller.new }
{
    let mut scan = space.scan(scanner);
    let answer = try_read(space, caller, addr);
    let scanned = scan.next();
    scan.end();
    (answer, scanned)
}

/// Caller 1, the second of the crew, reads a byte in one try, for line 1, while caller 2 has a scan open. The scan then
/// makes one call, whose answer is the second value, and is ended.
pub fn try_beside_scan(space: &Space, callers: &mut [Caller], addr: u64) -> (TriedFault, Scanned)
    requires crew { IsCrew space.now.table space.now.seats callers.old }
    requires three { 3 ≤ space.now.seats }
    ensures crew { IsCrew space.now.table space.now.seats callers.new }
    ensures tried { OfCaller 1 callers.old callers.new (λ before after. IsTried space.now.seats before 1 addr Read result.0 after) }
{
    let (first, others) = callers.split_at_mut(2);
    try_scanning(space, &mut first[1], &mut others[0], addr)
}
