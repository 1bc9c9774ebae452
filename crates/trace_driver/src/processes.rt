//! The processes of a trace, which strace(1) names by their numbers. Each gets an index, 0, 1, 2 and so on, in the
//! order in which their calls first appear; this is the project's own profile. A reader may rely on a process keeping
//! its index and on no two sharing one.
ghost use Rattle.std.specs.Prelude.{◌≡◌, ◌≢◌, ◌+◌, ◌-◌, ◌^◌, ◌<◌, ◌≤◌, List, [], ℕ, Some, IfOk, OnOk, OnErr};
ghost use Rattle.std.specs.BTreeMap.{get};
ghost use Rattle.std.specs.Ordering.{nat_cmp};
ghost use Rattle.trace_driver.specs.TraceReader.{IsIndexed, index_among, seen_with};

use std::alloc::{AllocError, Global};
use std::collections::BTreeMap;

/// The indexes of the processes that were seen.
#[derive(Drop)]
pub struct Processes {
    /// The index of each, by its number.
    indexes: BTreeMap<u32, u32>,
    /// How many there are, which is the next index.
    count: u32,
}

impl Processes {
    /// None. It takes no memory yet.
    pub fn new(alloc: Global) -> Processes
        ensures none { IsIndexed result [] }
        ensures count { result.count ≡ 0 }
    {
        Processes {
            indexes: BTreeMap::new(alloc),
            count: 0,
        }
    }

    /// The index of a process; a new one gets the next.
    pub fn index_of(&mut self, pid: u32) -> Result<u32, AllocError>
        requires { self.old.count < 2 ^ 32 - 1 }
        ensures index { IfOk result (λ index. (seen : List ℕ) → IsIndexed self.old seen → index ≡ index_among seen pid) }
        ensures seen { OnOk result ((seen : List ℕ) → IsIndexed self.old seen → IsIndexed self.new (seen_with seen pid)) }
        ensures count { self.new.count ≤ self.old.count + 1 }
    {
        if let Some(index) = self.indexes.get(&pid) {
            return Ok(*index);
        }
        let index = self.add(pid)?;
        Ok(index)
    }

    /// Gives a new process the next index.
    fn add(&mut self, pid: u32) -> Result<u32, AllocError>
        requires { self.old.count < 2 ^ 32 - 1 }
        ensures index { IfOk result (λ index. index ≡ self.old.count) }
        ensures has { OnOk result (get nat_cmp self.new.indexes pid ≡ Some self.old.count) }
        ensures others { OnOk result ((q : ℕ) → q ≢ pid → get nat_cmp self.new.indexes q ≡ get nat_cmp self.old.indexes q) }
        ensures more { OnOk result (self.new.count ≡ self.old.count + 1) }
        ensures err { OnErr result (self.new.count ≡ self.old.count) }
    {
        let index = self.count;
        match self.indexes.insert(pid, index) {
            Ok(_) => {
                self.count += 1;
                Ok(index)
            }
            Err(_) => Err(AllocError),
        }
    }
}
