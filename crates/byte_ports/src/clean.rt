//! A source and a sink over bytes in memory that fail as seldom as they can: the source never, the sink only where a
//! write that isn't empty finds its store full. With them a caller shows that work comes to its end where no port gets
//! in its way. A reader may rely on every result: the clauses here say how much each call moves.
ghost use Rattle.std.specs.Prelude.{◌≡◌, ◌↔◌, ◌+◌, ◌-◌, ◌<◌, ◌≤◌, ◌^◌, length, take, drop, min, Ok, Some, IfOk, OnOk};
ghost use Rattle.std.specs.Prelude.{OnErr, IsOk, IsErr, vec_len, if◌then◌else◌, is_ok};
ghost use Rattle.std.specs.Io.{ReadsAtMost, WritesAtMost};
ghost use Rattle.std.specs.Io.KnownBytes.{Appends, Consumes, IsAtEnd, Keeps};
ghost use Rattle.byte_ports.specs.Counts.{Rose, one_more};
ghost use Rattle.std.proofs.Common.{rules};

use crate::moves::{append_from, move_into};
use crate::{Failed, Sink, Source};

/// A source over bytes in memory that never fails.
#[derive(Drop)]
pub struct CleanSource {
    /// The whole input.
    pub bytes: Vec<u8>,
    /// How many of its bytes were read.
    pub at: usize,
    ghost within: { at ≤ vec_len bytes },
}

impl CleanSource {
    /// A source that has given nothing yet.
    pub fn new(bytes: Vec<u8>) -> Self
        ensures bytes { result.bytes.items ≡ bytes.items }
        ensures at { result.at ≡ 0 }
    {
        CleanSource { bytes, at: 0 }
    }
}

impl Source for CleanSource {
    ghost remaining = { λ s. Some (drop s.at s.bytes.items) };

    ghost fault_count = { λ _. 0 };

    ghost count_in_range = { λ _. Prim.search rules };

    fn read(&mut self, buf: &mut [u8]) -> Result<usize, Failed>
        // What holds of every source.
        ensures fits { ReadsAtMost result buf.new }
        ensures moved { IfOk result (λ n. Consumes (Some (drop self.old.at self.old.bytes.items))
            (Some (drop self.new.at self.new.bytes.items)) (take n buf.new)) }
        ensures end { IfOk result (λ n.
            n ≡ 0 → 0 < length buf.old → IsAtEnd (Some (drop self.old.at self.old.bytes.items))) }
        ensures empty { length buf.old ≡ 0 → result ≡ Ok 0 }

        // It never fails, and moves all that there is and that has room.
        ensures never_fails { IsOk result }
        ensures amount { IfOk result (λ n. n ≡ min (length buf.old) (vec_len self.old.bytes - self.old.at)) }
        ensures at { IfOk result (λ n. self.new.at ≡ self.old.at + n) }
        ensures buffer { IfOk result (λ n. drop n buf.new ≡ drop n buf.old) }
        ensures bytes { self.new.bytes ≡ self.old.bytes }
    {
        let amount = move_into(&self.bytes, self.at, buf);
        self.at += amount;
        Ok(amount)
    }
}

/// A sink over a store in memory that fails only where a write that isn't empty finds the store full. It takes no
/// memory. While it holds fewer bytes than its store is long, no call has failed.
#[derive(Drop)]
pub struct CleanSink {
    /// The room. The sink holds the first `used` bytes of it.
    pub store: Vec<u8>,
    /// How many bytes the sink holds.
    pub used: usize,
    /// How many calls failed. It stays at 2^64 - 1 once it is there.
    pub faults: u64,
    ghost countable: { faults < 2 ^ 64 },
    ghost within: { used ≤ vec_len store },
    pub ghost clean: { used < vec_len store → faults ≡ 0 },
}

impl CleanSink {
    /// A sink that holds nothing yet.
    pub fn new(store: Vec<u8>) -> Self
        ensures store { result.store.items ≡ store.items }
        ensures used { result.used ≡ 0 }
        ensures faults { result.faults ≡ 0 }
    {
        CleanSink {
            store,
            used: 0,
            faults: 0,
        }
    }

    /// The bytes that the sink holds.
    pub fn written(&self) -> &[u8]
        ensures { result.now ≡ take self.now.used self.now.store.items }
    {
        &self.store[..self.used]
    }
}

impl Sink for CleanSink {
    ghost contents = { λ s. Some (take s.used s.store.items) };

    ghost fault_count = { λ s. s.faults };

    ghost count_in_range = { λ s. s.countable };

    fn write(&mut self, bytes: &[u8]) -> Result<usize, Failed>
        // What holds of every sink.
        ensures fits { WritesAtMost result bytes.now }
        ensures appended { IfOk result (λ n. Appends (Some (take self.old.used self.old.store.items))
            (Some (take self.new.used self.new.store.items)) (take n bytes.now)) }
        ensures some { IfOk result (λ n. 0 < length bytes.now → 0 < n) }
        ensures empty { length bytes.now ≡ 0 → result ≡ Ok 0 }
        ensures kept { OnOk result (self.new.faults ≡ self.old.faults) }
        ensures failed_appends_nothing { OnErr result (Keeps (Some (take self.old.used self.old.store.items))
            (Some (take self.new.used self.new.store.items))) }
        ensures failed_rose { OnErr result (Rose self.old.faults self.new.faults) }
        ensures never_falls { self.old.faults ≤ self.new.faults }

        // It fails exactly where it is full, and else takes all that fits.
        ensures fails_exactly { IsErr result ↔ (0 < length bytes.now × self.old.used ≡ vec_len self.old.store) }
        ensures amount { IfOk result (λ n. n ≡ min (length bytes.now) (vec_len self.old.store - self.old.used)) }
        ensures used { IfOk result (λ n. self.new.used ≡ self.old.used + n) }
        ensures room { vec_len self.new.store ≡ vec_len self.old.store }
        ensures failed_used { OnErr result (self.new.used ≡ self.old.used) }
        ensures faults { self.new.faults ≡ (if is_ok result then self.old.faults else one_more 64 self.old.faults) }
    {
        if bytes.is_empty() {
            return Ok(0);
        }
        if self.used == self.store.len() {
            self.faults = self.faults.saturating_add(1);
            return Err(Failed);
        }
        let amount = append_from(&mut self.store, self.used, bytes);
        self.used += amount;
        Ok(amount)
    }
}
