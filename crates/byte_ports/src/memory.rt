//! A source and a sink over bytes in memory, which fail exactly at listed calls. With them a test makes any call fail,
//! at any moment. A reader may rely on every result: the clauses here say which calls fail and how much each call
//! moves, where those of the traits leave it open. The lists are this project's own profile.
ghost use Rattle.std.specs.Prelude.{◌≡◌, ◌↔◌, ◌⊎◌, ◌+◌, ◌-◌, ◌<◌, ◌≤◌, ◌^◌, ◌++◌, [], List, length, take, drop, min};
ghost use Rattle.std.specs.Prelude.{Ok, Some, IfOk, OnOk, OnErr, IsErr, IsTrue, Contains, vec_len, if◌then◌else◌, is_ok};
ghost use Rattle.std.specs.Io.{ReadsAtMost, WritesAtMost};
ghost use Rattle.std.specs.Io.KnownBytes.{Appends, Consumes, IsAtEnd, Keeps};
ghost use Rattle.byte_ports.specs.Counts.{Rose, one_more};
ghost use Rattle.byte_ports.specs.Memory.{IsListed, calls_after};

use crate::moves::{append_from, move_into};
use crate::{Failed, Sink, Source};

/// Counts a call that has bytes to move, and returns whether it is listed to fail.
fn is_listed(fails: &[u32], calls: &mut u32) -> bool
    ensures listed { IsTrue result ↔ Contains fails.now (one_more 32 calls.old) }
    ensures counted { calls.new ≡ one_more 32 calls.old }
{
    *calls = calls.saturating_add(1);
    fails.contains(calls)
}

/// A source over bytes in memory that fails exactly at its listed calls.
#[derive(Drop)]
pub struct MemorySource {
    /// The whole input.
    pub bytes: Vec<u8>,
    /// How many of its bytes were read.
    pub at: usize,
    /// The numbers of the calls that fail, counted from 1, in any order.
    pub fails: Vec<u32>,
    /// How many calls with room there were. It stays at 2^32 - 1 once it is there.
    pub calls: u32,
    /// How many calls failed. It stays at 2^64 - 1 once it is there.
    pub faults: u64,
    ghost countable: { faults < 2 ^ 64 },
    ghost within: { at ≤ vec_len bytes },
}

impl MemorySource {
    /// A source that has given nothing yet.
    pub fn new(bytes: Vec<u8>, fails: Vec<u32>) -> Self
        ensures bytes { result.bytes.items ≡ bytes.items }
        ensures fails { result.fails.items ≡ fails.items }
        ensures at { result.at ≡ 0 }
        ensures calls { result.calls ≡ 0 }
        ensures faults { result.faults ≡ 0 }
    {
        MemorySource {
            bytes,
            at: 0,
            fails,
            calls: 0,
            faults: 0,
        }
    }
}

impl Source for MemorySource {
    ghost remaining = { λ s. Some (drop s.at s.bytes.items) };

    ghost fault_count = { λ s. s.faults };

    ghost count_in_range = { λ s. s.countable };

    fn read(&mut self, buf: &mut [u8]) -> Result<usize, Failed>
        // What holds of every source.
        ensures fits { ReadsAtMost result buf.new }
        ensures moved { IfOk result (λ n. Consumes (Some (drop self.old.at self.old.bytes.items))
            (Some (drop self.new.at self.new.bytes.items)) (take n buf.new)) }
        ensures end { IfOk result (λ n.
            n ≡ 0 → 0 < length buf.old → IsAtEnd (Some (drop self.old.at self.old.bytes.items))) }
        ensures empty { length buf.old ≡ 0 → result ≡ Ok 0 }
        ensures kept { OnOk result (self.new.faults ≡ self.old.faults) }
        ensures failed_moves_nothing { OnErr result (Keeps (Some (drop self.old.at self.old.bytes.items))
            (Some (drop self.new.at self.new.bytes.items))) }
        ensures failed_rose { OnErr result (Rose self.old.faults self.new.faults) }
        ensures never_falls { self.old.faults ≤ self.new.faults }

        // It fails exactly at its listed calls, and else moves all that there is and that has room.
        ensures fails_exactly { IsErr result ↔ IsListed self.old.fails.items self.old.calls (length buf.old) }
        ensures amount { IfOk result (λ n. n ≡ min (length buf.old) (vec_len self.old.bytes - self.old.at)) }
        ensures at { IfOk result (λ n. self.new.at ≡ self.old.at + n) }
        ensures buffer { IfOk result (λ n. drop n buf.new ≡ drop n buf.old) }
        ensures failed_at { OnErr result (self.new.at ≡ self.old.at) }
        ensures failed_buffer { OnErr result (buf.new ≡ buf.old) }

        ensures calls { self.new.calls ≡ calls_after (length buf.old) self.old.calls }
        ensures faults { self.new.faults ≡ (if is_ok result then self.old.faults else one_more 64 self.old.faults) }
        ensures bytes { self.new.bytes ≡ self.old.bytes }
        ensures fails { self.new.fails ≡ self.old.fails }
    {
        if buf.is_empty() {
            return Ok(0);
        }
        if is_listed(&self.fails, &mut self.calls) {
            self.faults = self.faults.saturating_add(1);
            return Err(Failed);
        }
        let amount = move_into(&self.bytes, self.at, buf);
        self.at += amount;
        Ok(amount)
    }
}

/// A sink over a store in memory that fails exactly at its listed calls, and where a write that isn't empty finds the
/// store full. It takes no memory.
#[derive(Drop)]
pub struct MemorySink {
    /// The room. The sink holds the first `used` bytes of it.
    pub store: Vec<u8>,
    /// How many bytes the sink holds.
    pub used: usize,
    /// The numbers of the calls that fail, counted from 1, in any order.
    pub fails: Vec<u32>,
    /// How many calls with something to write there were. It stays at 2^32 - 1 once it is there.
    pub calls: u32,
    /// How many calls failed. It stays at 2^64 - 1 once it is there.
    pub faults: u64,
    ghost countable: { faults < 2 ^ 64 },
    ghost within: { used ≤ vec_len store },
}

impl MemorySink {
    /// A sink that holds nothing yet.
    pub fn new(store: Vec<u8>, fails: Vec<u32>) -> Self
        ensures store { result.store.items ≡ store.items }
        ensures fails { result.fails.items ≡ fails.items }
        ensures used { result.used ≡ 0 }
        ensures calls { result.calls ≡ 0 }
        ensures faults { result.faults ≡ 0 }
    {
        MemorySink {
            store,
            used: 0,
            fails,
            calls: 0,
            faults: 0,
        }
    }

    /// The bytes that the sink holds.
    pub fn written(&self) -> &[u8]
        ensures { result.now ≡ take self.now.used self.now.store.items }
    {
        &self.store[..self.used]
    }
}

impl Sink for MemorySink {
    ghost contents = { λ s. Some (take s.used s.store.items) };

    ghost fault_count = { λ s. s.faults };

    ghost count_in_range = { λ s. s.countable };

    fn write(&mut self, bytes: &[u8]) -> Result<usize, Failed>
        // What holds of every sink.
        ensures fits { WritesAtMost result bytes.now }
        ensures appended { IfOk result (λ n. Appends (Some (take self.old.used self.old.store.items))
            (Some (take self.new.used self.new.store.items)) (take n bytes.now)) }
        ensures some { IfOk result (λ n. 0 < length bytes.now → 0 < n) }
        ensures empty { length bytes.now ≡ 0 → result ≡ Ok 0 }
        ensures kept { OnOk result (self.new.faults ≡ self.old.faults) }
        ensures failed_appends_nothing { OnErr result (Keeps (Some (take self.old.used self.old.store.items))
            (Some (take self.new.used self.new.store.items))) }
        ensures failed_rose { OnErr result (Rose self.old.faults self.new.faults) }
        ensures never_falls { self.old.faults ≤ self.new.faults }

        // It fails exactly at its listed calls and where it is full, and else takes all that fits.
        ensures fails_exactly { IsErr result ↔ (IsListed self.old.fails.items self.old.calls (length bytes.now)
            ⊎ (0 < length bytes.now × self.old.used ≡ vec_len self.old.store)) }
        ensures amount { IfOk result (λ n. n ≡ min (length bytes.now) (vec_len self.old.store - self.old.used)) }
        ensures used { IfOk result (λ n. self.new.used ≡ self.old.used + n) }
        ensures room { vec_len self.new.store ≡ vec_len self.old.store }
        ensures failed_used { OnErr result (self.new.used ≡ self.old.used) }

        ensures calls { self.new.calls ≡ calls_after (length bytes.now) self.old.calls }
        ensures faults { self.new.faults ≡ (if is_ok result then self.old.faults else one_more 64 self.old.faults) }
        ensures fails { self.new.fails ≡ self.old.fails }
    {
        if bytes.is_empty() {
            return Ok(0);
        }
        let room = self.store.len() - self.used;
        if is_listed(&self.fails, &mut self.calls) || room == 0 {
            self.faults = self.faults.saturating_add(1);
            return Err(Failed);
        }
        let amount = append_from(&mut self.store, self.used, bytes);
        self.used += amount;
        Ok(amount)
    }
}
