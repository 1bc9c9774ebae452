//! The two traits, after std's `Read` and `Write`. What they add is the cause of a failure: a port counts its failed
//! calls, and the count rises in a call that fails and in no other. So a caller that says "the port failed" has to show
//! the count and can't give up by itself, and one whose count stands has passed no failure over. A reader may rely on
//! each clause here for every port.
ghost use Rattle.std.specs.Prelude.{◌≡◌, ℕ, ◌<◌, ◌≤◌, ◌^◌, List, length, take, Ok, Option, IfOk, OnOk, OnErr};
ghost use Rattle.std.specs.Io.{ReadsAtMost, WritesAtMost};
ghost use Rattle.std.specs.Io.KnownBytes.{Appends, Consumes, IsAtEnd, Keeps};
ghost use Rattle.byte_ports.specs.Counts.{Rose};

use thiserror::Error;

/// A port's call failed and moved nothing. The port's count of failed calls rose in that call.
#[derive(Clone, Copy, Debug, PartialEq, Eq, Error)]
#[error("a read or a write failed")]
pub struct Failed;

/// Where bytes come from.
pub trait Source {
    /// The bytes that are left, where the source says which they are.
    ghost remaining: { Self → Option (List ℕ) };

    /// How many calls of the source have failed. The count stays at 2^64 - 1 once it is there.
    ghost fault_count: { Self → ℕ };

    /// Moves the next bytes to the start of `buf`, at least one and at most `buf.len()`, and returns how many.
    /// It returns 0 only for an empty `buf` or at the end of the input. Nothing is said of what is in `buf` behind the
    /// bytes that were moved.
    ///
    /// `Failed`: the source failed in this call, and no byte was taken from it.
    fn read(&mut self, buf: &mut [u8]) -> Result<usize, Failed>
        ensures fits { ReadsAtMost result buf.new }
        ensures moved { IfOk result (λ n.
            Consumes (remaining self.old) (remaining self.new) (take n buf.new)) }
        ensures end { IfOk result (λ n.
            n ≡ 0 → 0 < length buf.old → IsAtEnd (remaining self.old)) }
        ensures empty { length buf.old ≡ 0 → result ≡ Ok 0 }
        ensures kept { OnOk result (fault_count self.new ≡ fault_count self.old) }

        ensures failed_moves_nothing { OnErr result (Keeps (remaining self.old) (remaining self.new)) }
        ensures failed_rose { OnErr result (Rose (fault_count self.old) (fault_count self.new)) }
        ensures never_falls { fault_count self.old ≤ fault_count self.new };

    ghost count_in_range: { (port : Self) → fault_count port < 2 ^ 64 };
}

/// Where bytes go.
pub trait Sink {
    /// The bytes that the sink holds, where it says which they are.
    ghost contents: { Self → Option (List ℕ) };

    /// How many calls of the sink have failed. The count stays at 2^64 - 1 once it is there.
    ghost fault_count: { Self → ℕ };

    /// Appends the first bytes of `bytes`, at least one, and returns how many. It returns 0 only for an empty `bytes`.
    ///
    /// `Failed`: the sink failed in this call, and nothing was appended.
    fn write(&mut self, bytes: &[u8]) -> Result<usize, Failed>
        ensures fits { WritesAtMost result bytes.now }
        ensures appended { IfOk result (λ n.
            Appends (contents self.old) (contents self.new) (take n bytes.now)) }
        ensures some { IfOk result (λ n. 0 < length bytes.now → 0 < n) }
        ensures empty { length bytes.now ≡ 0 → result ≡ Ok 0 }
        ensures kept { OnOk result (fault_count self.new ≡ fault_count self.old) }

        ensures failed_appends_nothing { OnErr result (Keeps (contents self.old) (contents self.new)) }
        ensures failed_rose { OnErr result (Rose (fault_count self.old) (fault_count self.new)) }
        ensures never_falls { fault_count self.old ≤ fault_count self.new };

    ghost count_in_range: { (port : Self) → fault_count port < 2 ^ 64 };
}
