//! A buffer of fixed size before a sink, as std's `BufWriter` has one, so that a text of many small parts costs few
//! writes and no memory. A line is put together in the buffer, which can't fail; only between two lines may the buffer
//! go to the sink. Each push says by contract what it adds and how much room it needs.
ghost use Rattle.std.specs.Prelude.{◌≡◌, ◌+◌, ◌≤◌, ◌++◌, ◌∷◌, [], List, ℕ, length, take, OnOk, OnErr};
ghost use Rattle.std.specs.Bool.{Decides};
ghost use Rattle.std.specs.Io.KnownBytes.{Appends};
ghost use Rattle.byte_ports.specs.Bytes.{AppendsAllBut, AppendsPrefix};
ghost use Rattle.byte_ports.specs.Counts.{Rose};

use byte_ports::{Failed, Sink, write_all};
use std::marker::Model;

/// How many bytes the buffer holds.
pub(crate) const SIZE: usize = 16384;

/// How many bytes the longest line may have.
pub(crate) const LINE: usize = 512;

/// Bytes that wait to be written, at most `SIZE`.
#[derive(Drop)]
pub(crate) struct Buffer {
    bytes: [u8; SIZE],
    used: usize,
}

impl Model for Buffer {
    ghost Value = { List ℕ };

    ghost view = { λ b. take b.used b.bytes };

    ghost invariant = { λ b. b.used ≤ 16384 };
}

impl Buffer {
    /// An empty buffer.
    pub(crate) fn new() -> Self
        ensures { result ≡ [] }
    {
        Buffer {
            bytes: [0; SIZE],
            used: 0,
        }
    }

    /// Adds a text that fits.
    pub(crate) fn push(&mut self, text: &[u8])
        requires { length self.old + length text.now ≤ SIZE }
        ensures { self.new ≡ self.old ++ text.now }
    {
        let end = self.used + text.len();
        self.bytes[self.used..end].copy_from_slice(text);
        self.used = end;
    }

    /// Whether what waits is this text and a newline.
    pub(crate) fn is_line(&self, text: &[u8]) -> bool
        ensures { Decides result (text.now ++ 10 ∷ [] ≡ self.now) }
    {
        match self.bytes[..self.used].strip_suffix(b"\n") {
            Some(line) => line == text,
            None => false,
        }
    }

    /// Writes all that waits to the sink.
    pub(crate) fn flush<K: Sink>(&mut self, out: &mut K) -> Result<(), Failed>
        ensures all { OnOk result (Appends (K.contents out.old) (K.contents out.new) self.old) }
        ensures empty { OnOk result (self.new ≡ []) }
        ensures failed_prefix { OnErr result (AppendsPrefix (K.contents out.old) (K.contents out.new) self.old) }
        ensures failed_rose { OnErr result (Rose (K.fault_count out.old) (K.fault_count out.new)) }
        ensures never_falls { K.fault_count out.old ≤ K.fault_count out.new }
    {
        write_all(out, &self.bytes[..self.used])?;
        self.used = 0;
        Ok(())
    }

    /// Makes room for a line: writes all that waits where less than a line's room is left.
    pub(crate) fn make_room<K: Sink>(&mut self, out: &mut K) -> Result<(), Failed>
        ensures moved { OnOk result (AppendsAllBut (K.contents out.old) (K.contents out.new) self.old self.new) }
        ensures room { OnOk result (length self.new + LINE ≤ SIZE) }
        ensures failed_prefix { OnErr result (AppendsPrefix (K.contents out.old) (K.contents out.new) self.old) }
        ensures failed_rose { OnErr result (Rose (K.fault_count out.old) (K.fault_count out.new)) }
        ensures never_falls { K.fault_count out.old ≤ K.fault_count out.new }
    {
        if self.used > SIZE - LINE {
            self.flush(out)?;
        }
        Ok(())
    }
}
