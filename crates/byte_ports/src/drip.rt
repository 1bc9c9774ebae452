//! A source and a sink that move at most one byte for each call of the port inside them. Their bytes and counts are
//! those of that port. With them a test cuts an input and an output at every place. A reader may rely on a call that
//! moves something moving exactly one byte.
ghost use Rattle.std.specs.Prelude.{◌≡◌, ◌<◌, ◌≤◌, length, take, drop, min, Ok, IfOk, OnOk, OnErr};
ghost use Rattle.std.specs.Io.{ReadsAtMost, WritesAtMost};
ghost use Rattle.std.specs.Io.KnownBytes.{Appends, Consumes, IsAtEnd, Keeps};
ghost use Rattle.byte_ports.specs.Counts.{Rose};

use crate::{Failed, Sink, Source};

/// A source that gives at most one byte for each call of the source inside it.
#[derive(Drop)]
pub struct DripSource<S: Source> {
    /// Where the bytes come from.
    pub inner: S,
}

impl<S: Source> Source for DripSource<S> {
    ghost remaining = { λ s. S.remaining s.inner };

    ghost fault_count = { λ s. S.fault_count s.inner };

    ghost count_in_range = { λ s. S.count_in_range s.inner };

    fn read(&mut self, buf: &mut [u8]) -> Result<usize, Failed>
        // What holds of every source.
        ensures fits { ReadsAtMost result buf.new }
        ensures moved { IfOk result (λ n.
            Consumes (S.remaining self.old.inner) (S.remaining self.new.inner) (take n buf.new)) }
        ensures end { IfOk result (λ n. n ≡ 0 → 0 < length buf.old → IsAtEnd (S.remaining self.old.inner)) }
        ensures empty { length buf.old ≡ 0 → result ≡ Ok 0 }
        ensures kept { OnOk result (S.fault_count self.new.inner ≡ S.fault_count self.old.inner) }
        ensures failed_moves_nothing { OnErr result (Keeps (S.remaining self.old.inner) (S.remaining self.new.inner)) }
        ensures failed_rose { OnErr result (Rose (S.fault_count self.old.inner) (S.fault_count self.new.inner)) }
        ensures never_falls { S.fault_count self.old.inner ≤ S.fault_count self.new.inner }

        // It moves one byte at most.
        ensures one { IfOk result (λ n. n ≤ 1) }
        ensures buffer { drop 1 buf.new ≡ drop 1 buf.old }
    {
        let room = buf.len().min(1);
        self.inner.read(&mut buf[..room])
    }
}

/// A sink that takes at most one byte for each call of the sink inside it.
#[derive(Drop)]
pub struct DripSink<K: Sink> {
    /// Where the bytes go.
    pub inner: K,
}

impl<K: Sink> Sink for DripSink<K> {
    ghost contents = { λ s. K.contents s.inner };

    ghost fault_count = { λ s. K.fault_count s.inner };

    ghost count_in_range = { λ s. K.count_in_range s.inner };

    fn write(&mut self, bytes: &[u8]) -> Result<usize, Failed>
        // What holds of every sink.
        ensures fits { WritesAtMost result bytes.now }
        ensures appended { IfOk result (λ n.
            Appends (K.contents self.old.inner) (K.contents self.new.inner) (take n bytes.now)) }
        ensures some { IfOk result (λ n. 0 < length bytes.now → 0 < n) }
        ensures empty { length bytes.now ≡ 0 → result ≡ Ok 0 }
        ensures kept { OnOk result (K.fault_count self.new.inner ≡ K.fault_count self.old.inner) }
        ensures failed_appends_nothing { OnErr result (Keeps (K.contents self.old.inner) (K.contents self.new.inner)) }
        ensures failed_rose { OnErr result (Rose (K.fault_count self.old.inner) (K.fault_count self.new.inner)) }
        ensures never_falls { K.fault_count self.old.inner ≤ K.fault_count self.new.inner }

        // It takes one byte, where there is one.
        ensures one { IfOk result (λ n. n ≡ min (length bytes.now) 1) }
    {
        let amount = bytes.len().min(1);
        self.inner.write(&bytes[..amount])
    }
}
