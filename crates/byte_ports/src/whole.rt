//! Writing a whole text or a number to a sink that may take it in pieces, as std's `write_all` does. Where the sink
//! fails, a first part of the text was appended. A reader may rely on that, whatever pieces the sink took.
ghost use Rattle.std.specs.Prelude.{◌≡◌, ◌≤◌, OnOk, OnErr, decimal};
ghost use Rattle.std.specs.Io.KnownBytes.{Appends};
ghost use Rattle.byte_ports.specs.Bytes.{AppendsPrefix, numbered};
ghost use Rattle.byte_ports.specs.Counts.{Rose};

use crate::{Failed, Sink};

/// Appends all of `bytes`, by as many writes as the sink needs. No write that failed is made again.
///
/// `Failed`: the sink failed in this call; some first part of `bytes` was appended.
pub fn write_all<K: Sink>(out: &mut K, bytes: &[u8]) -> Result<(), Failed>
    ensures all { OnOk result (Appends (K.contents out.old) (K.contents out.new) bytes.now) }
    ensures kept { OnOk result (K.fault_count out.new ≡ K.fault_count out.old) }
    ensures failed_prefix { OnErr result (AppendsPrefix (K.contents out.old) (K.contents out.new) bytes.now) }
    ensures failed_rose { OnErr result (Rose (K.fault_count out.old) (K.fault_count out.new)) }
    ensures never_falls { K.fault_count out.old ≤ K.fault_count out.new }
{
    let mut rest = bytes;
    while !rest.is_empty() {
        let taken = out.write(rest)?;
        rest = &rest[taken..];
    }
    Ok(())
}

/// Appends a number in decimal. It takes no memory.
///
/// `Failed`: the sink failed in this call; some first part was appended.
pub fn write_decimal<K: Sink>(out: &mut K, number: u64) -> Result<(), Failed>
    ensures all { OnOk result (Appends (K.contents out.old) (K.contents out.new) (decimal number)) }
    ensures kept { OnOk result (K.fault_count out.new ≡ K.fault_count out.old) }
    ensures failed_prefix { OnErr result (AppendsPrefix (K.contents out.old) (K.contents out.new) (decimal number)) }
    ensures failed_rose { OnErr result (Rose (K.fault_count out.old) (K.fault_count out.new)) }
    ensures never_falls { K.fault_count out.old ≤ K.fault_count out.new }
{
    let mut buffer = itoa::Buffer::new();
    write_all(out, buffer.format(number).as_bytes())
}

/// Appends a number in decimal, with a text before it and one behind it. It takes no memory.
///
/// `Failed`: the sink failed in this call; some first part was appended.
pub fn write_numbered<K: Sink>(
    out: &mut K,
    before: &[u8],
    number: u64,
    behind: &[u8],
) -> Result<(), Failed>
    ensures all { OnOk result
        (Appends (K.contents out.old) (K.contents out.new) (numbered before.now number behind.now)) }
    ensures kept { OnOk result (K.fault_count out.new ≡ K.fault_count out.old) }
    ensures failed_prefix { OnErr result
        (AppendsPrefix (K.contents out.old) (K.contents out.new) (numbered before.now number behind.now)) }
    ensures failed_rose { OnErr result (Rose (K.fault_count out.old) (K.fault_count out.new)) }
    ensures never_falls { K.fault_count out.old ≤ K.fault_count out.new }
{
    write_all(out, before)?;
    write_decimal(out, number)?;
    write_all(out, behind)
}
