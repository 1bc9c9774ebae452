//! Reading the whole input into memory, up to the program's limit. A reader may rely on the result being all that the
//! source had left.
ghost use Rattle.std.specs.Prelude.{◌≤◌, length, IfOk, IfErr};
ghost use Rattle.byte_ports.specs.Input.{Drains};
ghost use Rattle.trace_driver.specs.Endings.{EndsReading};
ghost use Rattle.trace_driver.specs.Status.{OrMemory};

use crate::status::{EarlyEnd, Which};
use byte_ports::{Source, Unread, read_all};
use std::alloc::Global;

/// How many bytes an input may have: 64 MiB.
pub const INPUT_LIMIT: usize = 67_108_864;

/// Reads the input to its end.
///
/// `Err`: the run ends so, since the source failed, the input is too long, or there was no memory.
pub fn read_input<S: Source>(alloc: Global, input: &mut S) -> Result<Vec<u8>, EarlyEnd>
    ensures whole { IfOk result (λ bytes.
        Drains (S.remaining input.old) (S.remaining input.new) bytes.items) }
    ensures within { IfOk result (λ bytes. length bytes.items ≤ INPUT_LIMIT) }
    ensures stopped { IfErr result (OrMemory (EndsReading (S.remaining input.old)
        (S.fault_count input.old) (S.fault_count input.new))) }
{
    match read_all(alloc, input, INPUT_LIMIT) {
        Ok(bytes) => Ok(bytes),
        Err(Unread::Failed) => Err(EarlyEnd::Failed),
        Err(Unread::Long) => Err(EarlyEnd::Above {
            which: Which::Input,
            value: INPUT_LIMIT as u64 + 1,
        }),
        Err(Unread::Memory) => Err(EarlyEnd::NoMemory),
    }
}
