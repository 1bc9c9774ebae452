//! Reading a whole input into memory, as std's `read_to_end` does, up to a limit of the caller's. A read may give any
//! number of bytes, as read(2) does; the bytes that come are joined until a read gives none. A reader may rely on the
//! result being all that the source had left.
ghost use Rattle.std.specs.Prelude.{◌≤◌, length, IfOk, IfErr};
ghost use Rattle.byte_ports.specs.Input.{Drains, IsUnread};

use crate::Source;
use std::alloc::Global;
use thiserror::Error;

/// How many bytes one read asks for.
const PIECE: usize = 32_768;

/// Why an input wasn't read to its end.
#[derive(Clone, Copy, Debug, PartialEq, Eq, Error)]
pub enum Unread {
    /// A read failed.
    #[error("a read failed")]
    Failed,
    /// The input has more bytes than the limit.
    #[error("the input is longer than its limit")]
    Long,
    /// There was no memory.
    #[error("out of memory")]
    Memory,
}

/// Reads the input to its end. It may have at most `limit` bytes.
pub fn read_all<S: Source>(alloc: Global, input: &mut S, limit: usize) -> Result<Vec<u8>, Unread>
    ensures whole { IfOk result (λ bytes. Drains (S.remaining input.old) (S.remaining input.new) bytes.items) }
    ensures within { IfOk result (λ bytes. length bytes.items ≤ limit) }
    ensures unread { IfErr result (IsUnread limit (S.remaining input.old) (S.fault_count input.old) (S.fault_count input.new)) }
{
    let mut bytes = Vec::new(alloc);
    let mut piece = [0u8; PIECE];
    'pieces: loop {
        let Ok(count) = input.read(&mut piece) else {
            return Err(Unread::Failed);
        };
        if count == 0 {
            return Ok(bytes);
        }
        if count > limit - bytes.len() {
            return Err(Unread::Long);
        }
        if bytes.extend_from_slice(&piece[..count]).is_err() {
            return Err(Unread::Memory);
        }
    }
}
