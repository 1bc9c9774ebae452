//! Entries of logs that the cases expect.
ghost use Rattle.std.specs.Prelude.{◌≡◌};

use page_types::{Call, Reply};
use space_model::{Entry, Under};

/// The entry of this number and input line, of worker 0.
pub fn entry(number: u64, line: u32, call: Call, reply: Reply, under: Under) -> Entry
    ensures place { (result.number ≡ number) × (result.worker ≡ 0) × (result.line ≡ line) }
    ensures told { (result.call ≡ call) × (result.reply ≡ reply) × (result.under ≡ under) }
{
    Entry {
        number,
        worker: 0,
        line,
        call,
        reply,
        under,
    }
}
