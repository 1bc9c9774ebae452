//! A source of the same byte, so many times over, which needs no memory however long the input is. It is this project's
//! own. A reader may rely on each call giving all that is left and has room.
ghost use Rattle.std.specs.Prelude.{◌≡◌, ◌-◌, ◌<◌, ◌≤◌, ◌++◌, length, take, drop, min, replicate, Ok, Some, IfOk, IsOk};
ghost use Rattle.std.specs.Io.{ReadsAtMost};
ghost use Rattle.std.specs.Io.KnownBytes.{Consumes, IsAtEnd};
ghost use Rattle.std.proofs.Common.{rules};

use crate::{Failed, Source};

/// A source that gives one byte so many times. It never fails.
#[derive(Clone, Copy, Debug, Drop)]
pub struct FillSource {
    /// How many bytes are left.
    pub left: u64,
    /// The byte that each of them is.
    pub byte: u8,
}

impl Source for FillSource {
    ghost remaining = { λ s. Some (replicate s.left s.byte) };

    ghost fault_count = { λ _. 0 };

    ghost count_in_range = { λ _. Prim.search rules };

    fn read(&mut self, buf: &mut [u8]) -> Result<usize, Failed>
        // What holds of every source.
        ensures fits { ReadsAtMost result buf.new }
        ensures moved { IfOk result (λ n. Consumes (Some (replicate self.old.left self.old.byte))
            (Some (replicate self.new.left self.new.byte)) (take n buf.new)) }
        ensures end { IfOk result (λ n.
            n ≡ 0 → 0 < length buf.old → IsAtEnd (Some (replicate self.old.left self.old.byte))) }
        ensures empty { length buf.old ≡ 0 → result ≡ Ok 0 }

        // It never fails, and gives all that is left and has room.
        ensures never_fails { IsOk result }
        ensures amount { IfOk result (λ n. n ≡ min (length buf.old) self.old.left) }
        ensures left { IfOk result (λ n. self.new.left ≡ self.old.left - n) }
        ensures byte { self.new.byte ≡ self.old.byte }
        ensures buffer { IfOk result (λ n. buf.new ≡ replicate n self.old.byte ++ drop n buf.old) }
    {
        let amount = (buf.len() as u64).min(self.left);
        buf[..amount as usize].fill(self.byte);
        self.left -= amount;
        Ok(amount as usize)
    }
}
