//! How bytes move between memory and a caller's slice, for the ports that hold their bytes in memory. A reader may rely
//! on the exact amount: all that there is and that has room.
ghost use Rattle.std.specs.Prelude.{◌≡◌, ◌+◌, ◌-◌, ◌≤◌, ◌++◌, length, take, drop, min};

/// Moves the bytes from the place `at` on to the start of `buf`, as many as there are and have room, and returns how
/// many. What is in `buf` behind them stays.
pub fn move_into(bytes: &[u8], at: usize, buf: &mut [u8]) -> usize
    requires { at ≤ length bytes.now }
    ensures amount { result ≡ min (length buf.old) (length bytes.now - at) }
    ensures moved { drop at bytes.now ≡ take result buf.new ++ drop (at + result) bytes.now }
    ensures behind { drop result buf.new ≡ drop result buf.old }
{
    let left = &bytes[at..];
    let amount = left.len().min(buf.len());
    buf[..amount].copy_from_slice(&left[..amount]);
    amount
}

/// Appends the first of `bytes` behind the first `used` bytes of the store, as many as fit, and returns how many.
pub fn append_from(store: &mut [u8], used: usize, bytes: &[u8]) -> usize
    requires { used ≤ length store.old }
    ensures amount { result ≡ min (length bytes.now) (length store.old - used) }
    ensures appended { take (used + result) store.new ≡ take used store.old ++ take result bytes.now }
{
    let room = store.len() - used;
    let amount = room.min(bytes.len());
    store[used..used + amount].copy_from_slice(&bytes[..amount]);
    amount
}
