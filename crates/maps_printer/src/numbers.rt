//! Numbers as text, put into the buffer: decimal by the crate `itoa`, lower hexadecimal by a loop of the same kind.
//! Addresses have the forms of strace(1), `NULL` and `0x` with digits, and of proc_pid_maps(5), at least eight digits.
ghost use Rattle.std.specs.Prelude.{◌≡◌, ◌+◌, ◌<◌, ◌≤◌, ◌++◌, length, drop, decimal, replicate, false};
ghost use Rattle.std.specs.Fmt.{digit_glyph};
ghost use Rattle.maps_printer.specs.Numbers.{hex_digits, prefixed_hex, address_text, page_address};

use crate::buffer::{Buffer, SIZE};

/// How many places for digits a number is written into, from the last one on.
const PLACES: usize = 64;

/// The base of hexadecimal digits.
const BASE: u64 = 16;

/// How many digits a page has at least in an address, whose last three are zeros.
const PAGE_DIGITS: usize = 5;

/// Adds a number in decimal: at most 20 bytes.
pub(crate) fn push_decimal(buffer: &mut Buffer, n: u64)
    requires { length buffer.old + 20 ≤ SIZE }
    ensures text { buffer.new ≡ buffer.old ++ decimal n }
    ensures room { length buffer.new ≤ length buffer.old + 20 }
{
    buffer.push(itoa::Buffer::new().format(n).as_bytes());
}

/// Writes a number in lower hexadecimal at the end of `digits`, and returns where its digits start.
fn write_hex(n: u64, digits: &mut [u8; PLACES]) -> usize
    ensures within { result ≤ 64 }
    ensures written { drop result digits.new ≡ hex_digits n }
    ensures start { result + length (hex_digits n) ≡ 64 }
    ensures short { length (hex_digits n) ≤ 16 }
{
    let mut at = PLACES;
    let mut rest = n;
    while at > 0 {
        at -= 1;
        digits[at] = hex_digit(rest % BASE);
        rest /= BASE;
        if rest == 0 {
            break;
        }
    }
    at
}

/// The digit for a number below 16, in lower case.
fn hex_digit(value: u64) -> u8
    requires { value < 16 }
    ensures { result ≡ digit_glyph false value }
{
    if value < 10 {
        b'0' + value as u8
    } else {
        b'a' - 10 + value as u8
    }
}

/// Adds a number in lower hexadecimal, without leading zeros: at most 16 bytes.
pub(crate) fn push_hex(buffer: &mut Buffer, n: u64)
    requires { length buffer.old + 16 ≤ SIZE }
    ensures text { buffer.new ≡ buffer.old ++ hex_digits n }
    ensures room { length buffer.new ≤ length buffer.old + 16 }
{
    let mut digits = [0; PLACES];
    let start = write_hex(n, &mut digits);
    buffer.push(&digits[start..]);
}

/// Adds a number in lower hexadecimal after `0x`: at most 18 bytes.
pub(crate) fn push_prefixed_hex(buffer: &mut Buffer, n: u64)
    requires { length buffer.old + 18 ≤ SIZE }
    ensures text { buffer.new ≡ buffer.old ++ prefixed_hex n }
    ensures room { length buffer.new ≤ length buffer.old + 18 }
{
    buffer.push(b"0x");
    push_hex(buffer, n);
}

/// Adds an address that a call takes, in lower hexadecimal after `0x`, or `NULL` for 0: at most 18 bytes.
pub(crate) fn push_address(buffer: &mut Buffer, address: u64)
    requires { length buffer.old + 18 ≤ SIZE }
    ensures text { buffer.new ≡ buffer.old ++ address_text address }
    ensures room { length buffer.new ≤ length buffer.old + 18 }
{
    if address == 0 {
        buffer.push(b"NULL");
    } else {
        push_prefixed_hex(buffer, address);
    }
}

/// Adds the address of a page's first byte in lower hexadecimal, with at least eight digits: at most 19 bytes. The
/// page may be any number, so the address is written as the page and three zeros, and isn't computed.
pub(crate) fn push_page_address(buffer: &mut Buffer, page: u64)
    requires { length buffer.old + 19 ≤ SIZE }
    ensures text { buffer.new ≡ buffer.old ++ page_address page }
    ensures room { length buffer.new ≤ length buffer.old + 19 }
{
    let mut digits = [0; PLACES];
    let start = write_hex(page, &mut digits);
    push_zeros(buffer, PAGE_DIGITS.saturating_sub(PLACES - start));
    buffer.push(&digits[start..]);
    buffer.push(b"000");
}

/// Adds up to five zeros.
fn push_zeros(buffer: &mut Buffer, count: usize)
    requires few { count ≤ 5 }
    requires room { length buffer.old + count ≤ SIZE }
    ensures { buffer.new ≡ buffer.old ++ replicate count 48 }
{
    let zeros: &[u8] = b"00000";
    buffer.push(&zeros[..count]);
}
