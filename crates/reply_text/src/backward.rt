//! Short texts that are put together in a buffer from its end to its front, so that they are written as one piece.

ghost use Rattle.std.specs.Prelude.{◌≡◌, ◌+◌, ◌≤◌, ◌∷◌, ◌++◌, length, drop};
ghost use Rattle.std.specs.Fmt.{decimal};
ghost use Rattle.net_prefix.specs.Address.{addr_text};
ghost use Rattle.net_prefix.specs.Prefix.{prefix_text};

use itoa::write_digits;
use net_prefix::{Addr, Prefix};

/// The most bytes that an address takes as text.
pub(crate) const ADDR_BYTES: usize = 15;

/// The most bytes that a prefix takes as text.
pub(crate) const PREFIX_BYTES: usize = 19;

/// Puts the bytes so that they end at `end`, and returns where they start.
pub(crate) fn put_bytes(bytes: &[u8], buffer: &mut [u8], end: usize) -> usize
    requires room { length bytes.now ≤ end }
    requires within { end ≤ length buffer.old }
    ensures start { result + length bytes.now ≡ end }
    ensures text { drop result buffer.new ≡ bytes.now ++ drop end buffer.old }
{
    let start = end - bytes.len();
    buffer[start..end].copy_from_slice(bytes);
    start
}

/// Puts the number so that it ends at `end`, and returns where it starts.
fn put_number(number: u8, buffer: &mut [u8], end: usize) -> usize
    requires room { 3 ≤ end }
    requires within { end ≤ length buffer.old }
    ensures start { end ≤ result + 3 }
    ensures order { result ≤ end }
    ensures text { drop result buffer.new ≡ decimal number ++ drop end buffer.old }
{
    write_digits(u64::from(number), buffer, end)
}

/// Puts the separator and the number so that they end at `end`, and returns where they start.
fn put_after(separator: u8, number: u8, buffer: &mut [u8], end: usize) -> usize
    requires room { 4 ≤ end }
    requires within { end ≤ length buffer.old }
    ensures start { end ≤ result + 4 }
    ensures order { result ≤ end }
    ensures text { drop result buffer.new ≡ (separator ∷ decimal number) ++ drop end buffer.old }
{
    let start = put_number(number, buffer, end) - 1;
    buffer[start] = separator;
    start
}

/// Puts the address so that it ends at `end`, and returns where it starts.
pub(crate) fn put_addr(addr: Addr, buffer: &mut [u8], end: usize) -> usize
    requires room { 15 ≤ end }
    requires within { end ≤ length buffer.old }
    ensures start { end ≤ result + 15 }
    ensures order { result ≤ end }
    ensures text { drop result buffer.new ≡ addr_text addr ++ drop end buffer.old }
{
    let [first, second, third, fourth] = addr.0.to_be_bytes();
    let end = put_after(b'.', fourth, buffer, end);
    let end = put_after(b'.', third, buffer, end);
    let end = put_after(b'.', second, buffer, end);
    put_number(first, buffer, end)
}

/// Puts the prefix so that it ends at `end`, and returns where it starts.
pub(crate) fn put_prefix(prefix: Prefix, buffer: &mut [u8], end: usize) -> usize
    requires room { 19 ≤ end }
    requires within { end ≤ length buffer.old }
    ensures start { end ≤ result + 19 }
    ensures order { result ≤ end }
    ensures text { drop result buffer.new ≡ prefix_text prefix ++ drop end buffer.old }
{
    let end = put_after(b'/', prefix.len(), buffer, end);
    put_addr(prefix.addr(), buffer, end)
}
