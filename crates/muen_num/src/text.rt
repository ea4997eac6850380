//! Texts in fixed buffers: each call writes behind what stands there, and answers where it ends.
ghost use Rattle.std.specs.Prelude.{◌≡◌, ◌+◌, ◌≤◌, ◌++◌, length, take, decimal};
ghost use Rattle.muen_num.specs.Fixed.{hex16, hex8, hex4};
ghost use Rattle.hex.specs.Hex.{encode_lower};

use crate::digits::append_bytes;
use itoa::Buffer;

/// Writes the bytes.
pub fn append(out: &mut [u8], at: usize, bytes: &[u8]) -> usize
    requires { at + length bytes.now ≤ length out.old }
    ensures end { result ≡ at + length bytes.now }
    ensures text { take result out.new ≡ take at out.old ++ bytes.now }
{
    let end = at + bytes.len();
    out[at..end].copy_from_slice(bytes);
    end
}

/// Writes a number in decimal digits, at most 20.
pub fn append_decimal(out: &mut [u8], at: usize, n: u64) -> usize
    requires { at + 20 ≤ length out.old }
    ensures end { result ≤ at + 20 }
    ensures text { take result out.new ≡ take at out.old ++ decimal n }
{
    let mut buffer = Buffer::new();
    append(out, at, buffer.format(n).as_bytes())
}

/// Writes a number below 2^32 in decimal digits, at most 10.
pub fn append_decimal32(out: &mut [u8], at: usize, n: u32) -> usize
    requires { at + 10 ≤ length out.old }
    ensures end { result ≤ at + 10 }
    ensures text { take result out.new ≡ take at out.old ++ decimal n }
{
    let mut buffer = Buffer::new();
    append(out, at, buffer.format(n).as_bytes())
}

/// Writes a byte in decimal digits, at most 3.
pub fn append_decimal8(out: &mut [u8], at: usize, n: u8) -> usize
    requires { at + 3 ≤ length out.old }
    ensures end { result ≤ at + 3 }
    ensures text { take result out.new ≡ take at out.old ++ decimal n }
{
    let mut buffer = Buffer::new();
    append(out, at, buffer.format(n).as_bytes())
}

/// Writes a number in sixteen hexadecimal digits, in lower case.
#[inline]
pub fn append_hex16(out: &mut [u8], at: usize, n: u64) -> usize
    requires { at + 16 ≤ length out.old }
    ensures end { result ≡ at + 16 }
    ensures text { take result out.new ≡ take at out.old ++ hex16 n }
{
    append_bytes(out, at, &n.to_be_bytes())
}

/// Writes a number in eight hexadecimal digits, in lower case.
#[inline]
pub fn append_hex8(out: &mut [u8], at: usize, n: u32) -> usize
    requires { at + 8 ≤ length out.old }
    ensures end { result ≡ at + 8 }
    ensures text { take result out.new ≡ take at out.old ++ hex8 n }
{
    append_bytes(out, at, &n.to_be_bytes())
}

/// Writes a number in four hexadecimal digits, in lower case.
#[inline]
pub fn append_hex4(out: &mut [u8], at: usize, n: u16) -> usize
    requires { at + 4 ≤ length out.old }
    ensures end { result ≡ at + 4 }
    ensures text { take result out.new ≡ take at out.old ++ hex4 n }
{
    append_bytes(out, at, &n.to_be_bytes())
}

/// Writes thirty-two bytes, as a digest, in hexadecimal digits, in lower case.
pub fn append_hex32(out: &mut [u8], at: usize, bytes: &[u8; 32]) -> usize
    requires { at + 64 ≤ length out.old }
    ensures end { result ≡ at + 64 }
    ensures text { take result out.new ≡ take at out.old ++ encode_lower bytes.now }
{
    append_bytes(out, at, bytes.as_slice())
}
