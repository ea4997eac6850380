//! Images that are spelled byte by byte.
use std::alloc::{AllocError, Global};

/// A system of one subject `one`, whose code is one page: 42,576 bytes. The words are hexadecimal: a
/// byte, a number in so many bytes (`:`), so many of a byte (`*`), or a name (`'`).
pub(super) const PLAIN: &str = r#"4d 55 45 4e 49 4d 47 31 1 1 1 1 0 0*3 6:2 0*6
100000:8 4:4 2:2 3 3 'one ' 0*10
104000:8 2:4 3:2 3 4 'one ' 0*10
106000:8 1:4 0:2 0 0 'code ' 0*10
107000:8 1:4 1:2 3 2 'one ' 0*10
108000:8 1:4 4:2 3 5 'one ' 0*10
109000:8 1:4 5:2 3 6 'one ' 0*10
0*8
0 0 0 0 1:2 3:2 4:2 5:2 0*4 10001e:8 'one 0*8 0*100 0*100
a:4 1:4 0:4 a:4
101007:1000 102007:1000 0*10 103007:ff0 106035:1000
ff*2000
1 10 0 0 5 0 0 0 17 0*ff7
0*80 400000:18 8:f68 ff*1000 0*1000"#;

/// One with tau0, whose span has number 4; two CPUs with two groups, two subjects that have the same
/// spans, two major frames, and two devices.
pub(super) const CHOSEN: &str = r#"4d 55 45 4e 49 4d 47 32 2 2 2 2 2 0*3 8:2 4:2 0*4
1000:8 1:4 4:2 0 0 'choice ' 0*10
2000:8 1:4 5:2 1 0 'line ' 0*10
3000:8 1:4 0:2 3 2 's ' 0*10
4000:8 3:4 1:2 3 4 's ' 0*10
8000:8 1:4 2:2 3 5 's ' 0*10
9000:8 1:4 3:2 3 6 's ' 0*10
100000:8 1:4 6:2 2 1 's 'text 0*10
fffffff000:8 1:4 7:2 4 1 'card 'ring 0*10
0 0 0*6 1 1 0*6
0 0 2 0 0:2 1:2 2:2 3:2 0*4 3001e:8 's 0*8
1 0 20 0 2 0 ff 0 3 1 28 0 4 0 0 0 4 1 21 0 0*ec 0*100
1 1 40 0 0:2 1:2 2:2 3:2 0*4 3001e:8 't.-_9 0*8 0*100 0*100
5:4 2:4 0:4 2:4 0:4 3:4 1:4 1:4 5:4
1:4 1:4 0:4 1:4 1:4 1:4 1:4
'card 2 1 2 0 300:2 30f:2 0:2 ffff:2 7:2 'rx 0 2b 0 0 'tx ff 0 0 0
'none 0*4
7*9000"#;

// A hexadecimal number.
fn number(word: &str) -> u64 {
    let mut number = 0u64;
    for byte in word.bytes() {
        let digit = match byte {
            b'a'..=b'f' => byte - b'a' + 10,
            b'0'..=b'9' => byte - b'0',
            _ => 0,
        };
        number = number.wrapping_mul(16).wrapping_add(u64::from(digit));
    }
    number
}

// So many of a byte.
fn fill(out: &mut Vec<u8>, times: u64, byte: u64) -> Result<(), AllocError> {
    let times = (times % 65_536) as usize;
    out.resize(out.len().saturating_add(times), (byte % 256) as u8)
}

// A number in so many bytes, the lowest first.
fn put_number(out: &mut Vec<u8>, number: u64, bytes: u64) -> Result<(), AllocError> {
    let mut rest = number;
    for _ in 0..bytes {
        out.push((rest % 256) as u8)?;
        rest /= 256;
    }
    Ok(())
}

fn put(out: &mut Vec<u8>, word: &str) -> Result<(), AllocError> {
    if let Some(name) = word.strip_prefix('\'') {
        out.push((name.len() % 256) as u8)?;
        out.extend_from_slice(name.as_bytes())?;
        return fill(out, 63u64.saturating_sub(name.len() as u64), 0);
    }
    match (word.split_once(':'), word.split_once('*')) {
        (Some((digits, bytes)), _) => put_number(out, number(digits), number(bytes)),
        (None, Some((byte, times))) => fill(out, number(times), number(byte)),
        (None, None) => fill(out, 1, number(word)),
    }
}

/// The bytes of words.
pub(super) fn spelled(alloc: Global, words: &str) -> Result<Vec<u8>, AllocError> {
    let mut out = Vec::new(alloc);
    for word in words.split_whitespace() {
        put(&mut out, word)?;
    }
    Ok(out)
}

/// The Adler-32 of bytes (RFC 1950).
pub(super) fn adler32(bytes: &[u8]) -> u32 {
    let mut low = 1u32;
    let mut high = 0u32;
    for byte in bytes {
        low = low.wrapping_add(u32::from(*byte)) % 65_521;
        high = high.wrapping_add(low) % 65_521;
    }
    high.wrapping_mul(65_536).wrapping_add(low)
}
