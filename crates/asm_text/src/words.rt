//! What a word spells.
ghost use Rattle.std.specs.Prelude.{◌≡◌, ◌<◌};
ghost use Rattle.asm_text.specs.Reading.{atom_of, sign_of};
ghost use Rattle.asm_text.specs.Words.{data_size_of, number_in, register_of, size_of, size_unit, symbol_of};

use crate::statement::Atom;
use muen_num::{AccessSize, Name};
use text_words::{based, decimal, grouped};

/// `r0` to `r15`.
pub(crate) fn register_of(word: &[u8]) -> Option<u8>
    ensures { result ≡ register_of word.now }
{
    match decimal(word.strip_prefix(b"r")?) {
        Ok(n) if n < 16 => Some(n as u8),
        _ => None,
    }
}

/// A number below 2^64: decimal without a leading zero, or as `0x3f_fef0` or `16#3f_fef0#`.
pub fn number_in(word: &[u8]) -> Option<u64>
    ensures { result ≡ number_in word.now }
{
    if let Some(digits) = word.strip_prefix(b"0x") {
        return grouped(digits);
    }
    based(word).or(decimal(word).ok())
}

/// A name: a letter or `_`, and up to 62 letters, digits, `_` and `.`.
pub(crate) fn symbol_of(word: &[u8]) -> Option<Name>
    ensures { result ≡ symbol_of word.now }
{
    let first = word.first()?;
    if first.is_ascii_alphabetic() || *first == b'_' {
        Name::read(word)
    } else {
        None
    }
}

/// A number, which begins with a digit, or a name.
pub(crate) fn atom_of(word: &[u8]) -> Option<Atom>
    ensures { result ≡ atom_of word.now }
{
    if word.first()?.is_ascii_digit() {
        Some(Atom::Number(number_in(word)?))
    } else {
        Some(Atom::Name(symbol_of(word)?))
    }
}

/// Whether a word is a sign, and then whether it is `-`.
pub(crate) fn sign_of(word: &[u8]) -> Option<bool>
    ensures { result ≡ sign_of word.now }
{
    if word == b"-".as_slice() {
        return Some(true);
    }
    if word == b"+".as_slice() {
        return Some(false);
    }
    None
}

/// The size of data.
pub(crate) fn data_size_of(word: &[u8]) -> Option<AccessSize>
    ensures { result ≡ data_size_of word.now }
{
    if word == b".byte".as_slice() {
        return Some(AccessSize::One);
    }
    if word == b".u16".as_slice() {
        return Some(AccessSize::Two);
    }
    if word == b".u32".as_slice() {
        return Some(AccessSize::Four);
    }
    if word == b".u64".as_slice() {
        return Some(AccessSize::Eight);
    }
    None
}

/// The number before `byte` or `bytes`.
pub(crate) fn size_of(word: &[u8]) -> Option<AccessSize>
    ensures { result ≡ size_of word.now }
{
    if word == b"1".as_slice() {
        return Some(AccessSize::One);
    }
    if word == b"2".as_slice() {
        return Some(AccessSize::Two);
    }
    if word == b"4".as_slice() {
        return Some(AccessSize::Four);
    }
    if word == b"8".as_slice() {
        return Some(AccessSize::Eight);
    }
    None
}

/// `byte` behind 1, else `bytes`.
pub(crate) fn size_unit(size: AccessSize) -> &'static str
    ensures { result.now ≡ size_unit size }
{
    match size {
        AccessSize::One => "byte",
        AccessSize::Two | AccessSize::Four | AccessSize::Eight => "bytes",
    }
}
