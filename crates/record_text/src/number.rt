//! What a word spells: a number within a range, or bytes.
ghost use Rattle.std.specs.Prelude.{◌≡◌, ◌+◌, ◌^◌, ◌<◌, Err, Ok, IfOk};
ghost use Rattle.record_text.specs.Saying.{Gives, with_line_error};
ghost use Rattle.record_text.specs.Words.{hex_bytes, number_below, tick_of};

use crate::fault::LineWant;
use crate::record::INPUT_MOST;
use hex::FromHexError;
use muen_num::limits::{LAST_PORT, MOST_TICKS};
use muen_num::{NoMemory, Seq};
use std::alloc::Global;
use text_words::{NumberError, decimal};

/// Why a line says nothing.
#[derive(Clone, Copy)]
pub(crate) enum LineError {
    /// A word isn't what it should have been.
    Want(LineWant),
    /// Memory was refused.
    NoMemory,
}

impl From<NoMemory> for LineError {
    ghost use Rattle.std.specs.Prelude.{◌≡◌};
    ghost use Rattle.record_text.specs.declared.number.LineError.TheVariants.{NoMemory as RanOut};

    ghost from_gives = { λ _ error. error ≡ RanOut };

    fn from(_: NoMemory) -> Self {
        LineError::NoMemory
    }
}

impl From<NumberError> for LineError {
    ghost use Rattle.std.specs.Prelude.{◌≡◌};
    ghost use Rattle.record_text.specs.Saying.{number_error};

    ghost from_gives = { λ why error. error ≡ number_error why };

    fn from(why: NumberError) -> Self {
        match why {
            NumberError::NoNumber => LineError::Want(LineWant::Number),
            NumberError::TooLarge => LineError::Want(LineWant::Range),
        }
    }
}

/// The number below 2^64 that a word spells: decimal, without leading zeros.
#[tactic(auto, using(crate::proofs::Numbers::numbers))]
pub(crate) fn number(word: &[u8]) -> Result<u64, LineError>
    ensures { result ≡ with_line_error (number_below (2 ^ 64) word.now) }
{
    Ok(decimal(word)?)
}

/// The number below `end` that a word spells.
#[tactic(auto, using(crate::proofs::Numbers::numbers))]
pub(crate) fn number_below(word: &[u8], end: u64) -> Result<u64, LineError>
    ensures value { result ≡ with_line_error (number_below end word.now) }
    ensures within { IfOk result (λ n. n < end) }
{
    let n = decimal(word)?;
    if n < end {
        Ok(n)
    } else {
        Err(LineError::Want(LineWant::Range))
    }
}

/// The number of a tick, 0 to 100,000.
#[tactic(auto, unfolding(crate::specs::Words::tick_of))]
pub(crate) fn tick_of(word: &[u8]) -> Result<u32, LineError>
    ensures { result ≡ with_line_error (tick_of word.now) }
{
    Ok(number_below(word, MOST_TICKS + 1)? as u32)
}

/// A number below 256.
pub(crate) fn byte_of(word: &[u8]) -> Result<u8, LineError>
    ensures { result ≡ with_line_error (number_below 256 word.now) }
{
    Ok(number_below(word, 256)? as u8)
}

/// The number of an I/O port.
pub(crate) fn port_of(word: &[u8]) -> Result<u16, LineError>
    ensures { result ≡ with_line_error (number_below (LAST_PORT + 1) word.now) }
{
    Ok(number_below(word, LAST_PORT + 1)? as u16)
}

/// The number of a CPU, where there are so many.
pub(crate) fn cpu_of(word: &[u8], cpus: u8) -> Result<u8, LineError>
    ensures { result ≡ with_line_error (number_below cpus word.now) }
{
    Ok(number_below(word, u64::from(cpus))? as u8)
}

/// The 1 to 64 bytes that a word of hexadecimal digits spells.
#[tactic(auto, unfolding(crate::specs::Words::hex_bytes))]
pub(crate) fn hex_bytes(alloc: Global, word: &[u8]) -> Result<Seq<u8>, LineError>
    ensures { Gives (hex_bytes word.now) result }
{
    if word.len() < 2 || word.len() > 2 * INPUT_MOST {
        return Err(LineError::Want(LineWant::Hex));
    }
    match hex::decode(alloc, word) {
        Ok(bytes) => Ok(Seq::of(bytes)),
        Err(FromHexError::OutOfMemory) => Err(LineError::NoMemory),
        Err(_) => Err(LineError::Want(LineWant::Hex)),
    }
}
