//! The number that a word spells in decimal digits.
ghost use Rattle.std.specs.Prelude.{◌≡◌, option_and_then};
ghost use Rattle.std.specs.Char.{is_ascii_digit};
ghost use Rattle.std.specs.List.{list_all};
ghost use Rattle.text_words.specs.Numbers.{decimal, digits_from, is_badly_begun, within_word};

/// Why a word spells no number below 2^64.
#[derive(Clone, Copy, Debug)]
pub enum NumberError {
    /// It is no number in decimal digits without leading zeros.
    NoNumber,
    /// The number is 2^64 or above.
    TooLarge,
}

// Whether the word is empty, or has a leading zero.
fn is_badly_begun(word: &[u8]) -> bool
    ensures { result ≡ is_badly_begun word.now }
{
    word.is_empty() || (word.len() > 1 && word[0] == b'0')
}

// Whether the word has digits alone.
fn has_digits_alone(word: &[u8]) -> bool
    ensures { result ≡ list_all is_ascii_digit word.now }
{
    word.iter().all(|c| c.is_ascii_digit())
}

// The number that the digits spell, where it is below 2^64.
fn value(word: &[u8]) -> Option<u64>
    ensures { result ≡ option_and_then within_word (digits_from 0 word.now) }
{
    let mut n: u64 = 0;
    for c in word {
        if !c.is_ascii_digit() {
            return None;
        }
        n = n.checked_mul(10)?.checked_add(u64::from(*c - b'0'))?;
    }
    Some(n)
}

/// The number below 2^64 that a word spells in decimal digits, without leading zeros.
#[tactic(auto, unfolding(crate::specs::Numbers::decimal), using(crate::proofs::Digits::numbers))]
pub fn decimal(word: &[u8]) -> Result<u64, NumberError>
    ensures { result ≡ decimal word.now }
{
    if is_badly_begun(word) || !has_digits_alone(word) {
        return Err(NumberError::NoNumber);
    }
    match value(word) {
        Some(n) => Ok(n),
        None => Err(NumberError::TooLarge),
    }
}
