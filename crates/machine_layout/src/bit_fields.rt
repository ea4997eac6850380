//! Bits of a word, by their numbers; bit 0 is the lowest.
ghost use Rattle.std.specs.Prelude.{◌≡◌, ◌+◌, ◌-◌, ◌^◌, ◌<◌, ◌≤◌};
ghost use Rattle.machine_layout.specs.Walks.{bits_of};

/// The number of the highest bit of a word.
const HIGHEST_BIT: u32 = 63;

/// Bits `low` to `high` of a word, as a number.
pub fn bits(word: u64, low: u32, high: u32) -> u64
    requires order { low ≤ high }
    requires high { high < 64 }
    ensures value { result ≡ bits_of word low high }
    ensures small { result < 2 ^ (high + 1 - low) }
{
    (word >> low) & (u64::MAX >> (HIGHEST_BIT - (high - low)))
}
