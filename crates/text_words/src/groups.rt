//! The number that groups of hexadecimal digits spell.
ghost use Rattle.std.specs.Prelude.{◌≡◌};
ghost use Rattle.text_words.specs.Groups.{based, groups_of, number_of_groups};

/// The number below 2^64 that hexadecimal digits of either case spell, with single underscores
/// between them, such as `00ff_ff00`.
#[tactic(auto, using(crate::proofs::GroupsInTurn::read_on_groups))]
pub fn grouped(digits: &[u8]) -> Option<u64>
    ensures { result ≡ number_of_groups (groups_of digits.now) }
{
    let mut n: u64 = 0;
    let mut digit = false;
    for c in digits {
        if *c == b'_' {
            if !digit {
                return None;
            }
            digit = false;
        } else {
            let value = char::from(*c).to_digit(16)?;
            n = n.checked_mul(16)?.checked_add(u64::from(value))?;
            digit = true;
        }
    }
    digit.then_some(n)
}

/// The number below 2^64 that a text such as `16#00ff_ff00#` spells.
pub fn based(text: &[u8]) -> Option<u64>
    ensures { result ≡ based text.now }
{
    grouped(text.strip_prefix(b"16#")?.strip_suffix(b"#")?)
}
