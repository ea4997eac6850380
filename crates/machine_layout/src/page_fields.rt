//! Fields of a page at their offsets, numbers with the lowest byte first.
ghost use Rattle.std.specs.Prelude.{◌≡◌, ◌+◌, ◌≤◌, [], length};
ghost use Rattle.machine_layout.specs.Memory.{le_bytes, over};
ghost use Rattle.machine_layout.specs.PageFields.{number_at, padded};

/// How many bytes a word has.
const WORD: usize = 8;

/// Makes each byte 0, whatever stood there before.
pub fn clear_all(page: &mut [u8])
    ensures { page.new ≡ padded (length page.old) [] }
{
    page.fill(0);
}

/// Writes these bytes over those from `at` on.
pub fn put_bytes(page: &mut [u8], at: usize, bytes: &[u8])
    requires { at + length bytes.now ≤ length page.old }
    ensures { page.new ≡ over page.old at bytes.now }
{
    page[at..at + bytes.len()].copy_from_slice(bytes);
}

/// Writes a word at this offset.
pub fn put_word(page: &mut [u8], at: usize, word: u64)
    requires { at + 8 ≤ length page.old }
    ensures { page.new ≡ over page.old at (le_bytes 8 word) }
{
    put_bytes(page, at, &word.to_le_bytes());
}

/// The word at this offset.
pub fn word_at(page: &[u8], at: usize) -> u64
    requires { at + 8 ≤ length page.now }
    ensures { result ≡ number_at page.now at 8 }
{
    match page[at..at + WORD].first_chunk::<WORD>() {
        Some(bytes) => u64::from_le_bytes(*bytes),
        None => unreachable!(),
    }
}
