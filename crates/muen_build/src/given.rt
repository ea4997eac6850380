//! Files whose bytes are known before.
ghost use Rattle.std.specs.Prelude.{◌≡◌, option_map};
ghost use Rattle.muen_build.specs.Accepting.{given_files};
ghost use Rattle.muen_outside.specs.Store.{find_bytes};

use muen_num::Name;

/// A file whose bytes are known: they stand for its name, and it isn't looked at.
#[derive(Clone, Copy, Debug)]
pub struct Given<'a> {
    pub name: &'a str,
    pub bytes: &'a [u8],
}

/// The bytes that are given under this name.
pub fn given_bytes<'a>(given: &[Given<'a>], file: Name) -> Option<&'a [u8]>
    ensures { option_map (λ bytes. bytes.now) result ≡ find_bytes file (given_files given.now) }
{
    for g in given {
        if file.as_str() == g.name {
            return Some(g.bytes);
        }
    }
    None
}
