//! What a broken rule names.
ghost use Rattle.std.specs.Prelude.{◌≡◌};
ghost use Rattle.muen_num.specs.Search.{unless};
ghost use Rattle.policy_lawful.specs.Offences.{alone};

use muen_num::Name;

/// The two names of a broken rule. Where one thing alone is named, it is named twice.
#[derive(Clone, Copy, Debug, PartialEq, Eq)]
pub struct Offence {
    pub first: Name,
    pub second: Name,
}

impl Offence {
    /// The offence of one thing alone.
    pub fn alone(name: Name) -> Offence
        ensures { result ≡ alone name }
    {
        Offence {
            first: name,
            second: name,
        }
    }

    /// This offence, where what must hold doesn't.
    pub fn unless(self, holds: bool) -> Option<Offence>
        ensures { result ≡ unless holds self }
    {
        if holds { None } else { Some(self) }
    }
}

/// A named range of addresses: `size` bytes from `address` on.
#[derive(Clone, Copy, Debug)]
pub struct Extent {
    pub name: Name,
    pub address: u64,
    pub size: u64,
}
