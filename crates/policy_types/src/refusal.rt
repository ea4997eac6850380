ghost use Rattle.std.specs.Prelude.{◌≡◌, ◌∷◌, ◌++◌, IfOk, string_bytes};
ghost use Rattle.policy_types.specs.declared.refusal.Refusal.TheVariants.{NoMemory as OutOfMemory};

use muen_num::{Name, NoMemory, Tag};
use std::alloc::{AllocError, AllocFailed};
use std::fmt;
use std::marker::Model;
use thiserror::Error;

/// Where a value of a document stands: the keys and item numbers from the top down to it, each
/// after a `/`; empty for the whole document. Contracts see the list of its bytes.
#[derive(Drop, Debug)]
pub struct Place {
    text: String,
}

impl Model for Place {
    ghost use Rattle.std.specs.Prelude.{List, ℕ, string_bytes};

    ghost Value = { List ℕ };

    ghost view = { λ p. string_bytes p.text };
}

impl Place {
    /// The place that this text is; the empty text is the value itself.
    pub fn of(text: String) -> Place
        ensures { result ≡ string_bytes text }
    {
        Place { text }
    }

    /// This place, seen from one step further up: the step is the key or item number that leads
    /// there.
    pub fn under(self, step: &str) -> Result<Place, NoMemory>
        ensures { IfOk result (λ place. place ≡ 47 ∷ (step.now ++ self)) }
    {
        let Place { mut text } = self;
        text.insert_str(0, step)?;
        text.insert(0, '/')?;
        Ok(Place { text })
    }

    /// The place as text.
    pub fn as_str(&self) -> &str
        ensures { result.now ≡ self.now }
    {
        self.text.as_str()
    }
}

/// A place is written as its text.
impl fmt::Display for Place {
    ghost use Rattle.std.specs.Prelude.{Some};

    ghost output = { λ place. Some place };

    fn fmt<W: fmt::Write>(&self, f: &mut fmt::Formatter<W>) -> fmt::Result {
        f.write_str(self.as_str())
    }
}

impl PartialEq for Place {
    ghost use Rattle.std.specs.Str.{bytes_eq};
    ghost use Rattle.std.specs.Cmp.{partial_equiv_from_equiv};
    ghost use Rattle.std.specs.Cmp.Lexicographic.{nat_list_eq_equiv};

    ghost eq = { bytes_eq };

    ghost laws = { partial_equiv_from_equiv nat_list_eq_equiv };

    fn eq(&self, other: &Self) -> bool {
        self.as_str() == other.as_str()
    }
}

impl Eq for Place {
    ghost use Rattle.std.specs.Cmp.Lexicographic.{nat_list_eq_equiv};

    ghost laws = { nat_list_eq_equiv };
}

/// What a value of a policy document should have been.
#[derive(Clone, Copy, Debug, PartialEq, Eq)]
pub enum Want {
    Number,
    Byte,
    Name,
    Rights,
    Caching,
    Mode,
    Role,
    Hexadecimal,
    List,
    Object,
    /// No key but those of the object.
    KnownKeys,
    /// A value under a key that is required.
    Present,
    /// Exactly one of a content's three kinds.
    OneContent,
    /// Exactly one of the two ways in which an event is raised.
    CallOrTrap,
}

/// The first place of a document that breaks the schema, and what was wanted there.
#[derive(Drop, Debug)]
pub struct Fault {
    pub place: Place,
    pub want: Want,
}

/// Why a policy with its files is refused. Its text is the one that is printed.
#[derive(Drop, Debug, PartialEq, Eq, Error)]
pub enum Refusal {
    /// The bytes are no JSON text.
    NotJson,
    /// The document breaks the schema first at this place.
    Shape {
        place: Place,
        want: Want,
    },
    /// This rule is broken, and none below it; the rule names two elements.
    Rule {
        number: u8,
        first: Name,
        second: Name,
    },
    /// A region's file isn't there.
    Missing {
        file: Name,
    },
    /// A region's file has more bytes than a component file may have.
    TooLong {
        file: Name,
        length: u64,
    },
    /// A region's contents are longer than the region; both in bytes.
    FileFit {
        region: Tag,
        room: u64,
        length: u64,
    },
    /// No room is left for a region of this size in bytes.
    NoRoom {
        region: Tag,
        size: u64,
    },
    /// Memory was refused.
    NoMemory,
}

impl From<NoMemory> for Refusal {
    ghost from_gives = { λ _ refusal. refusal ≡ OutOfMemory };

    fn from(_: NoMemory) -> Self {
        Refusal::NoMemory
    }
}

impl From<AllocError> for Refusal {
    ghost from_gives = { λ _ refusal. refusal ≡ OutOfMemory };

    fn from(_: AllocError) -> Self {
        Refusal::NoMemory
    }
}

impl<T: Drop> From<AllocFailed<T>> for Refusal {
    ghost from_gives = { λ _ refusal. refusal ≡ OutOfMemory };

    fn from(_: AllocFailed<T>) -> Self {
        Refusal::NoMemory
    }
}
