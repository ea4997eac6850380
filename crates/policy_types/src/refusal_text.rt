//! The texts of refusals, as they are printed.
ghost use Rattle.std.specs.Prelude.{◌≡◌};
ghost use Rattle.muen_num.specs.Pieces.{whole};
ghost use Rattle.policy_types.specs.Refusals.{bytes_in_room_for, is_no_memory, refusal_text, want_text};

use crate::refusal::{Refusal, Want};
use itoa::Buffer;
use muen_num::Pieces;
use std::fmt;

impl Want {
    /// What should have stood there, in words.
    pub fn as_str(self) -> &'static str
        ensures { result.now ≡ want_text self }
    {
        match self {
            Want::Number => "number",
            Want::Byte => "byte",
            Want::Name => "name",
            Want::Rights => "rights",
            Want::Caching => "caching",
            Want::Mode => "mode",
            Want::Role => "role",
            Want::Hexadecimal => "hexadecimal",
            Want::List => "list",
            Want::Object => "object",
            Want::KnownKeys => "known keys",
            Want::Present => "present",
            Want::OneContent => "one content",
            Want::CallOrTrap => "call or trap",
        }
    }
}

// Words that are too long for the search among others.
#[tactic(auto, unfolding(crate::specs::Refusals::bytes_in_room_for))]
fn bytes_in_room_for() -> &'static str
    ensures { result.now ≡ bytes_in_room_for }
{
    " bytes in room for "
}

impl Refusal {
    /// Whether memory was refused, so that nothing is said of the policy.
    pub fn is_no_memory(&self) -> bool
        ensures { result ≡ is_no_memory self.now }
    {
        match self {
            Refusal::NoMemory => true,
            Refusal::NotJson
            | Refusal::Shape { .. }
            | Refusal::Rule { .. }
            | Refusal::Missing { .. }
            | Refusal::TooLong { .. }
            | Refusal::FileFit { .. }
            | Refusal::NoRoom { .. } => false,
        }
    }

    /// The text in pieces. The digits of its numbers stand in the buffers.
    pub fn pieces<'a>(&'a self, one: &'a mut Buffer, two: &'a mut Buffer) -> Pieces<'a>
        ensures { whole result ≡ refusal_text self.now }
    {
        match self {
            Refusal::NotJson => "not JSON".into(),
            Refusal::Shape { place, want } => {
                ("shape at ", place.as_str(), ": want ", want.as_str()).into()
            }
            Refusal::Rule {
                number,
                first,
                second,
            } => {
                let number = one.format(*number);
                ("rule ", number, ": ", first.as_str(), " ", second.as_str()).into()
            }
            Refusal::Missing { file } => ("missing file ", file.as_str()).into(),
            Refusal::TooLong { file, length } => {
                let length = one.format(*length);
                ("file ", file.as_str(), " has ", length, " bytes").into()
            }
            Refusal::FileFit {
                region,
                room,
                length,
            } => {
                let (owner, between, name) = region.pieces();
                let length = one.format(*length);
                let room = two.format(*room);
                let words = bytes_in_room_for();
                (owner, between, name, ": ", length, words, room).into()
            }
            Refusal::NoRoom { region, size } => {
                let (owner, between, name) = region.pieces();
                let size = one.format(*size);
                ("no room for ", owner, between, name, " of ", size, " bytes").into()
            }
            Refusal::NoMemory => "out of memory".into(),
        }
    }
}

/// The printed text: what is refused, with names and numbers.
impl fmt::Display for Refusal {
    ghost use Rattle.std.specs.Prelude.{Some};
    ghost use Rattle.policy_types.specs.Refusals.{refusal_text};

    ghost output = { λ refusal. Some (refusal_text refusal) };

    fn fmt<W: fmt::Write>(&self, f: &mut fmt::Formatter<W>) -> fmt::Result {
        let mut one = Buffer::new();
        let mut two = Buffer::new();
        write!(f, "{}", self.pieces(&mut one, &mut two))
    }
}
