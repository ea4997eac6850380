ghost use Rattle.std.specs.Prelude.{◌≡◌, ◌≤◌, ◌<◌, length, true, IsTrue};
ghost use Rattle.std.specs.List.{list_all};
ghost use Rattle.muen_num.specs.Naming.{is_name_byte, is_name, name_of, name_room};

use crate::limits::NAME_MOST;
use std::cmp::Ordering;
use std::hash::{Hash, Hasher};
use std::marker::Model;
use std::{fmt, str};

/// A name: 1 to 63 of ASCII letters, digits, `_`, `-` and `.` (this project's profile of Muen's
/// names). Contracts see the list of its bytes.
#[derive(Clone, Copy, Debug)]
pub struct Name {
    len: u8,
    bytes: [u8; 63],
}

impl Model for Name {
    ghost use Rattle.std.specs.Prelude.{List, ℕ, take};
    ghost use Rattle.muen_num.specs.Naming.{name_length, name_room};

    ghost Value = { List ℕ };

    ghost view = { λ n. take n.len n.bytes };

    ghost use Rattle.muen_num.specs.NameStored.{IsStored, stored_back};

    ghost invariant = { IsStored };

    ghost inverse = { λ text. record { len = name_length text; bytes = name_room text } };

    ghost inverse_ok = { stored_back };
}

fn is_name_byte(c: u8) -> bool
    ensures { result ≡ is_name_byte c }
{
    c.is_ascii_alphanumeric() || c == b'_' || c == b'-' || c == b'.'
}

fn has_name_bytes(text: &[u8]) -> bool
    ensures { result ≡ list_all is_name_byte text.now }
{
    for c in text {
        if !is_name_byte(*c) {
            return false;
        }
    }
    true
}

#[tactic(auto, unfolding(crate::specs::Naming::is_name))]
fn is_name(text: &[u8]) -> bool
    ensures value { result ≡ is_name text.now }
    ensures within { IsTrue result → length text.now ≤ 63 }
{
    if text.is_empty() || text.len() > NAME_MOST {
        return false;
    }
    has_name_bytes(text)
}

// The text with zeros behind it.
#[tactic(auto, unfolding(crate::specs::Naming::name_room))]
fn padded(text: &[u8]) -> [u8; 63]
    requires { length text.now ≤ 63 }
    ensures { result ≡ name_room text.now }
{
    let mut bytes = [0u8; 63];
    let (front, _) = bytes.split_at_mut(text.len());
    front.copy_from_slice(text);
    bytes
}

impl Name {
    /// The name that the text is; `None` exactly where it is none.
    pub fn read(text: &[u8]) -> Option<Name>
        ensures { result ≡ name_of text.now }
    {
        if !is_name(text) {
            return None;
        }
        Some(Name {
            len: text.len() as u8,
            bytes: padded(text),
        })
    }

    /// The bytes of the name.
    pub fn bytes(&self) -> &[u8]
        ensures value { result.now ≡ self.now }
        ensures name { is_name self.now ≡ true }
        ensures within { length result.now ≤ 63 }
    {
        &self.bytes[..self.len as usize]
    }

    /// The name as text.
    #[tactic(auto, using(crate::proofs::NameText::name_is_text))]
    pub fn as_str(&self) -> &str
        ensures value { result.now ≡ self.now }
    {
        str::from_utf8(self.bytes()).unwrap()
    }
}

/// A name is written as its text.
impl fmt::Display for Name {
    ghost use Rattle.std.specs.Prelude.{Some};

    ghost output = { λ n. Some n };

    fn fmt<W: fmt::Write>(&self, f: &mut fmt::Formatter<W>) -> fmt::Result {
        f.write_str(self.as_str())
    }
}

impl PartialEq for Name {
    ghost use Rattle.std.specs.Str.{bytes_eq};
    ghost use Rattle.std.specs.Cmp.{partial_equiv_from_equiv};
    ghost use Rattle.std.specs.Cmp.Lexicographic.{nat_list_eq_equiv};

    ghost eq = { bytes_eq };

    ghost laws = { partial_equiv_from_equiv nat_list_eq_equiv };

    fn eq(&self, other: &Self) -> bool {
        self.bytes() == other.bytes()
    }
}

impl Eq for Name {
    ghost use Rattle.std.specs.Cmp.Lexicographic.{nat_list_eq_equiv};

    ghost laws = { nat_list_eq_equiv };
}

impl PartialOrd for Name {
    ghost use Rattle.std.specs.Prelude.{Some};
    ghost use Rattle.std.specs.Ordering.{nat_cmp};
    ghost use Rattle.std.specs.Cmp.Lexicographic.{slice_cmp, texts_po};

    ghost partial_cmp = { λ x y. Some (slice_cmp nat_cmp x y) };

    ghost laws = { texts_po };

    fn partial_cmp(&self, other: &Self) -> Option<Ordering> {
        Some(self.cmp(other))
    }
}

/// Names are ordered as their bytes.
impl Ord for Name {
    ghost use Rattle.std.specs.Ordering.{nat_cmp};
    ghost use Rattle.std.proofs.Common.{refl};
    ghost use Rattle.std.specs.Cmp.Lexicographic.{slice_cmp, nat_list_cmp_total, texts_ties};

    ghost cmp = { slice_cmp nat_cmp };

    ghost total = { nat_list_cmp_total };

    ghost matches_partial_cmp = { λ x y. refl };

    ghost matches_eq = { texts_ties };

    fn cmp(&self, other: &Self) -> Ordering {
        self.bytes().cmp(other.bytes())
    }
}

/// A name is hashed as its bytes.
impl Hash for Name {
    ghost use Rattle.std.specs.Hash as fed;
    ghost use Rattle.std.specs.Cmp.Rules.{hashing};
    ghost use Rattle.std.proofs.Common.{rules};

    ghost hash_input = { fed.slice fed.u8 };

    ghost respects_eq = { Prim.search (hashing, rules) };

    fn hash<H: Hasher>(&self, state: &mut H) {
        self.bytes().hash(state);
    }
}
