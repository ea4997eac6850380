//! The texts of faults, as they are printed.
ghost use Rattle.std.specs.Prelude.{◌≡◌};
ghost use Rattle.image_verify.specs.FaultText.{fault_text, letter, not_sound_section, owner_text};
ghost use Rattle.muen_num.specs.Fixed.{hex16};
ghost use Rattle.muen_num.specs.Pieces.{whole};

use crate::fault::{Condition, Fault, Owner};
use muen_num::Pieces;
use std::str;

/// Room for the sixteen digits of an address.
#[derive(Clone, Copy, Debug)]
pub struct AddressDigits {
    digits: [u8; 16],
}

// An address in sixteen hexadecimal digits, in lower case.
fn digits_of(addr: u64) -> [u8; 16]
    ensures { result ≡ hex16 addr }
{
    let mut digits = [0u8; 16];
    let _ = hex::encode_to_slice(addr.to_be_bytes(), &mut digits);
    digits
}

impl AddressDigits {
    pub fn new() -> AddressDigits {
        AddressDigits { digits: [b'0'; 16] }
    }

    // The digits of this address.
    fn format(&mut self, addr: u64) -> &str
        ensures { result.now ≡ hex16 addr }
    {
        self.digits = digits_of(addr);
        str::from_utf8(&self.digits).unwrap()
    }
}

impl Condition {
    /// The letter of the condition.
    pub fn letter(self) -> &'static str
        ensures { result.now ≡ letter self }
    {
        match self {
            Condition::Contents => "a",
            Condition::Tables => "c",
            Condition::Bitmaps => "d",
            Condition::Areas => "e",
            Condition::States => "f",
            Condition::OwnPages => "g",
            Condition::Plan => "h",
        }
    }
}

impl Owner {
    /// The name, or `plan`.
    pub fn as_str(&self) -> &str
        ensures { result.now ≡ owner_text self.now }
    {
        match self {
            Owner::Plan => "plan",
            Owner::Named(name) => name.as_str(),
        }
    }
}

// Words that are too long for the search among others.
#[tactic(auto, unfolding(crate::specs::FaultText::not_sound_section))]
fn not_sound_section() -> &'static str
    ensures { result.now ≡ not_sound_section }
{
    "not sound: section "
}

impl Fault {
    /// The text in pieces: what fails and whose it is, or what a walk does, of which subject, and at which
    /// guest address. The digits of the address stand in the buffer.
    pub fn pieces<'a>(&'a self, digits: &'a mut AddressDigits) -> Pieces<'a>
        ensures { whole result ≡ fault_text self.now }
    {
        match self {
            Fault::Fails { condition, owner } => {
                (not_sound_section(), condition.letter(), " ", owner.as_str()).into()
            }
            Fault::Twice { subject, addr } => {
                let addr = digits.format(*addr);
                ("not sound: twice ", subject.as_str(), " ", addr).into()
            }
            Fault::Leak { subject, addr } => {
                let addr = digits.format(*addr);
                ("not sound: leak ", subject.as_str(), " ", addr).into()
            }
            Fault::Lacks { subject, addr } => {
                let addr = digits.format(*addr);
                ("not sound: lacks ", subject.as_str(), " ", addr).into()
            }
        }
    }
}
