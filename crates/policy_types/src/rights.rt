ghost use Rattle.std.specs.Prelude.{⊤, ◌≡◌, [], ◌∷◌, codes};
ghost use Rattle.policy_types.specs.Rights.{allows, includes, may_execute, may_write, rights_bits};

use bitflags::{Flag, Flags, bitflag_items};
use muen_num::AccessKind;

/// Any set of the rights to read, to write and to execute: the low three bits of an EPT entry (Intel
/// SDM volume 3, EPT).
#[derive(Clone, Copy, Debug)]
pub struct RightSet(u8);

bitflag_items! {
    impl RightSet: u8 {
        const READ = 1;
        const WRITE = 2;
        const EXECUTE = 4;
    }
}

impl Flags for RightSet {
    type Bits = u8;

    ghost exact = { ⊤ };

    ghost table = { (codes "READ", 1) ∷ (codes "WRITE", 2) ∷ (codes "EXECUTE", 4) ∷ [] };

    ghost set_of = { λ s. s.0 };

    fn flags<'a>() -> &'a [Flag<RightSet>] {
        RightSet::FLAGS
    }

    fn bits(&self) -> u8 {
        self.0
    }

    fn from_bits_retain(bits: u8) -> RightSet {
        RightSet(bits)
    }
}

/// The right that a kind of access needs.
impl From<AccessKind> for RightSet {
    ghost use Rattle.std.specs.Prelude.{◌≡◌};
    ghost use Rattle.muen_num.specs.Access.{kind_bit};

    ghost from_gives = { λ kind set. set.0 ≡ kind_bit kind };

    fn from(kind: AccessKind) -> RightSet {
        match kind {
            AccessKind::Read => RightSet::READ,
            AccessKind::Write => RightSet::WRITE,
            AccessKind::Fetch => RightSet::EXECUTE,
        }
    }
}

/// What may be done with a window of memory: one of four sets of rights. Each may be read.
#[derive(Clone, Copy, PartialEq, Eq, Debug)]
pub enum Rights {
    /// To read.
    R,
    /// To read and to write.
    Rw,
    /// To read and to execute.
    Rx,
    /// To read, to write and to execute.
    Rwx,
}

/// The rights as a set.
impl From<Rights> for RightSet {
    ghost use Rattle.std.specs.Prelude.{◌≡◌};
    ghost use Rattle.policy_types.specs.Rights.{rights_bits};

    ghost from_gives = { λ rights set. set.0 ≡ rights_bits rights };

    #[tactic(auto, unfolding(bitflags::proofs::OnLiterals::bitflags_on_literals))]
    fn from(rights: Rights) -> RightSet {
        match rights {
            Rights::R => RightSet::READ,
            Rights::Rw => RightSet::READ.union(RightSet::WRITE),
            Rights::Rx => RightSet::READ.union(RightSet::EXECUTE),
            Rights::Rwx => RightSet::all(),
        }
    }
}

impl Rights {
    /// The low three bits of an EPT entry: 1 to read, 2 to write, 4 to execute (Intel SDM volume 3,
    /// EPT).
    pub fn bits(self) -> u8
        ensures { result ≡ rights_bits self }
    {
        RightSet::from(self).bits()
    }

    /// Whether writing is among them.
    pub fn may_write(self) -> bool
        ensures { result ≡ may_write self }
    {
        RightSet::from(self).contains(RightSet::WRITE)
    }

    /// Whether executing is among them.
    pub fn may_execute(self) -> bool
        ensures { result ≡ may_execute self }
    {
        RightSet::from(self).contains(RightSet::EXECUTE)
    }

    /// Whether each right of the others is among them.
    pub fn includes(self, others: Rights) -> bool
        ensures { result ≡ includes self others }
    {
        RightSet::from(self).contains(RightSet::from(others))
    }

    /// Whether the right that a kind of access needs is among them.
    pub fn allows(self, kind: AccessKind) -> bool
        ensures { result ≡ allows self kind }
    {
        RightSet::from(self).contains(RightSet::from(kind))
    }
}

/// Which accesses of an MSR are granted.
#[derive(Clone, Copy, Debug, PartialEq, Eq)]
pub struct MsrRights {
    pub read: bool,
    pub write: bool,
}

/// The memory type of a region (Intel SDM volume 3, memory types).
#[derive(Clone, Copy, Debug)]
pub enum Caching {
    /// Uncacheable.
    Uc,
    /// Write combining.
    Wc,
    /// Write through.
    Wt,
    /// Write protected.
    Wp,
    /// Write back.
    Wb,
}

/// Which end of a channel a subject has.
#[derive(Clone, Copy, Debug, PartialEq, Eq)]
pub enum Role {
    Writer,
    Reader,
}
