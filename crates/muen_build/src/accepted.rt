//! Policies that are accepted, with the component files that they name.
ghost use Rattle.std.specs.Prelude.{◌≡◌, ◌∷◌, ◌++◌, [], length, None, OnOk, option_map};
ghost use Rattle.muen_outside.specs.Store.{find_bytes};

use indexmap::IndexMap;
use muen_num::{Name, NoMemory, Seq};
use policy_lawful::{NameHash, Refusal};
use region_alloc::Placed;
use std::alloc::{AllocError, Global};
use std::marker::Model;

/// Why a policy is not accepted.
#[derive(Debug, Drop)]
pub enum BuildError {
    /// It is refused, or memory was.
    Refused(Refusal),
    /// A call on files failed.
    FileFault,
}

impl From<Refusal> for BuildError {
    ghost use Rattle.std.specs.Prelude.{◌≡◌};
    ghost use Rattle.muen_build.specs.declared.accepted.BuildError.TheVariants.{Refused};

    ghost from_gives = { λ refusal error. error ≡ Refused refusal };

    fn from(refusal: Refusal) -> BuildError {
        BuildError::Refused(refusal)
    }
}

impl From<NoMemory> for BuildError {
    ghost use Rattle.std.specs.Prelude.{◌≡◌};
    ghost use Rattle.policy_lawful.specs.refusal.Refusal.TheVariants.{NoMemory};
    ghost use Rattle.muen_build.specs.declared.accepted.BuildError.TheVariants.{Refused};

    ghost from_gives = { λ _ error. error ≡ Refused NoMemory };

    fn from(_: NoMemory) -> BuildError {
        BuildError::Refused(Refusal::NoMemory)
    }
}

/// Component files that were read, each once, by their names. Contracts see the list of names with
/// bytes.
#[derive(Drop)]
pub struct ComponentFiles {
    files: IndexMap<Name, Seq<u8>, NameHash>,
}

impl Model for ComponentFiles {
    ghost use Rattle.std.specs.Prelude.{List, ℕ};

    ghost Value = { List (List ℕ × List ℕ) };

    ghost view = { λ x. x.files.entries };
}

impl ComponentFiles {
    /// No files. The names of those that will be added, or looked up, are hashed so.
    pub fn new(alloc: Global, hash: NameHash) -> ComponentFiles
        ensures { result ≡ [] }
    {
        ComponentFiles {
            files: IndexMap::with_hasher(alloc, hash),
        }
    }

    /// How many bytes the file of this name has, if it was read.
    pub fn length(&self, name: Name) -> Option<usize>
        ensures { result ≡ option_map (λ bytes. length bytes) (find_bytes name self.now) }
    {
        match self.files.get(&name) {
            None => None,
            Some(bytes) => Some(bytes.len()),
        }
    }

    /// The bytes of the file of this name, if it was read.
    pub fn bytes(&self, name: Name) -> Option<&[u8]>
        ensures { option_map (λ bytes. bytes.now) result ≡ find_bytes name self.now }
    {
        match self.files.get(&name) {
            None => None,
            Some(bytes) => Some(bytes.items()),
        }
    }

    /// The bytes of the file that has this text for its name, if it was read. A text that is no name is
    /// that of none.
    pub fn bytes_named(&self, name: &str) -> Option<&[u8]>
        ensures { option_map (λ bytes. bytes.now) result ≡ find_bytes name.now self.now }
    {
        for (file, bytes) in self.files.iter() {
            if file.as_str() == name {
                return Some(bytes.items());
            }
        }
        None
    }

    /// Adds a file that wasn't read before.
    pub fn add(&mut self, name: Name, bytes: Seq<u8>) -> Result<(), NoMemory>
        requires { find_bytes name self.old ≡ None }
        ensures { OnOk result (self.new ≡ self.old ++ (name, bytes) ∷ []) }
    {
        self.files.insert(name, bytes)?;
        Ok(())
    }
}

/// A policy that is accepted, with the files that its contents name.
#[derive(Drop)]
pub struct Accepted {
    /// The policy, with the addresses of its regions.
    pub placed: Placed,
    pub files: ComponentFiles,
}
