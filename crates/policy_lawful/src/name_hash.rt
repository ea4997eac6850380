//! How names are hashed.
ghost use Rattle.std.specs.Prelude.{◌≡◌, List, ℕ, [], ◌∷◌, ◌++◌, map};
ghost use Rattle.policy_lawful.specs.NameHashes.{AreDigested, hasher_behind};

use crate::named::Named;
use muen_num::Name;
use sha2::{Digest, Sha256};
use std::hash::{BuildHasher, FoldHasher, Hasher};

/// The digest of names (SHA-256), each with a zero behind it, which no name has.
#[derive(Drop)]
pub struct NameDigest {
    hasher: Sha256,
}

impl NameDigest {
    /// Of no names.
    pub fn new() -> NameDigest
        ensures { AreDigested result [] }
    {
        NameDigest {
            hasher: Sha256::new(),
        }
    }

    /// Adds a name.
    #[tactic(auto, using(crate::proofs::NameHashes::one_more))]
    pub fn add(&mut self, name: Name)
        ensures { (names : List (List ℕ)) → AreDigested self.old names → AreDigested self.new (names ++ name ∷ []) }
    {
        self.hasher.update(name.bytes());
        self.hasher.update(&[0u8]);
    }

    /// Adds the names of elements.
    pub fn add_all<T: Named>(&mut self, items: &[T])
        ensures { (names : List (List ℕ)) → AreDigested self.old names → AreDigested self.new (names ++ map T.name items.now) }
    {
        for item in items {
            self.add(item.name());
        }
    }

    /// Hashes behind this digest.
    pub fn hash(self) -> NameHash
        ensures { (names : List (List ℕ)) → AreDigested self names → result.start ≡ hasher_behind names }
    {
        let mut start = FoldHasher::default();
        start.write(&self.hasher.finalize());
        NameHash { start }
    }
}

/// Hashes of names, behind the digest of those that are to be looked up, or of more. Without that, who
/// writes a document would know the hash of each name, and could choose names that all fall together.
#[derive(Clone, Copy)]
pub struct NameHash {
    start: FoldHasher,
}

impl NameHash {
    /// Behind the names of these elements.
    pub fn behind<T: Named>(items: &[T]) -> NameHash
        ensures { result.start ≡ hasher_behind (map T.name items.now) }
    {
        let mut digest = NameDigest::new();
        digest.add_all(items);
        digest.hash()
    }
}

impl BuildHasher for NameHash {
    type Hasher = FoldHasher;

    ghost build_hasher = { λ hash. hash.start };

    fn build_hasher(&self) -> FoldHasher {
        self.start
    }
}
