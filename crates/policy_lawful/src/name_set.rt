//! Names that can be looked up.
ghost use Rattle.std.specs.Prelude.{◌≡◌, [], None, map, not, position, IfOk, OnOk};
ghost use Rattle.std.specs.List.{list_any};
ghost use Rattle.std.specs.Str.{bytes_eq};
ghost use Rattle.indexmap.specs.IndexSet.{insert_key};
ghost use Rattle.policy_lawful.specs.Rules.{is_declared, repeated};

use crate::name_hash::NameHash;
use crate::named::Named;
use indexmap::IndexSet;
use muen_num::{Name, NoMemory};
use std::alloc::Global;
use std::marker::Model;

/// Names, each once, in the order in which they were added. Contracts see the list of them.
#[derive(Drop)]
pub struct NameSet {
    names: IndexSet<Name, NameHash>,
}

impl Model for NameSet {
    ghost use Rattle.std.specs.Prelude.{List, ℕ};

    ghost Value = { List (List ℕ) };

    ghost view = { λ x. x.names.keys };
}

impl NameSet {
    /// No names. Those that will be added, or looked up, are hashed so.
    pub fn new(alloc: Global, hash: NameHash) -> NameSet
        ensures { result ≡ [] }
    {
        NameSet {
            names: IndexSet::with_hasher(alloc, hash),
        }
    }

    /// The names of these elements, no two of which are the same.
    ///
    /// Answers `NoMemory` where memory was refused.
    #[tactic(auto, using(crate::proofs::NameSets::repeated_from_start))]
    pub fn of<T: Named>(alloc: Global, items: &[T]) -> Result<NameSet, NoMemory>
        requires { repeated (map T.name items.now) ≡ None }
        ensures { IfOk result (λ x. x ≡ map T.name items.now) }
    {
        let mut names = NameSet::new(alloc, NameHash::behind(items));
        for item in items {
            names.add(item.name())?;
        }
        Ok(names)
    }

    /// Adds a name, and answers whether it is new.
    ///
    /// Answers `NoMemory` where memory was refused.
    pub fn add(&mut self, name: Name) -> Result<bool, NoMemory>
        ensures names { OnOk result (self.new ≡ insert_key bytes_eq self.old name) }
        ensures is_new { IfOk result (λ is_new. is_new ≡ not (list_any (bytes_eq name) self.old)) }
    {
        Ok(self.names.insert(name)?)
    }

    /// The index of a name, if it is among these.
    #[tactic(auto, using(crate::proofs::NameSets::position_is))]
    pub fn index_of(&self, name: &Name) -> Option<usize>
        ensures { result ≡ position (λ n. bytes_eq n name.now) self.now }
    {
        self.names.get_index_of(name)
    }

    /// Whether a name is among these.
    #[tactic(auto, using(crate::proofs::NameSets::declared_is))]
    pub fn contains(&self, name: &Name) -> bool
        ensures { result ≡ is_declared self.now name.now }
    {
        self.names.contains(name)
    }
}
