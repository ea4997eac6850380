//! Elements that refer to names, and the indexes that stand for these.
ghost use Rattle.std.specs.Prelude.{◌≡◌, length, map, nat_lt, true};
ghost use Rattle.std.specs.List.{list_all};
ghost use Rattle.muen_num.specs.Search.{first_in};
ghost use Rattle.policy_lawful.specs.Keeps.{Keeps};
ghost use Rattle.policy_lawful.specs.Offences.{broken};
ghost use Rattle.policy_lawful.specs.Rules.{undeclared};
ghost use Rattle.policy_names.specs.Indexes.{StandsFor, all_below};

use crate::scope::Scope;
use muen_num::{Name, Seq};
use policy_lawful::{NameSet, Refusal};
use std::alloc::Global;

/// An element that refers to one name.
pub trait Reference {
    ghost use Rattle.std.specs.Prelude.{ℕ, List};

    /// The element with an index for the name.
    type Resolved: Drop;

    /// The name.
    ghost name: { Self → List ℕ };

    /// The element that has the name at this index of these.
    ghost named: { List (List ℕ) → Self.Resolved → Self };

    /// The index.
    ghost index: { Self.Resolved → ℕ };

    /// Finds the index. Where the name isn't there, answers the refusal by rule 2 of the element
    /// that has the name `by`.
    fn resolve_in(&self, names: &NameSet, by: Name) -> Result<Self::Resolved, Refusal>
        ensures { Keeps (broken 2 (undeclared by (names.now, name self.now))) (StandsFor (named names.now) (λ x. nat_lt (index x) (length names.now)) self.now) result };
}

/// Finds the indexes of all elements of a list, which stand in the element that has the name `by`.
///
/// Answers the refusal of the first name that isn't there, and `NoMemory` where memory was refused.
#[tactic(auto, using(crate::proofs::Refusals::explains_at))]
pub fn resolve_all_in<T: Reference>(
    alloc: Global,
    names: &NameSet,
    by: Name,
    items: &[T],
) -> Result<Seq<T::Resolved>, Refusal>
    ensures { let n = names.now in Keeps (broken 2 (first_in (λ x. undeclared by (n, T.name x)) items.now)) (StandsFor (map (T.named n)) (all_below T.index (length n)) items.now) result }
{
    let mut resolved = Seq::new(alloc);
    for item in items {
        resolved.push(item.resolve_in(names, by)?)?;
    }
    Ok(resolved)
}

/// An element with references.
pub trait Refers: Drop {
    ghost use Rattle.std.specs.Prelude.{Bool, Option};
    ghost use Rattle.policy_lawful.specs.declared.offence.Offence.{Offence};
    ghost use Rattle.policy_lawful.specs.source.Source.{Source};

    /// What tells who it is that refers.
    type By: Copy;

    /// The element with indexes for the names.
    type Resolved: Drop;

    /// The offence against rule 2 of its references, in a policy.
    ghost offence: { Source → Self.By → Self → Option Offence };

    /// The element that has the names at these indexes.
    ghost named: { Source → Self.By → Self.Resolved → Self };

    /// The indexes are in range.
    ghost in_range: { Source → Self.By → Self.Resolved → Bool };

    /// Finds the indexes. Answers the refusal of the first name that isn't declared, and `NoMemory`
    /// where memory was refused.
    fn resolve(&self, alloc: Global, scope: &Scope, by: Self::By) -> Result<Self::Resolved, Refusal>
        ensures { let p = scope.now.source.now in Keeps (broken 2 (offence p by self.now)) (StandsFor (named p by) (in_range p by) self.now) result };
}

/// Finds the indexes of all elements of a list.
///
/// Answers the refusal of the first name that isn't declared, and `NoMemory` where memory was
/// refused.
#[tactic(auto, using(crate::proofs::Refusals::explains_at))]
pub fn resolve_all<T: Refers>(
    alloc: Global,
    scope: &Scope,
    by: T::By,
    items: &[T],
) -> Result<Seq<T::Resolved>, Refusal>
    ensures { let p = scope.now.source.now in Keeps (broken 2 (first_in (T.offence p by) items.now)) (StandsFor (map (T.named p by)) (list_all (T.in_range p by)) items.now) result }
{
    let mut resolved = Seq::new(alloc);
    for item in items {
        resolved.push(item.resolve(alloc, scope, by)?)?;
    }
    Ok(resolved)
}
