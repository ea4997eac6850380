//! Names that are declared, each once, and references to them.
ghost use Rattle.std.specs.Prelude.{◌≡◌, ◌++◌, length, map, nat_lt, is_some, IfSome};
ghost use Rattle.policy_lawful.specs.Keeps.{Keeps};
ghost use Rattle.policy_lawful.specs.Offences.{broken};
ghost use Rattle.policy_lawful.specs.Resolution.{name_at};
ghost use Rattle.policy_lawful.specs.Rules.{is_declared, undeclared};
ghost use Rattle.policy_names.specs.Parts.{repeats, repeats_behind};
ghost use Rattle.policy_names.specs.Indexes.{StandsFor};
ghost use Rattle.policy_lawful.specs.refusal.Refusal.TheVariants.{Rule};

use muen_num::Name;
use policy_lawful::{NameHash, NameSet, Named, Refusal};
use std::alloc::Global;

/// The refusal by rule 2 of the element that has the name `by` and refers to `name`.
pub fn not_declared(by: Name, name: Name) -> Refusal
    ensures { result ≡ Rule 2 by name }
{
    Refusal::Rule {
        number: 2,
        first: by,
        second: name,
    }
}

/// These names, and those of these elements behind them.
///
/// Answers the refusal by rule 1 of the first name that stood before, and `NoMemory` where memory
/// was refused.
#[tactic(auto, using(crate::proofs::Names::behind))]
pub fn declare<T: Named>(names: NameSet, items: &[T]) -> Result<NameSet, Refusal>
    ensures { Keeps (broken 1 (repeats_behind names (map T.name items.now))) (λ x. x ≡ names ++ map T.name items.now) result }
{
    let mut names = names;
    for item in items {
        let name = item.name();
        if !names.add(name)? {
            return Err(Refusal::Rule {
                number: 1,
                first: name,
                second: name,
            });
        }
    }
    Ok(names)
}

/// The names of these elements, which are hashed so.
///
/// Answers the refusal by rule 1 of the first name that stood before, and `NoMemory` where memory
/// was refused.
#[tactic(auto, using(crate::proofs::Names::none_in_front))]
pub fn names_hashed<T: Named>(
    alloc: Global,
    hash: NameHash,
    items: &[T],
) -> Result<NameSet, Refusal>
    ensures { Keeps (broken 1 (repeats (map T.name items.now))) (λ x. x ≡ map T.name items.now) result }
{
    declare(NameSet::new(alloc, hash), items)
}

/// The names of these elements.
///
/// Answers the refusal by rule 1 of the first name that stood before, and `NoMemory` where memory
/// was refused.
pub fn names_of<T: Named>(alloc: Global, items: &[T]) -> Result<NameSet, Refusal>
    ensures { Keeps (broken 1 (repeats (map T.name items.now))) (λ x. x ≡ map T.name items.now) result }
{
    names_hashed(alloc, NameHash::behind(items), items)
}

/// The index of a name; `None` exactly where it isn't there.
pub fn find(names: &NameSet, name: Name) -> Option<usize>
    ensures declared { is_some result ≡ is_declared names.now name }
    ensures index { IfSome result (StandsFor (name_at names.now) (λ index. nat_lt index (length names.now)) name) }
{
    names.index_of(&name)
}

/// The index of a name that an element refers to; where it isn't declared, the refusal by rule 2 of
/// the element, which has the name `by`.
pub fn refer(names: &NameSet, by: Name, name: Name) -> Result<usize, Refusal>
    ensures { Keeps (broken 2 (undeclared by (names.now, name))) (StandsFor (name_at names.now) (λ index. nat_lt index (length names.now)) name) result }
{
    match names.index_of(&name) {
        Some(index) => Ok(index),
        None => Err(not_declared(by, name)),
    }
}
