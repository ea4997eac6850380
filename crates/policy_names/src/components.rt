//! Uses of components, which refer to components, to what these want, and to regions and channels.
ghost use Rattle.muen_num.specs.Search.{first_in};
ghost use Rattle.std.specs.Prelude.{slice_get};
ghost use Rattle.policy_lawful.specs.Resolution.{component_in_range, component_named, entry_in_range, entry_named};
ghost use Rattle.policy_lawful.specs.Rules.{component_references, entry_references, undeclared};
ghost use Rattle.policy_lawful.specs.Keeps.{Keeps};
ghost use Rattle.policy_lawful.specs.Offences.{broken};
ghost use Rattle.policy_names.specs.Entries.{EntriesStand, EntryStands, entries_offence, map_entry_offence};
ghost use Rattle.policy_names.specs.Outline.{bare_resolution};

use crate::declared::{find, not_declared, refer};
use crate::parts::WantedNames;
use crate::refers::{Refers, resolve_all};
use crate::scope::Scope;
use muen_num::Name;
use policy_lawful::resolved::{self, Wanted};
use policy_lawful::{Refusal, source};
use std::alloc::Global;

/// A subject's use of a component.
#[derive(Clone, Copy)]
pub struct Use {
    /// The subject's name.
    pub subject: Name,
    /// The component's index.
    pub component: usize,
}

/// An entry of a component's map.
impl Refers for source::MapEntry {
    type By = Use;

    type Resolved = resolved::MapEntry;

    ghost offence = { λ p u e. first_in (undeclared u.subject) (entry_references p (slice_get p.components u.component) e) };

    ghost named = { λ p u e. entry_named (bare_resolution p) u.component e.logical e };

    ghost in_range = { λ p u e. entry_in_range (bare_resolution p) u.component e.logical e.physical };

    fn resolve(&self, _: Global, scope: &Scope, by: Use) -> Result<resolved::MapEntry, Refusal> {
        match scope.wanted_at(by.component) {
            Some(names) => resolve_entry(scope, names, by.subject, self),
            None => Err(not_declared(by.subject, self.logical)),
        }
    }
}

// The entry of a component, which wants these names, in the subject that has the name `by`.
#[tactic(auto, using(crate::proofs::Elements::entry))]
fn resolve_entry(
    scope: &Scope,
    names: &WantedNames,
    by: Name,
    entry: &source::MapEntry,
) -> Result<resolved::MapEntry, Refusal>
    ensures { let p = scope.now.source.now in Keeps (broken 2 (map_entry_offence p names.now by entry.now)) (EntryStands p names.now entry.now) result }
{
    if let Some(index) = find(&names.channels, entry.logical) {
        return Ok(resolved::MapEntry {
            logical: Wanted::Channel(index),
            physical: refer(&scope.channels, by, entry.physical)?,
            rights: entry.rights,
        });
    }
    Ok(resolved::MapEntry {
        logical: Wanted::Memory(refer(&names.regions, by, entry.logical)?),
        physical: refer(&scope.regions, by, entry.physical)?,
        rights: entry.rights,
    })
}

/// The use of the subject that has this name.
impl Refers for source::ComponentUse {
    type By = Name;

    type Resolved = resolved::ComponentUse;

    ghost use Rattle.std.specs.Prelude.{Some};

    ghost offence = { λ p by c. first_in (undeclared by) (component_references p (Some c)) };

    ghost named = { λ p _. component_named (bare_resolution p) };

    ghost in_range = { λ p _. component_in_range (bare_resolution p) };

    fn resolve(
        &self,
        alloc: Global,
        scope: &Scope,
        by: Name,
    ) -> Result<resolved::ComponentUse, Refusal> {
        let component = refer(&scope.components, by, self.used)?;
        resolve_entries(
            alloc,
            scope,
            Use {
                subject: by,
                component,
            },
            self,
        )
    }
}

// The use of the component at an index.
fn resolve_entries(
    alloc: Global,
    scope: &Scope,
    by: Use,
    used: &source::ComponentUse,
) -> Result<resolved::ComponentUse, Refusal>
    ensures { let p = scope.now.source.now in Keeps (broken 2 (entries_offence p by.subject by.component used.now)) (EntriesStand p by.component used.now) result }
{
    Ok(resolved::ComponentUse {
        used: by.component,
        map: resolve_all(alloc, scope, by, used.map.items())?,
    })
}
