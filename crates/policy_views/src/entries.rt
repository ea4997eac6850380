//! What stands for a component's logical names at a subject.
ghost use Rattle.std.specs.Prelude.{◌≡◌, ℕ, ◌==◌, IfOk, OnOk};
ghost use Rattle.std.specs.BTreeMap.{get};
ghost use Rattle.std.specs.Ordering.{nat_cmp};
ghost use Rattle.policy_views.specs.Entries.{HasChoices, choice_of, index_among, noted, wanted_at};
ghost use Rattle.policy_lawful.specs.Views.{same_wanted};

use muen_num::NoMemory;
use policy_lawful::Rights;
use policy_lawful::resolved::{MapEntry, Wanted};
use std::alloc::Global;
use std::collections::BTreeMap;

/// A kind of logical names that want something.
#[derive(Clone, Copy)]
pub(crate) enum Wants {
    Memory,
    Channel,
}

/// What an entry chooses for a logical name.
#[derive(Clone, Copy)]
pub(crate) struct Choice {
    /// The index of a region or a channel, as the logical name wants.
    pub physical: usize,
    pub rights: Option<Rights>,
}

// The index of a logical name among those of a kind, if it is of that kind.
fn index_among(kind: Wants, wanted: Wanted) -> Option<usize>
    ensures { result ≡ index_among kind wanted }
{
    match (kind, wanted) {
        (Wants::Memory, Wanted::Memory(index)) => Some(index),
        (Wants::Channel, Wanted::Channel(index)) => Some(index),
        _ => None,
    }
}

/// What is chosen, by the indexes of the logical names of a kind.
pub(crate) type Choices = BTreeMap<usize, Choice>;

// Notes a choice at an index that has none.
#[tactic(auto, using(crate::proofs::EntriesNoted::noted_new, crate::proofs::EntriesNoted::noted_old))]
fn note(choices: &mut Choices, index: usize, choice: Choice) -> Result<(), NoMemory>
    ensures { OnOk result ((k : ℕ) → get nat_cmp choices.new k ≡ noted (get nat_cmp choices.old k) (index == k) choice) }
{
    if !choices.contains_key(&index) {
        choices.insert(index, choice)?;
    }
    Ok(())
}

// Notes what an entry chooses, where its logical name is of this kind.
#[tactic(auto, using(crate::proofs::EntriesNoted::noted_at))]
fn note_entry(choices: &mut Choices, kind: Wants, entry: &MapEntry) -> Result<(), NoMemory>
    ensures { OnOk result ((k : ℕ) → get nat_cmp choices.new k ≡ noted (get nat_cmp choices.old k) (same_wanted entry.now.logical (wanted_at kind k)) (choice_of entry.now)) }
{
    match index_among(kind, entry.logical) {
        None => Ok(()),
        Some(index) => note(
            choices,
            index,
            Choice {
                physical: entry.physical,
                rights: entry.rights,
            },
        ),
    }
}

/// For each logical name of a kind that has an entry what its first entry chooses.
///
/// Answers `NoMemory` where memory was refused.
pub(crate) fn choices(alloc: Global, kind: Wants, entries: &[MapEntry]) -> Result<Choices, NoMemory>
    ensures { IfOk result (λ m. HasChoices kind m entries.now) }
{
    let mut choices = BTreeMap::new(alloc);
    for entry in entries {
        note_entry(&mut choices, kind, entry)?;
    }
    Ok(choices)
}
