//! The subjects that raise each event, and those that it reaches.
ghost use Rattle.std.specs.Prelude.{◌≡◌, ◌++◌, IfOk};
ghost use Rattle.std.specs.List.{enumerate_from, flat_map};
ghost use Rattle.rules_channels.specs.ByIndex.{AreItems};
ghost use Rattle.rules_channels.specs.Parties.{source_parties, target_parties};

use crate::by_index::by_index;
use muen_num::{Name, NoMemory, Seq};
use policy_lawful::resolved::Subject;
use std::alloc::Global;

/// A subject by its name and its index.
#[derive(Clone, Copy, Debug)]
pub struct Party {
    pub name: Name,
    pub index: usize,
}

// Notes a subject at the event of each of its sources.
fn note_sources(
    noted: &mut Vec<(usize, Party)>,
    index: usize,
    subject: &Subject,
) -> Result<(), NoMemory>
    ensures { IfOk result (λ _. noted.new.items ≡ noted.old.items ++ source_parties (index, subject.now)) }
{
    for source in subject.sources.items() {
        let party = Party {
            name: subject.name,
            index,
        };
        noted.push((source.event, party))?;
    }
    Ok(())
}

// Notes a subject at the event of each of its targets.
fn note_targets(
    noted: &mut Vec<(usize, Party)>,
    index: usize,
    subject: &Subject,
) -> Result<(), NoMemory>
    ensures { IfOk result (λ _. noted.new.items ≡ noted.old.items ++ target_parties (index, subject.now)) }
{
    for target in subject.targets.items() {
        let party = Party {
            name: subject.name,
            index,
        };
        noted.push((target.event, party))?;
    }
    Ok(())
}

fn all_sources(alloc: Global, subjects: &[Subject]) -> Result<Vec<(usize, Party)>, NoMemory>
    ensures { IfOk result (λ v. v.items ≡ flat_map source_parties (enumerate_from 0 subjects.now)) }
{
    let mut noted = Vec::new(alloc);
    for (index, subject) in subjects.iter().enumerate() {
        note_sources(&mut noted, index, subject)?;
    }
    Ok(noted)
}

fn all_targets(alloc: Global, subjects: &[Subject]) -> Result<Vec<(usize, Party)>, NoMemory>
    ensures { IfOk result (λ v. v.items ≡ flat_map target_parties (enumerate_from 0 subjects.now)) }
{
    let mut noted = Vec::new(alloc);
    for (index, subject) in subjects.iter().enumerate() {
        note_targets(&mut noted, index, subject)?;
    }
    Ok(noted)
}

/// For each of so many events the subjects of its sources.
///
/// Answers `NoMemory` where memory was refused.
pub fn sources_by_event(
    alloc: Global,
    subjects: &[Subject],
    events: usize,
) -> Result<Vec<Seq<Party>>, NoMemory>
    ensures { IfOk result (λ v. AreItems v.items events (flat_map source_parties (enumerate_from 0 subjects.now))) }
{
    let noted = all_sources(alloc, subjects)?;
    by_index(alloc, &noted, events)
}

/// For each of so many events the subjects of its targets.
///
/// Answers `NoMemory` where memory was refused.
pub fn targets_by_event(
    alloc: Global,
    subjects: &[Subject],
    events: usize,
) -> Result<Vec<Seq<Party>>, NoMemory>
    ensures { IfOk result (λ v. AreItems v.items events (flat_map target_parties (enumerate_from 0 subjects.now))) }
{
    let noted = all_targets(alloc, subjects)?;
    by_index(alloc, &noted, events)
}
