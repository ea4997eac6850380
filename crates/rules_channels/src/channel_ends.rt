//! Who writes each channel, and who reads it.
ghost use Rattle.std.specs.Prelude.{◌≡◌, ◌++◌, filter, length, map, not, IfOk};
ghost use Rattle.policy_lawful.specs.MoreRules.{is_writer};
ghost use Rattle.policy_lawful.specs.Resolution.{IsResolved};
ghost use Rattle.rules_channels.specs.ByIndex.{AreItems};
ghost use Rattle.rules_channels.specs.ChannelEnds.{met, all_channel_ends, all_writers, all_readers};
ghost use Rattle.rules_channels.specs.Parties.{party};

use crate::by_index::by_index;
use crate::parties::Party;
use muen_num::{NoMemory, Seq};
use policy_lawful::resolved::Subject;
use policy_lawful::{IndexedEnd, Role};
use policy_views::Linked;
use std::alloc::{AllocError, Global};

/// An end of a channel with its subject.
#[derive(Clone, Copy, Debug)]
pub struct Met {
    pub party: Party,
    pub end: IndexedEnd,
}

// Notes a subject's ends at their channels.
fn note_channel_ends(
    noted: &mut Vec<(usize, Met)>,
    index: usize,
    subject: &Subject,
    ends: &[IndexedEnd],
) -> Result<(), NoMemory>
    ensures { IfOk result (λ _. noted.new.items ≡ noted.old.items ++ map (λ e. (e.channel, met (party (index, subject.now)) e)) ends.now) }
{
    for end in ends {
        let party = Party {
            name: subject.name,
            index,
        };
        noted.push((end.channel, Met { party, end: *end }))?;
    }
    Ok(())
}

// All ends of channels, each with the index of its channel, in the order of their subjects.
fn all_channel_ends(alloc: Global, policy: &Linked) -> Result<Vec<(usize, Met)>, NoMemory>
    ensures ends { IfOk result (λ v. v.items ≡ all_channel_ends policy.now) }
    ensures resolved { IsResolved policy.now }
{
    let mut noted = Vec::new(alloc);
    for (index, subject) in policy.subjects().iter().enumerate() {
        note_channel_ends(&mut noted, index, subject, policy.channel_ends(index))?;
    }
    Ok(noted)
}

// Whether it is a writer's.
fn is_writer(role: Role) -> bool
    ensures { result ≡ is_writer role }
{
    match role {
        Role::Writer => true,
        Role::Reader => false,
    }
}

// Those of writers.
fn of_writers(alloc: Global, noted: &[(usize, Met)]) -> Result<Vec<(usize, Met)>, AllocError>
    ensures { IfOk result (λ v. v.items ≡ filter (λ x. is_writer x.1.end.role) noted.now) }
{
    let mut kept = Vec::new(alloc);
    for item in noted {
        if is_writer(item.1.end.role) {
            kept.push(*item)?;
        }
    }
    Ok(kept)
}

// Those of readers.
fn of_readers(alloc: Global, noted: &[(usize, Met)]) -> Result<Vec<(usize, Met)>, AllocError>
    ensures { IfOk result (λ v. v.items ≡ filter (λ x. not (is_writer x.1.end.role)) noted.now) }
{
    let mut kept = Vec::new(alloc);
    for item in noted {
        if !is_writer(item.1.end.role) {
            kept.push(*item)?;
        }
    }
    Ok(kept)
}

/// For each channel the ends of its writers.
///
/// Answers `NoMemory` where memory was refused.
pub fn writers_by_channel(alloc: Global, policy: &Linked) -> Result<Vec<Seq<Met>>, NoMemory>
    ensures ends { IfOk result (λ v. AreItems v.items (length policy.now.channels) (all_writers policy.now)) }
    ensures resolved { IsResolved policy.now }
{
    let noted = all_channel_ends(alloc, policy)?;
    let kept = of_writers(alloc, &noted)?;
    by_index(alloc, &kept, policy.channels().len())
}

/// For each channel the ends of its readers.
///
/// Answers `NoMemory` where memory was refused.
pub fn readers_by_channel(alloc: Global, policy: &Linked) -> Result<Vec<Seq<Met>>, NoMemory>
    ensures ends { IfOk result (λ v. AreItems v.items (length policy.now.channels) (all_readers policy.now)) }
    ensures resolved { IsResolved policy.now }
{
    let noted = all_channel_ends(alloc, policy)?;
    let kept = of_readers(alloc, &noted)?;
    by_index(alloc, &kept, policy.channels().len())
}
