//! The ends of channels of a subject.
ghost use Rattle.std.specs.Prelude.{◌≡◌, map, IfOk};
ghost use Rattle.std.specs.List.{filter_map, enumerate_from};
ghost use Rattle.std.specs.BTreeMap.{IsOrdered};
ghost use Rattle.std.specs.Ordering.{nat_cmp};
ghost use Rattle.policy_views.specs.Entries.{chosen_end};
ghost use Rattle.policy_lawful.specs.Views.{component_end, channel_ends_of, use_ends};

use crate::entries::{Choice, Choices, Wants, choices};
use muen_num::NoMemory;
use policy_lawful::resolved::{ChannelUse, ComponentUse, MapEntry, Subject};
use policy_lawful::source::ComponentChannel;
use policy_lawful::{Elements, IndexedEnd};
use std::alloc::{AllocError, Global};

// The end of the channel that is chosen for the channel at an index of these.
fn chosen_end(channels: &[ComponentChannel], index: usize, choice: &Choice) -> Option<IndexedEnd>
    ensures { result ≡ chosen_end channels.now (index, choice.now) }
{
    let channel = channels.get(index)?;
    Some(IndexedEnd {
        channel: choice.physical,
        role: channel.role,
        call: channel.call,
        vector: channel.vector,
    })
}

fn of_channels(alloc: Global, channels: &[ChannelUse]) -> Result<Vec<IndexedEnd>, AllocError>
    ensures { IfOk result (λ v. v.items ≡ map (λ c. record { channel = c.channel; role = c.role; call = c.call; vector = c.vector }) channels.now) }
{
    channels
        .iter()
        .map(|c| IndexedEnd {
            channel: c.channel,
            role: c.role,
            call: c.call,
            vector: c.vector,
        })
        .collect(alloc)
}

fn chosen_ends(
    alloc: Global,
    choices: &Choices,
    channels: &[ComponentChannel],
) -> Result<Vec<IndexedEnd>, NoMemory>
    ensures value { IfOk result (λ v. v.items ≡ filter_map (chosen_end channels.now) choices.now.entries) }
    ensures ordered { IsOrdered nat_cmp choices.now }
{
    let mut ends = Vec::new(alloc);
    for (index, choice) in choices.iter() {
        if let Some(end) = chosen_end(channels, *index, choice) {
            ends.push(end)?;
        }
    }
    Ok(ends)
}

#[tactic(auto, using(crate::proofs::EntriesNoted::ends_chosen))]
fn of_component(
    alloc: Global,
    entries: &[MapEntry],
    channels: &[ComponentChannel],
) -> Result<Vec<IndexedEnd>, NoMemory>
    ensures { IfOk result (λ v. v.items ≡ filter_map (component_end entries.now) (enumerate_from 0 channels.now)) }
{
    let choices = choices(alloc, Wants::Channel, entries)?;
    let ends = chosen_ends(alloc, &choices, channels)?;
    Ok(ends)
}

fn of_use(
    alloc: Global,
    policy: &Elements,
    used: &Option<ComponentUse>,
) -> Result<Vec<IndexedEnd>, NoMemory>
    ensures { IfOk result (λ v. v.items ≡ use_ends policy.now used.now) }
{
    match used {
        None => Ok(Vec::new(alloc)),
        Some(used) => match policy.components.items().get(used.used) {
            None => Ok(Vec::new(alloc)),
            Some(component) => of_component(alloc, used.map.items(), component.channels.items()),
        },
    }
}

/// The ends of channels of a subject, its own and then those of its component.
///
/// Answers `NoMemory` where memory was refused.
#[tactic(auto, unfolding(policy_lawful::specs::Views::channel_ends_of))]
pub(crate) fn channel_ends(
    alloc: Global,
    policy: &Elements,
    subject: &Subject,
) -> Result<Vec<IndexedEnd>, NoMemory>
    ensures { IfOk result (λ v. v.items ≡ channel_ends_of policy.now subject.now) }
{
    let mut ends = of_channels(alloc, subject.channels.items())?;
    let component = of_use(alloc, policy, &subject.component)?;
    ends.extend_from_slice(&component)?;
    Ok(ends)
}
