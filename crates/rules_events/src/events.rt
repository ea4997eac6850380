//! Rule 12: each event has a source and one target.
ghost use Rattle.std.specs.Prelude.{◌≡◌, ◌==◌, ◌&&◌, [], IfOk};
ghost use Rattle.std.specs.List.{enumerate_from};
ghost use Rattle.muen_num.specs.Search.{first_in, unless};
ghost use Rattle.policy_lawful.specs.MoreRules.{offence_12};
ghost use Rattle.policy_lawful.specs.Resolution.{source_of};
ghost use Rattle.rules_events.specs.Events.{event_fault};

use muen_num::{NoMemory, Seq, first_numbered};
use policy_lawful::Offence;
use policy_lawful::source::Event;
use policy_views::Linked;
use rules_channels::by_index::at;
use rules_channels::parties::{Party, sources_by_event, targets_by_event};
use std::alloc::Global;

// The first event without sources, or that hasn't one target.
fn first_fault(sources: &[Seq<Party>], targets: &[Seq<Party>], events: &[Event]) -> Option<Offence>
    ensures { result ≡ first_in (event_fault sources.now targets.now) (enumerate_from 0 events.now) }
{
    first_numbered(events, |index, event| {
        Offence::alone(event.name).unless(
            !at(sources, index).is_empty() && at(targets, index).len() == 1,
        )
    })
}

/// The first offence against rule 12, if any: an event that no subject raises, or that hasn't
/// exactly one target.
///
/// Answers `NoMemory` where memory was refused.
#[tactic(auto, using(crate::proofs::EventsByIndex::sourced_by_index))]
pub fn sourced(alloc: Global, policy: &Linked) -> Result<Option<Offence>, NoMemory>
    ensures { IfOk result (λ o. o ≡ offence_12 (source_of policy.now)) }
{
    let events = policy.events();
    let sources = sources_by_event(alloc, policy.subjects(), events.len())?;
    let targets = targets_by_event(alloc, policy.subjects(), events.len())?;
    Ok(first_fault(&sources, &targets, events))
}
