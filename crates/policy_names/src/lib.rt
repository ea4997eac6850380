//! References of a policy, resolved: each name that an element refers to is declared, and its index
//! stands in its stead.
#![tactic(auto)]

ghost use Rattle.std.specs.Prelude.{◌≡◌};
ghost use Rattle.muen_num.specs.Answers.{Answers};
ghost use Rattle.policy_lawful.specs.Keeps.{Keeps};
ghost use Rattle.policy_lawful.specs.Lawful.{kept_or};
ghost use Rattle.policy_lawful.specs.Offences.{broken};
ghost use Rattle.policy_lawful.specs.Resolution.{IsResolved, are_in_range, kept_source, source_of};
ghost use Rattle.policy_lawful.specs.Rules.{offence_2};
ghost use Rattle.policy_names.specs.Outline.{with_resolved};
ghost use Rattle.policy_names.specs.Indexes.{StandsFor};
ghost use Rattle.policy_names.specs.Names.{names_broken};
ghost use Rattle.policy_lawful.specs.refusal.Refusal.TheVariants.{NoMemory};

mod components;
mod declared;
mod devices;
mod frames;
mod groups;
mod parts;
mod references;
mod refers;
mod scope;
mod subjects;

use crate::frames::resolve_majors;
use crate::refers::resolve_all;
use crate::scope::Scope;
use muen_num::Seq;
use policy_lawful::resolved::{Scheduling, Subject};
use policy_lawful::{Elements, Refusal, Source};
use policy_views::Linked;
use std::alloc::Global;

// The elements that refer to names, with indexes in place of these.
#[tactic(auto, using(crate::proofs::Resolved::in_turn))]
fn resolve_elements(alloc: Global, scope: &Scope) -> Result<(Seq<Subject>, Scheduling), Refusal>
    ensures { let p = scope.now.source.now in Keeps (broken 2 (offence_2 p)) (λ x. StandsFor source_of are_in_range p (with_resolved p x.0 x.1)) result }
{
    let source = scope.source;
    let subjects = resolve_all(alloc, scope, (), source.subjects.items())?;
    let groups = resolve_all(alloc, scope, (), source.scheduling.groups.items())?;
    let major_frames = resolve_majors(alloc, scope, source.scheduling.major_frames.items())?;
    Ok((
        subjects,
        Scheduling {
            groups,
            major_frames,
            tau0: source.scheduling.tau0,
        },
    ))
}

// The same of any policy, whose names are collected first.
#[tactic(auto, using(crate::proofs::Resolved::resolution))]
fn resolve_source(alloc: Global, source: &Source) -> Result<(Seq<Subject>, Scheduling), Refusal>
    ensures { let p = source.now in Keeps (names_broken p) (λ x. IsResolved (with_resolved p x.0 x.1) × (source_of (with_resolved p x.0 x.1) ≡ p)) result }
{
    let scope = Scope::of(alloc, source)?;
    let elements = resolve_elements(alloc, &scope);
    drop(scope);
    elements
}

/// Resolves the references of a policy, and keeps what each of its subjects sees by itself.
///
/// Answers `Rule` with the first offence against rule 1, that names are unique for each kind, else
/// against rule 2, that each reference names a declared thing; and `NoMemory` where memory was
/// refused.
#[tactic(auto, using(crate::proofs::Resolved::resolution))]
pub fn resolve(alloc: Global, source: Source) -> Result<Linked, Refusal>
    ensures { Answers NoMemory (kept_or source (names_broken source)) (kept_source result) }
{
    let (subjects, scheduling) = resolve_source(alloc, &source)?;
    let Source {
        processor,
        memory_blocks,
        devices,
        memory,
        channels,
        components,
        events,
        device_domains,
        ..
    } = source;
    let elements = Elements {
        processor,
        memory_blocks,
        devices,
        memory,
        channels,
        components,
        events,
        subjects,
        scheduling,
        device_domains,
    };
    let linked = Linked::of(alloc, elements)?;
    Ok(linked)
}
