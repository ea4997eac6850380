// The rules by their numbers.
ghost use Rattle.std.specs.Prelude.{◌≡◌, ⊤, None};
ghost use Rattle.std.specs.Option.{option_or};
ghost use Rattle.muen_num.specs.Answers.{Answers};
ghost use Rattle.muen_num.specs.Search.{as_refusal};
ghost use Rattle.policy_lawful.specs.refusal.Refusal.TheVariants.{NoMemory as OutOfMemory};
ghost use Rattle.policy_lawful.specs.Keeps.{Keeps};
ghost use Rattle.policy_lawful.specs.Lawful.{kept_or, unlawful};
ghost use Rattle.policy_lawful.specs.Offences.{broken};
ghost use Rattle.policy_lawful.specs.Resolution.{IsResolved, kept_source, source_of};
ghost use Rattle.policy_lawful.specs.Rules.{offence_4};
ghost use Rattle.policy_rules.specs.InTurn.{domains_broken, grants_broken, memory_broken, plan_broken};

use crate::cpus::cpus;
use crate::groups::groups;
use crate::limits::limits;
use crate::major_frames::major_frames;
use crate::writers::writers;
use policy_lawful::{Lawful, Offence, Refusal};
use policy_views::Linked;
use rules_channels::{connected, mapped};
use rules_devices::{
    domain_devices, domain_windows, granted_once, msr_ranges, port_ranges, regions_in_one_domain,
};
use rules_events::{calls, modes, monitors, sourced, vectors};
use rules_extents::addresses::addresses;
use rules_extents::{blocks_apart, fixed_regions, windows_apart};
use std::alloc::Global;

// What a rule answers: nothing where it is kept, else its refusal.
fn keep(number: u8, offence: Option<Offence>) -> Result<(), Refusal>
    ensures { result ≡ as_refusal (broken number offence) }
{
    match offence {
        None => Ok(()),
        Some(Offence { first, second }) => Err(Refusal::Rule {
            number,
            first,
            second,
        }),
    }
}

// Rules 3 to 8, or the least of them that is broken.
fn memory_rules(alloc: Global, policy: &Linked) -> Result<(), Refusal>
    ensures kept { Keeps (memory_broken (source_of policy.now)) (λ _. offence_4 (source_of policy.now) ≡ None) result }
    ensures resolved { IsResolved policy.now }
{
    keep(3, cpus(policy))?;
    keep(4, addresses(policy))?;
    keep(5, windows_apart(alloc, policy)?)?;
    keep(6, connected(alloc, policy)?)?;
    keep(7, mapped(alloc, policy)?)?;
    keep(8, writers(alloc, policy)?)
}

// Rules 9 to 15, or the least of them that is broken.
fn grants_rules(alloc: Global, policy: &Linked) -> Result<(), Refusal>
    ensures { Keeps (grants_broken (source_of policy.now)) (λ _. ⊤) result }
{
    keep(9, granted_once(alloc, policy)?)?;
    keep(10, port_ranges(alloc, policy)?)?;
    keep(11, msr_ranges(alloc, policy)?)?;
    keep(12, sourced(alloc, policy)?)?;
    keep(13, modes(alloc, policy)?)?;
    keep(14, calls(alloc, policy)?)?;
    keep(15, vectors(alloc, policy)?)
}

// Rules 16 to 20, or the least of them that is broken.
fn plan_rules(alloc: Global, policy: &Linked) -> Result<(), Refusal>
    requires { offence_4 (source_of policy.now) ≡ None }
    ensures { Keeps (plan_broken (source_of policy.now)) (λ _. ⊤) result }
{
    keep(16, major_frames(policy))?;
    keep(17, groups(alloc, policy)?)?;
    keep(18, blocks_apart(alloc, policy)?)?;
    keep(19, fixed_regions(alloc, policy)?)?;
    keep(20, limits(alloc, policy)?)
}

// Rules 21 to 24, or the least of them that is broken.
fn domains_rules(alloc: Global, policy: &Linked) -> Result<(), Refusal>
    requires { offence_4 (source_of policy.now) ≡ None }
    ensures { Keeps (domains_broken (source_of policy.now)) (λ _. ⊤) result }
{
    keep(21, domain_devices(alloc, policy)?)?;
    keep(22, domain_windows(alloc, policy)?)?;
    keep(23, regions_in_one_domain(alloc, policy)?)?;
    keep(24, monitors(alloc, policy)?)
}

// All rules from 3 on, or the least of them that is broken.
fn all_rules(alloc: Global, policy: &Linked) -> Result<(), Refusal>
    ensures kept { let p = source_of policy.now in Keeps (option_or (memory_broken p) (option_or (grants_broken p) (option_or (plan_broken p) (domains_broken p)))) (λ _. ⊤) result }
    ensures resolved { IsResolved policy.now }
{
    memory_rules(alloc, policy)?;
    grants_rules(alloc, policy)?;
    plan_rules(alloc, policy)?;
    domains_rules(alloc, policy)
}

/// The policy, where it keeps every rule; else the least rule that is broken, with its two names, or
/// `NoMemory`. A refused policy is dropped.
#[tactic(auto, using(crate::proofs::RulesJoined::rules_joined, policy_lawful::proofs::Keeps::refused))]
pub fn check(alloc: Global, policy: Linked) -> Result<Lawful, Refusal>
    ensures { Answers OutOfMemory (kept_or (source_of policy) (unlawful (source_of policy))) (kept_source result) }
{
    match all_rules(alloc, &policy) {
        Ok(()) => Ok(Lawful::make(policy.resolved(alloc)?)),
        Err(refusal) => Err(refusal),
    }
}
