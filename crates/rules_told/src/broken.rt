// The rules that are broken, noted in turn.
ghost use Rattle.std.specs.Prelude.{◌≡◌, ◌++◌, [], ◌∷◌, OnOk};
ghost use Rattle.policy_lawful.specs.Resolution.{IsResolved, source_of};
ghost use Rattle.rules_told.specs.Broken.{domains_offences, grants_offences, memory_offences, plan_offences, refusals_from};

use muen_num::{NoMemory, Seq};
use policy_lawful::{Offence, Refusal};
use policy_rules::cpus::cpus;
use policy_rules::groups::groups;
use policy_rules::limits::limits;
use policy_rules::major_frames::major_frames;
use policy_rules::writers::writers;
use policy_views::Linked;
use rules_channels::{connected, mapped};
use rules_devices::{
    domain_devices, domain_windows, granted_once, msr_ranges, port_ranges, regions_in_one_domain,
};
use rules_events::{calls, modes, monitors, sourced, vectors};
use rules_extents::addresses::addresses;
use rules_extents::{blocks_apart, fixed_regions, windows_apart};
use std::alloc::Global;

// Notes the refusal by the rule of a number, where it is broken.
fn note(number: u8, offence: Option<Offence>, found: &mut Seq<Refusal>) -> Result<(), NoMemory>
    ensures { OnOk result (found.new ≡ found.old ++ refusals_from number (offence ∷ [])) }
{
    if let Some(Offence { first, second }) = offence {
        found.push(Refusal::Rule {
            number,
            first,
            second,
        })?;
    }
    Ok(())
}

/// Notes those of rules 3 to 8 that are broken.
pub(crate) fn note_memory(
    alloc: Global,
    policy: &Linked,
    found: &mut Seq<Refusal>,
) -> Result<(), NoMemory>
    ensures noted { OnOk result (found.new ≡ found.old ++ refusals_from 3 (memory_offences (source_of policy.now))) }
    ensures resolved { IsResolved policy.now }
{
    note(3, cpus(policy), found)?;
    note(4, addresses(policy), found)?;
    note(5, windows_apart(alloc, policy)?, found)?;
    note(6, connected(alloc, policy)?, found)?;
    note(7, mapped(alloc, policy)?, found)?;
    note(8, writers(alloc, policy)?, found)
}

/// Notes those of rules 9 to 15 that are broken.
pub(crate) fn note_grants(
    alloc: Global,
    policy: &Linked,
    found: &mut Seq<Refusal>,
) -> Result<(), NoMemory>
    ensures { OnOk result (found.new ≡ found.old ++ refusals_from 9 (grants_offences (source_of policy.now))) }
{
    note(9, granted_once(alloc, policy)?, found)?;
    note(10, port_ranges(alloc, policy)?, found)?;
    note(11, msr_ranges(alloc, policy)?, found)?;
    note(12, sourced(alloc, policy)?, found)?;
    note(13, modes(alloc, policy)?, found)?;
    note(14, calls(alloc, policy)?, found)?;
    note(15, vectors(alloc, policy)?, found)
}

/// Notes those of rules 16 to 20 that are broken.
pub(crate) fn note_plan(
    alloc: Global,
    policy: &Linked,
    found: &mut Seq<Refusal>,
) -> Result<(), NoMemory>
    ensures { OnOk result (found.new ≡ found.old ++ refusals_from 16 (plan_offences (source_of policy.now))) }
{
    note(16, major_frames(policy), found)?;
    note(17, groups(alloc, policy)?, found)?;
    note(18, blocks_apart(alloc, policy)?, found)?;
    note(19, fixed_regions(alloc, policy)?, found)?;
    note(20, limits(alloc, policy)?, found)
}

/// Notes those of rules 21 to 24 that are broken.
pub(crate) fn note_domains(
    alloc: Global,
    policy: &Linked,
    found: &mut Seq<Refusal>,
) -> Result<(), NoMemory>
    ensures { OnOk result (found.new ≡ found.old ++ refusals_from 21 (domains_offences (source_of policy.now))) }
{
    note(21, domain_devices(alloc, policy)?, found)?;
    note(22, domain_windows(alloc, policy)?, found)?;
    note(23, regions_in_one_domain(alloc, policy)?, found)?;
    note(24, monitors(alloc, policy)?, found)
}
