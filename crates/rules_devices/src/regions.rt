//! Rule 23: a region stands in one domain at most, once.
ghost use Rattle.std.specs.Prelude.{◌≡◌, option_map, IfOk};
ghost use Rattle.policy_lawful.specs.Domains.{offence_23};
ghost use Rattle.policy_lawful.specs.Offences.{two};
ghost use Rattle.policy_lawful.specs.Resolution.{source_of};
ghost use Rattle.rules_devices.specs.Domains.{first_repeat};

use crate::listed::{Listed, first_repeat, regions_of};
use muen_num::NoMemory;
use policy_lawful::Offence;
use policy_views::Linked;
use std::alloc::Global;

// The first region that stands in a domain before.
fn twice(alloc: Global, listed: &[Listed]) -> Result<Option<Offence>, NoMemory>
    ensures { IfOk result (λ o. o ≡ option_map (λ x. two x.name x.domain) (first_repeat listed.now)) }
{
    match first_repeat(alloc, listed)? {
        None => Ok(None),
        Some(again) => Ok(Some(Offence {
            first: again.name,
            second: again.domain,
        })),
    }
}

/// The first offence against rule 23, if any: a region that stands in a domain before, and the
/// domain where it stands again.
///
/// Answers `NoMemory` where memory was refused.
#[tactic(auto, using(crate::proofs::DomainsByIndex::regions_once))]
pub fn regions_in_one_domain(alloc: Global, policy: &Linked) -> Result<Option<Offence>, NoMemory>
    ensures { IfOk result (λ o. o ≡ offence_23 (source_of policy.now)) }
{
    let listed = regions_of(alloc, policy.device_domains())?;
    twice(alloc, &listed)
}
