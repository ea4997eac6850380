//! All rules that a policy breaks.
ghost use Rattle.std.specs.Prelude.{◌≡◌, IfOk};
ghost use Rattle.policy_lawful.specs.Resolution.{source_of};
ghost use Rattle.rules_told.specs.Broken.{all_kept, all_kept_or, broken_rules};

use crate::broken::{note_domains, note_grants, note_memory, note_plan};
use muen_num::{NoMemory, Seq};
use policy_lawful::{Lawful, Refusal};
use policy_views::Linked;
use std::alloc::Global;

/// All rules that are broken, in their order, each with its first offence. The first of them is the
/// one for which `policy_rules::check` refuses.
///
/// Answers `NoMemory` where memory was refused.
#[tactic(auto, using(crate::proofs::RulesTold::later_are_all))]
pub fn broken_rules(alloc: Global, policy: &Linked) -> Result<Seq<Refusal>, NoMemory>
    ensures { IfOk result (λ found. found ≡ broken_rules (source_of policy.now)) }
{
    let mut found = Seq::new(alloc);
    note_memory(alloc, policy, &mut found)?;
    note_grants(alloc, policy, &mut found)?;
    note_plan(alloc, policy, &mut found)?;
    note_domains(alloc, policy, &mut found)?;
    Ok(found)
}

/// The policy, where it keeps every rule; else all that are broken, as `broken_rules` has them. A
/// refused policy is dropped.
///
/// Answers `NoMemory` where memory was refused.
#[tactic(auto, using(crate::proofs::RulesTold::none_found, crate::proofs::RulesTold::kept_where_none, crate::proofs::RulesTold::told_where_some))]
pub fn check_all(alloc: Global, policy: Linked) -> Result<Result<Lawful, Seq<Refusal>>, NoMemory>
    ensures { IfOk result (λ told. all_kept told ≡ all_kept_or (source_of policy) (broken_rules (source_of policy))) }
{
    let broken = broken_rules(alloc, &policy)?;
    if broken.is_empty() {
        return Ok(Ok(Lawful::make(policy.resolved(alloc)?)));
    }
    Ok(Err(broken))
}
