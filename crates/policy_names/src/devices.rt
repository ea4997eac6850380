//! Uses of devices, which refer to devices and to their parts.
ghost use Rattle.muen_num.specs.Search.{first_in};
ghost use Rattle.policy_lawful.specs.Resolution.{device_in_range, device_named};
ghost use Rattle.policy_lawful.specs.Rules.{device_references, undeclared};
ghost use Rattle.policy_lawful.specs.Keeps.{Keeps};
ghost use Rattle.policy_lawful.specs.Offences.{broken};
ghost use Rattle.policy_names.specs.DeviceParts.{PartsStand, parts_offence};
ghost use Rattle.policy_names.specs.Outline.{bare_resolution};

use crate::declared::refer;
use crate::parts::DeviceNames;
use crate::refers::{Refers, resolve_all_in};
use crate::scope::Scope;
use muen_num::Name;
use policy_lawful::{Refusal, resolved, source};
use std::alloc::Global;

/// A use of the subject that has this name.
impl Refers for source::DeviceUse {
    type By = Name;

    type Resolved = resolved::DeviceUse;

    ghost offence = { λ p by d. first_in (undeclared by) (device_references p d) };

    ghost named = { λ p _. device_named (bare_resolution p) };

    ghost in_range = { λ p _. device_in_range (bare_resolution p) };

    fn resolve(
        &self,
        alloc: Global,
        scope: &Scope,
        by: Name,
    ) -> Result<resolved::DeviceUse, Refusal> {
        let index = refer(&scope.devices, by, self.device)?;
        resolve_parts(alloc, scope.parts_at(index), by, index, self)
    }
}

// The use of the device at this index, which has these names, by the subject that has the name
// `by`.
#[tactic(auto, using(crate::proofs::Refusals::one_behind_another))]
fn resolve_parts(
    alloc: Global,
    names: &DeviceNames,
    by: Name,
    index: usize,
    used: &source::DeviceUse,
) -> Result<resolved::DeviceUse, Refusal>
    ensures { Keeps (broken 2 (parts_offence names.now by used.now)) (PartsStand names.now index used.now) result }
{
    Ok(resolved::DeviceUse {
        device: index,
        memory: resolve_all_in(alloc, &names.memory, by, used.memory.items())?,
        io_ports: resolve_all_in(alloc, &names.io_ports, by, used.io_ports.items())?,
        irqs: resolve_all_in(alloc, &names.irqs, by, used.irqs.items())?,
    })
}
