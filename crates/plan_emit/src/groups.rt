//! Scheduling groups.
ghost use Rattle.std.specs.Prelude.{◌≡◌, true, map, IfOk};
ghost use Rattle.std.specs.List.{list_all};
ghost use Rattle.plan_emit.specs.Emitted.{group_part, fits_group};

use frame_clock::GroupPart;
use muen_num::{NoMemory, Seq};
use policy_lawful::resolved::Group;
use std::alloc::Global;

// A group, by numbers: its first listed member is active at the start.
fn group_part(group: &Group) -> GroupPart
    requires { fits_group group.now ≡ true }
    ensures { result ≡ group_part group.now }
{
    let members = group.subjects.items();
    GroupPart {
        cpu: group.cpu as u8,
        first: members[0] as u8,
    }
}

/// The groups, in order.
pub(crate) fn group_parts(alloc: Global, groups: &[Group]) -> Result<Seq<GroupPart>, NoMemory>
    requires { list_all fits_group groups.now ≡ true }
    ensures { IfOk result (λ parts. parts ≡ map group_part groups.now) }
{
    let mut parts = Seq::new(alloc);
    for group in groups {
        parts.push(group_part(group))?;
    }
    Ok(parts)
}
