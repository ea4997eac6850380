//! All that the subjects of a policy see.
ghost use Rattle.std.specs.Prelude.{◌≡◌, map, IfOk};
ghost use Rattle.policy_lawful.specs.Views.{seen_by};

use crate::ends::channel_ends;
use crate::windows::views;
use muen_num::{NoMemory, Seq};
use policy_lawful::resolved::Subject;
use policy_lawful::{Elements, Seen};
use std::alloc::Global;

// What a subject sees.
fn seen_by(alloc: Global, policy: &Elements, subject: &Subject) -> Result<Seen, NoMemory>
    ensures { IfOk result (λ seen. seen ≡ seen_by policy.now subject.now) }
{
    Ok(Seen {
        views: Seq::of(views(alloc, policy, subject)?),
        channel_ends: Seq::of(channel_ends(alloc, policy, subject)?),
    })
}

/// What each subject sees, in the order of the subjects.
///
/// Answers `NoMemory` where memory was refused.
pub(crate) fn seen(alloc: Global, policy: &Elements) -> Result<Seq<Seen>, NoMemory>
    ensures { IfOk result (λ seen. seen ≡ map (seen_by policy.now) policy.now.subjects) }
{
    let mut seen = Seq::new(alloc);
    for subject in policy.subjects.items() {
        seen.push(seen_by(alloc, policy, subject)?)?;
    }
    Ok(seen)
}
