//! Frames, which refer to groups.
ghost use Rattle.std.specs.List.{list_all};
ghost use Rattle.std.specs.Prelude.{◌≡◌, length, map, nat_lt, true};
ghost use Rattle.muen_num.specs.Search.{first_in};
ghost use Rattle.policy_lawful.specs.Keeps.{Keeps};
ghost use Rattle.policy_lawful.specs.Offences.{broken};
ghost use Rattle.policy_lawful.specs.Resolution.{cpu_named, major_in_range, major_named};
ghost use Rattle.policy_lawful.specs.Rules.{frame_references, major_name, undeclared};
ghost use Rattle.policy_names.specs.Outline.{majors_in_range, majors_named, majors_undeclared, bare_resolution};
ghost use Rattle.policy_names.specs.Indexes.{StandsFor};

use crate::refers::{Refers, resolve_all, resolve_all_in};
use crate::scope::Scope;
use muen_num::{Name, Seq};
use policy_lawful::frame_names::major_name;
use policy_lawful::{Refusal, resolved, source};
use std::alloc::Global;

/// The minor frames of a CPU in the major frame that has this name.
impl Refers for source::CpuFrames {
    type By = Name;

    type Resolved = resolved::CpuFrames;

    ghost offence = { λ p by c. first_in (undeclared by) (map (λ f. (map (λ g. g.name) p.scheduling.groups, f.group)) c.minor_frames) };

    ghost named = { λ p _. cpu_named (bare_resolution p) };

    ghost in_range = { λ p _ c. list_all (λ f. nat_lt f.group (length (bare_resolution p).scheduling.groups)) c.minor_frames };

    #[tactic(auto, using(crate::proofs::Elements::names))]
    fn resolve(
        &self,
        alloc: Global,
        scope: &Scope,
        by: Name,
    ) -> Result<resolved::CpuFrames, Refusal> {
        Ok(resolved::CpuFrames {
            cpu: self.cpu,
            minor_frames: resolve_all_in(alloc, &scope.groups, by, self.minor_frames.items())?,
        })
    }
}

/// The major frame at this index.
impl Refers for source::MajorFrame {
    type By = usize;

    type Resolved = resolved::MajorFrame;

    ghost offence = { λ p index m. first_in (undeclared (major_name index)) (frame_references p m) };

    ghost named = { λ p _. major_named (bare_resolution p) };

    ghost in_range = { λ p _. major_in_range (bare_resolution p) };

    #[tactic(auto, using(crate::proofs::Elements::lists))]
    fn resolve(
        &self,
        alloc: Global,
        scope: &Scope,
        index: usize,
    ) -> Result<resolved::MajorFrame, Refusal> {
        Ok(resolved::MajorFrame {
            cpus: resolve_all(alloc, scope, major_name(index), self.cpus.items())?,
        })
    }
}

/// Finds the indexes of all major frames.
///
/// Answers the refusal of the first group that isn't declared, and `NoMemory` where memory was
/// refused.
#[tactic(auto, using(crate::proofs::Refusals::explains_at_index))]
pub fn resolve_majors(
    alloc: Global,
    scope: &Scope,
    majors: &[source::MajorFrame],
) -> Result<Seq<resolved::MajorFrame>, Refusal>
    ensures { let p = scope.now.source.now in Keeps (broken 2 (majors_undeclared p majors.now)) (StandsFor (majors_named p) (majors_in_range p) majors.now) result }
{
    let mut resolved_majors = Seq::new(alloc);
    for (index, major) in majors.iter().enumerate() {
        resolved_majors.push(major.resolve(alloc, scope, index)?)?;
    }
    Ok(resolved_majors)
}
