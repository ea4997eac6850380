//! Groups, which refer to subjects.
ghost use Rattle.muen_num.specs.Search.{first_in};
ghost use Rattle.policy_lawful.specs.Resolution.{group_in_range, group_named};
ghost use Rattle.policy_lawful.specs.Rules.{group_references, undeclared};
ghost use Rattle.policy_names.specs.Outline.{bare_resolution};

use crate::refers::{Refers, resolve_all_in};
use crate::scope::Scope;
use policy_lawful::{Refusal, resolved, source};
use std::alloc::Global;

impl Refers for source::Group {
    type By = ();

    type Resolved = resolved::Group;

    ghost offence = { λ p _ g. first_in (undeclared g.name) (group_references p g) };

    ghost named = { λ p _. group_named (bare_resolution p) };

    ghost in_range = { λ p _. group_in_range (bare_resolution p) };

    #[tactic(auto, using(crate::proofs::Elements::names))]
    fn resolve(&self, alloc: Global, scope: &Scope, _: ()) -> Result<resolved::Group, Refusal> {
        Ok(resolved::Group {
            name: self.name,
            cpu: self.cpu,
            subjects: resolve_all_in(alloc, &scope.subjects, self.name, self.subjects.items())?,
        })
    }
}
