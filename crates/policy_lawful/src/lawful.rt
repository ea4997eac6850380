//! Policies that keep every rule.
ghost use Rattle.std.specs.Prelude.{◌≡◌};
ghost use Rattle.policy_lawful.specs.Resolution.{source_of};
ghost use Rattle.policy_lawful.specs.Lawful.{IsLawful};

use crate::resolved::Resolved;
use std::marker::Model;

/// A resolved policy that keeps every rule.
#[derive(Debug, Drop)]
pub struct Lawful {
    resolved: Resolved,
}

impl Model for Lawful {
    ghost use Rattle.policy_lawful.specs.Resolution.{Resolution, source_of};
    ghost use Rattle.policy_lawful.specs.Lawful.{IsLawful};

    ghost Value = { Resolution };

    ghost view = { λ l. l.resolved };

    ghost invariant = { λ l. IsLawful (source_of l.resolved) };
}

impl Lawful {
    /// The policy, in which no rule is broken.
    pub fn make(resolved: Resolved) -> Lawful
        requires { IsLawful (source_of resolved) }
        ensures { result ≡ resolved }
    {
        Lawful { resolved }
    }

    /// The resolved policy.
    pub fn resolved(&self) -> &Resolved
        ensures value { result.now ≡ self.now }
        ensures lawful { IsLawful (source_of self.now) }
    {
        &self.resolved
    }
}
