//! What holds of the sets in which devices count. The functions here carry the laws; no command calls
//! one.
ghost use Rattle.std.specs.Prelude.{◌≡◌, ℕ, List};
ghost use Rattle.policy_lawful.specs.Lawful.{IsLawful};
ghost use Rattle.policy_lawful.specs.source.Source.{Source};
ghost use Rattle.device_flows.specs.Accesses.{EveryAccessCounts, HoldsDeclaredFlows};
ghost use Rattle.device_flows.specs.Closures.{IsLeastFrom};
ghost use Rattle.device_flows.specs.DeviceFlows.{is_subject, reaches_over_devices};
ghost use Rattle.device_flows.specs.Ends.{ends_of, leads_to};

/// The subjects and devices of a subject's set are the least closed set that has it: as many rounds as
/// there are subjects and devices are enough. This holds of every policy, also of one that breaks rules.
pub fn device_closures_are_least()
    ensures { (p : Source) (name : List ℕ) → IsLeastFrom (leads_to p) (ends_of p) (is_subject name) (reaches_over_devices p name) }
{}

/// In a policy that keeps the rules, the set of a subject holds all that `flows` of `flow_report` tells.
#[tactic(auto, using(crate::proofs::HeldFlows::held))]
pub fn declared_flows_are_held()
    ensures { (p : Source) → IsLawful p → HoldsDeclaredFlows p }
{}

/// In a policy that keeps the rules, each access counts that it grants to a subject or to a device: by
/// ports, by a device's memory, whichever the access is, by interrupts, and by memory that a device may
/// reach by itself.
#[tactic(auto, using(crate::proofs::Accesses::every_access))]
pub fn every_access_counts()
    ensures { (p : Source) → IsLawful p → EveryAccessCounts p }
{}
