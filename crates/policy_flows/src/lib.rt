//! Flows between the subjects of a policy, and the sets of subjects that are closed under them.
//!
//! They are definitions (`specs/Flows.antt`): what a policy declares towards a subject is a flow
//! (`flows_to`), and the set of a subject is all that reach it over any others (`closure_of`). The functions
//! here carry laws of these; no command calls one.
#![tactic(auto)]

ghost use Rattle.std.specs.Prelude.{◌≡◌, ℕ, List, true};
ghost use Rattle.policy_lawful.specs.Events.{event_of};
ghost use Rattle.policy_lawful.specs.source.Source.{Source};
ghost use Rattle.policy_lawful.specs.source.SourceWay.{SourceWay};
ghost use Rattle.policy_lawful.specs.source.Subject.{Subject};
ghost use Rattle.policy_flows.specs.Flows.{IsLeastClosed, by_event, closure_of, reaches};

/// What a subject raises in any way flows: a subject that the event reaches is one to which it flows
/// directly, so no way is left out of those that count.
pub fn every_way_counts()
    ensures { (p : Source) (u s : Subject) (way : SourceWay) → reaches (event_of p u way) s.name ≡ true → by_event p u s ≡ true }
{}

/// The set of a subject is the least closed one that has it: as many rounds of direct sources as there are
/// subjects are enough. This holds of every policy, also of one that breaks rules.
pub fn closures_are_least()
    ensures { (p : Source) (name : List ℕ) → IsLeastClosed p name (closure_of p name) }
{}
