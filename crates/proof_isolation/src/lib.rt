//! Laws of isolation: what is outside a closed set of subjects changes nothing for its members.
//!
//! A set is closed where each subject that can reach a member is a member (`flows_to`, `IsClosed` of
//! `policy_flows`). The laws stand in specs/ (`Laws`), and so does what they speak of: systems that are alike for
//! members (`Alike`), policies, files and records that agree on what reaches them (`Agree`), and what is the same in
//! two such systems (`DependOnMembersAlone`). The functions here carry the laws; no command calls one, but what
//! `flows` answers is proved by them.
#![tactic(auto)]

ghost use Rattle.proof_isolation.specs.Laws.{MembersPrintTheSame, MembersSeeTheSame, OutsidersChangeNothing, SetsOfFlowsAreEnough};
ghost use Rattle.proof_isolation.specs.TwoTexts.{LinesEndWithRuns};

/// A turn that no member of a closed set has changes nothing that a member has or sees: no own state, no
/// MSR, no pending event, not which member is active, no byte that a window shows, no input byte of a granted
/// port. The policy is lawful, and each group's active member is one that the group lists, as in every run.
pub fn outsiders_change_nothing()
    ensures { OutsidersChangeNothing }
{}

/// **Two systems.** Where a set of subjects is closed in two lawful policies, and these with their files and
/// records agree on what reaches its members (`Agree`), each member has at each tick below both ends the same
/// view in both: the same line, own state, MSRs, pending events, and bytes of all that its windows show. So it
/// is whatever the programs, contents, devices, plans and policies of all others are, and whatever they do. A
/// device counts where its domain maps, in either policy, what a member sees: its lines of direct memory access
/// are the same in both records, and do the same to what members see.
pub fn members_see_the_same()
    ensures { MembersSeeTheSame }
{}

/// So it is for the set of each subject (`closure_of`), which `flows` prints. The subject is in it
/// (`closures_are_least` of `policy_flows`).
pub fn sets_of_flows_are_enough()
    ensures { SetsOfFlowsAreEnough }
{}

/// And so is all that is printed of members: in the ticks that both runs have, the lines of all members together, in
/// their order, and those of each; and where both end at the same tick each one's final state, and the digest of
/// each thing that its windows show. All lines of a run are of ticks below its end.
pub fn members_print_the_same()
    ensures printed { MembersPrintTheSame }
    ensures ends { LinesEndWithRuns }
{}
