//! The law of two systems (`members_print_the_same` of `proof_isolation`), at three systems that differ in the
//! subject that has the network.
//!
//! The systems are policies as terms (`specs/Gateway.antt`): the gateway of examples/, another one in which `black`
//! halts at once, and one in which `black` has 1 MiB more. The functions here carry what is proved of them; no
//! command calls one.
#![tactic(auto)]

ghost use Rattle.std.specs.Prelude.{◌≡◌, ℕ, List, [], codes};
ghost use Rattle.policy_lawful.specs.Contents.{Held};
ghost use Rattle.policy_lawful.specs.Lawful.{IsLawful};
ghost use Rattle.proof_isolation.specs.Agree.{Agree};
ghost use Rattle.proof_isolation.specs.Flows.{IsClosed, closure_of};
ghost use Rattle.proof_gateway.specs.Laws.{PrintsMembersAsTheGateway};
ghost use Rattle.proof_gateway.specs.Gateway.{gateway, members, more_memory, network, other_black, with_black};

/// What the law of two systems asks is met: the three policies keep all rules, `plain`, `keys`, `slots` and
/// `cipher` are the set of `cipher` in each and closed, and each other policy agrees with the gateway on them, with
/// any files, on the same device record.
pub fn gateways_agree()
    ensures lawful { IsLawful gateway × IsLawful other_black × IsLawful more_memory }
    ensures set { (closure_of gateway (codes "cipher") ≡ members) × (closure_of other_black (codes "cipher") ≡ members) × (closure_of more_memory (codes "cipher") ≡ members) }
    ensures closed { IsClosed gateway members × IsClosed other_black members × IsClosed more_memory members }
    ensures another { (f g : Held) → Agree members gateway other_black f g network network network.end }
    ensures more { (f g : Held) → Agree members gateway more_memory f g network network network.end }
{}

/// **The gateway.** What is printed of `plain`, `keys`, `slots` and `cipher` is the same whatever `black` is: the
/// lines of their turns, their final states, and the digests of all that their windows show. So it is where `black`
/// halts at once, where it runs any other program, and where it has 1 MiB more.
pub fn gateways_print_members_alike()
    ensures another { PrintsMembersAsTheGateway other_black }
    ensures program { (code : List ℕ) → PrintsMembersAsTheGateway (with_black [] [] code) }
    ensures more { PrintsMembersAsTheGateway more_memory }
{}
