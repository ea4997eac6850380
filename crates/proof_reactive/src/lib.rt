//! Laws of isolation with devices in the loop, and of who has the ticks.
//!
//! Devices answer what members of a closed set print and leave in memory (`Strategy`, `heard`, `Follows`). The laws
//! stand in specs/ (`Laws`), and so does what they speak of: devices that answer (`Answering`), the record that they
//! make (`Playing`), who acts in a tick and how many ticks a group has (`Acting`), and two devices beside a subject
//! that runs anything (`Echo`). The functions here carry the laws; no command calls one.
#![tactic(auto)]

ghost use Rattle.proof_reactive.specs.Acting.{ActsByMembersAlone, HasTicksByMembersAlone};
ghost use Rattle.proof_reactive.specs.Answering.{DependOnMembersAndStrategyAlone, LoopsAgree, PrintsLoopedMembersAlike};
ghost use Rattle.proof_reactive.specs.Echo.{echoes, serves};
ghost use Rattle.proof_reactive.specs.Laws.{AnswersCanBePlayed, GroupsHaveTheirTicks, OfClosedSets, RecordsAreStrategies, WhoHasATickActs};
ghost use Rattle.proof_reactive.specs.Laws.{CardsAreLooped, CardsGiveBackInTheRun, CardsWriteTheSame, EchoesAnswerBytes, EchoesAreLawful, EchoesAreLooped, EchoesComeInTheRun, SeesTheSameBeside};
ghost use Rattle.proof_reactive.specs.Laws.{PromisedPrintsReachStrategies, PromisedSetsReachStrategies, StrategiesPrintAsPromised, StrategiesSeeAsPromised};
ghost use Rattle.proof_reactive.specs.Laws.{AllElseAgrees, GossipBesideHalting, GossipBesideSetting, TalkersViewsDiffer};

use subject_model::frames_go_cyclically;

/// Two runs in which devices follow one strategy, which is told what members print and what their windows show, and
/// nothing else, agree on all that reaches members: also on the inputs and the orders, of which nothing is asked but
/// that they are what the strategy answers in each run.
pub fn answering_devices_agree()
    ensures { OfClosedSets LoopsAgree }
{}

/// **Two systems with devices that answer.** So each member has at each tick below both ends the same view in both.
pub fn members_see_the_same_with_answering_devices()
    ensures { OfClosedSets DependOnMembersAndStrategyAlone }
{}

/// And the same is printed of members (`ArePrintedAlike`).
pub fn members_print_the_same_with_answering_devices()
    ensures { OfClosedSets PrintsLoopedMembersAlike }
{}

/// Devices that answer nothing are a strategy: where two systems agree on the inputs and the orders that reach
/// members, both follow the one that gives those of the first record whatever it is told. So the law of two systems
/// is that of two systems with devices that answer, at such a strategy.
pub fn records_are_strategies()
    ensures { RecordsAreStrategies }
{}

/// So what calls promise of two systems whose records agree holds of two whose records follow one strategy, and follows
/// from it: of what `muen` prints of a run (`PrintsMembersAlike`), and of a set of `flows` (`DependOnMembersAlone`).
pub fn promises_reach_answering_devices()
    ensures prints { PromisedPrintsReachStrategies }
    ensures prints_back { StrategiesPrintAsPromised }
    ensures sees { PromisedSetsReachStrategies }
    ensures sees_back { StrategiesSeeAsPromised }
{}

/// Answers can be played: whatever devices answer to members, and whatever others do that reaches no member, there is
/// a record, of any number of ticks and with the CPUs by number, in which just that comes (`played`), and which follows
/// the strategy of these answers (`by_answers`).
pub fn answers_can_be_played()
    ensures { AnswersCanBePlayed }
{}

/// **Who has a tick acts in it.** In each tick in which the plan gives a subject's group its CPU and the subject is
/// the group's active member (`HasTick`), its view has a line just if it can act (`can_act`): it isn't stopped, and
/// it isn't halted or an event can be delivered to it. The policy is lawful, and each order of the record names each
/// CPU once, as in every record that is read.
pub fn who_has_a_tick_acts_if_it_can()
    ensures { WhoHasATickActs }
{}

/// Which ticks a member of a closed set has, and in which it acts, depends on members alone.
pub fn acting_depends_on_members_alone()
    ensures ticks { OfClosedSets HasTicksByMembersAlone }
    ensures acts { OfClosedSets ActsByMembersAlone }
{}

/// **Ticks are kept.** Where nobody chooses frames, a group has on a CPU, in any so many ticks in a row as all major
/// frames have together, exactly as many ticks as the plan gives it, whatever anybody does. The policy is lawful.
pub fn groups_have_their_ticks()
    ensures { GroupsHaveTheirTicks }
{
    frames_go_cyclically();
}

/// What the law asks is met, by a device that hears (`echoes`): whatever `talker` and `noise` beside it run, whatever
/// files hold, and however long the runs are, also where in one a device of `noise` does nothing and in the other one
/// raises an interrupt in each tick. Both systems are lawful, and `talker` is a closed set. The device answers a byte
/// that was written in the tick after, also in a run.
pub fn an_answering_device_is_in_the_loop()
    ensures lawful { EchoesAreLawful }
    ensures looped { EchoesAreLooped }
    ensures answers { EchoesAnswerBytes }
    ensures reacts { EchoesComeInTheRun }
{}

/// And by a card (`serves`) that reads a ring in `talker`'s memory, and answers there by direct memory access: where
/// `talker` has given it the ring by a store, the ring goes back with the next byte in it, also in a run.
pub fn a_card_with_a_ring_is_in_the_loop()
    ensures looped { CardsAreLooped }
    ensures writes { CardsWriteTheSame }
    ensures reacts { CardsGiveBackInTheRun }
{}

/// **With a device that answers, what `noise` is and does changes nothing that `talker` sees.**
pub fn the_talker_sees_the_same()
    ensures beside_a_line { SeesTheSameBeside echoes }
    ensures beside_a_card { SeesTheSameBeside serves }
{
    members_see_the_same_with_answering_devices();
    an_answering_device_is_in_the_loop();
    a_card_with_a_ring_is_in_the_loop();
}

/// **Whom the devices hear matters.** Where a device may also hear `noise`, the law is false, though all else that it
/// asks is met: what comes in two runs is what one and the same device answers to the lines of all subjects
/// (`gossip`), the two systems are lawful, agree on `talker`, and differ in the program of `noise` alone; and
/// `talker` sees something else in tick 2.
pub fn hearing_others_breaks_it()
    ensures halting { GossipBesideHalting }
    ensures setting { GossipBesideSetting }
    ensures agree { AllElseAgrees }
    ensures differ { TalkersViewsDiffer }
{}
