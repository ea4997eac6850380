//! Laws over runs of the abstract system.
//!
//! They stand in specs/ (`Laws`), and so does what they speak of (`Pages`, `LastViews`, `LinesOf`, `AloneRun`, `Changes`,
//! `Private`, `Raisers`, `Writers`, `Composed`). The functions here carry them; no command calls one.
#![tactic(auto)]

ghost use Rattle.proof_views.specs.Laws.{FirstMsrsAreLeft, FirstStatesAreLeft, LastBytesAreLeft, LastMsrsAreLeft, LastStatesAreLeft, LastViewsAreTheEnd, StatePagesStay};
ghost use Rattle.proof_views.specs.Laws.{LinesAreThoseOfViews, PrivateMemoryHasOwnStores, PrivateMemoryIsKept, PrivateMemoryIsLeft, PrivateMemoryIsOfTheStart, SubjectsActAlone};
ghost use Rattle.proof_views.specs.Laws.{ChannelsArePrivate, ChannelsHoldWritersStores, PendingWereRaised, ReachingLaterWereRaised, ReachingWereRaised, WaitingWereRaised, WritersStoresReachReaders};
ghost use Rattle.proof_views.specs.Laws.{DevicesSpareOtherThings, DevicesWriteThingsAlone, InputsSpareOtherThings, TicksSpareThings, TurnsChangeByTheirStore, TurnsSpareOtherThings};
ghost use Rattle.proof_views.specs.Laws.{OneRunAloneIsFed, OneRunIsComposed, RunsAloneAreFed, RunsAreComposed, TicksAreComposed};

/// The page of a subject that no monitor may write is that of a state, with zeros elsewhere, after any
/// number of ticks of every run: nothing else is ever written on it.
pub fn state_pages_are_their_subjects()
    ensures { StatePagesStay }
{}

/// Where the CPU of a subject takes the last turn of a run, the subject's view ends with what the run
/// leaves: its state, which is printed at the end, its MSRs and pending events, and all that its windows
/// show.
pub fn last_views_are_the_end()
    ensures { LastViewsAreTheEnd }
{}

/// A run leaves of each subject the state and the MSRs that its last view has, whichever turns come after that of
/// its CPU; a run of no ticks leaves those of the start. The policy is lawful, and no order of the record names a CPU
/// twice. The state that is left is what the run prints of the subject.
pub fn final_states_are_those_of_the_last_views()
    ensures states { LastStatesAreLeft }
    ensures msrs { LastMsrsAreLeft }
    ensures first_state { FirstStatesAreLeft }
    ensures first_msrs { FirstMsrsAreLeft }
{}

/// A run leaves of a thing the bytes that the last view of a subject has of it, if one of the subject's windows shows it
/// and no turn of a CPU that comes later in the last tick may change it (`may_change_on`). The digest of these bytes is what
/// the run prints of the thing. The policy is lawful.
pub fn digests_are_fixed_by_last_views()
    ensures { LastBytesAreLeft }
{}

/// The lines that a run prints of a subject are those that its view shows, one tick after another: a
/// turn prints of a subject of its own CPU alone, and each CPU has one turn in a tick. The policy is lawful,
/// and no order of the record names a CPU twice.
pub fn lines_are_those_of_the_views()
    ensures { LinesAreThoseOfViews }
{}

/// **Each subject acts alone.** The view of a subject is, tick by tick, that of the subject by itself
/// (`alone_view`): it begins with its first state, and in each tick its own state, the values of its MSRs and its
/// line come of what they were and of what reaches it (`reaching_at`), and of nothing else. At its turn that is
/// the bytes that its windows show, the input bytes of its ports and its pending events; at the turn of another subject
/// it is the state that its page then has, if that subject may write the page, and else nothing. The policy is
/// lawful, and each order of the record names each CPU once, as in every record that is read.
pub fn views_are_those_of_subjects_alone()
    ensures { SubjectsActAlone }
{}

/// What a subject alone may change (`IsPrivate`) holds what the subject itself has left there: at its turn it has the bytes
/// that the subject's view of the tick before has, and at first those of the start; the view of each tick has what
/// the stores of the subject's own turns have made of these (`held_alone`), by what reached it (`reaching_at`); and the run
/// leaves what the last view has, of which the digest is printed. The policy is lawful, and each order of the record
/// names each CPU once, as in every record that is read.
pub fn private_memory_is_the_subjects_own()
    ensures kept { PrivateMemoryIsKept }
    ensures first { PrivateMemoryIsOfTheStart }
    ensures stores { PrivateMemoryHasOwnStores }
    ensures left { PrivateMemoryIsLeft }
{}

/// A channel is private memory of its writer (`IsPrivate`), of which a lawful policy has one (`is_writer_of`). So after
/// any number of ticks it holds what the stores of the writer's own turns have made of the bytes of the start
/// (`held_alone`), and that is what reaches each subject that has a window on it: at its turn in a tick it has the
/// writer's store of that tick too where the writer's CPU comes before its own in the tick's order. Each order of the
/// record names each CPU once, as in every record that is read.
pub fn channels_hold_what_their_writers_stored()
    ensures private { ChannelsArePrivate }
    ensures holds { ChannelsHoldWritersStores }
    ensures reaches { WritersStoresReachReaders }
{}

/// Each vector that pends for a subject, after any number of ticks of every run, comes of an event that a
/// subject of the policy declares to it (`event_of`) or, where it doesn't wait for a minor frame or an exit, of
/// a device's interrupt that the policy grants it (`irq_of`); and so does each that reaches it at its turn
/// (`reaching_at`). Those that wait are of events that do.
pub fn pending_vectors_were_raised()
    ensures now { PendingWereRaised }
    ensures later { WaitingWereRaised }
    ensures reaches_now { ReachingWereRaised }
    ensures reaches_later { ReachingLaterWereRaised }
{}

/// A line of direct memory access writes only into regions on which its device's domain has a window with
/// write: it changes no other thing, and nothing of the system but things.
pub fn devices_write_through_their_domain_alone()
    ensures things { DevicesSpareOtherThings }
    ensures rest { DevicesWriteThingsAlone }
{}

/// What a thing holds changes in a turn only where the subject whose turn it is (`whose_turn`) has a window with
/// write on it, or where it is that subject's own state page (`may_change`); but for that page, by the one store of the
/// subject's turn alone (`solo_turn`). An input changes it only where it is the device's memory that the input
/// names, or where the device's domain has a window with write on it (`input_changes`). So over ticks of a run, a thing
/// that none of their inputs and none of the subjects with a turn there may change (`IsSpared`) holds what it held.
pub fn things_change_through_windows_alone()
    ensures turns { TurnsSpareOtherThings }
    ensures stores { TurnsChangeByTheirStore }
    ensures inputs { InputsSpareOtherThings }
    ensures ticks { TicksSpareThings }
{}

/// **The whole is its parts.** The run of the system on a record is that of its subjects alone, put together
/// (`composed`): each turn of the joint run, its line and what it changes, is that of its subject alone, which knows nothing but
/// its own state after so many ticks of its run alone (`alone_in_run`) and its inbox; and what reaches a subject there is of
/// the start's contents, of the devices' inputs, and of what turns, its own and those of others, have stored, raised
/// and handed over (`run`, and `ticks` after any number of ticks). It comes of the composition itself, so that the
/// joint run isn't needed to say what the runs alone are (`fed`). And there is no other composition: whichever own states are
/// those of runs alone that are fed so (`AreFed`), they are those of the joint run (`only_parts`), and put
/// together they are the joint run (`only_run`). The policy is lawful, and each order of the record names each CPU once, as in
/// every record that is read.
pub fn runs_are_composed_of_subjects_alone()
    ensures run { RunsAreComposed }
    ensures ticks { TicksAreComposed }
    ensures fed { RunsAloneAreFed }
    ensures only_run { OneRunIsComposed }
    ensures only_parts { OneRunAloneIsFed }
{}
