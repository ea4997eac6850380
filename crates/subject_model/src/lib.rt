//! The abstract system, and laws of it.
//!
//! The definitions stand in specs/: what a subject does alone (`Alone`), the system and its turn
//! (`System`), the system on the clock (`Clock`), the text of a run (`Trace`), and laws of them (`Laws`).
//! The functions here carry the laws; no command calls one.
#![tactic(auto)]

ghost use Rattle.subject_model.specs.Laws.{GrantedPortsAloneAreRead, HaltedWaits, StoppedDoesNothing, TurnSeesItsInboxAlone, WindowsAloneAreReached};
ghost use Rattle.subject_model.specs.Laws.{EventsReachTheirTargetAlone, HaltedKeepsItsTicks, OtherMsrsStay, OwnMsrsAreWritten, StoppedKeepsItsTicks, ThePageIsThatOfTheState};
ghost use Rattle.subject_model.specs.Laws.{FramesGoCyclically, HandoversCountFromTheNextTurn};

/// A stopped subject does nothing, and its turn has no line.
pub fn stopped_does_nothing()
    ensures { StoppedDoesNothing }
{}

/// A halted subject to which no event can be delivered does nothing, and its turn has no line.
pub fn halted_waits()
    ensures { HaltedWaits }
{}

/// A stopped subject keeps its ticks: in a tick whose frame slot is its group's, no line is printed,
/// and the system stays as it is, but that the subject's page is that of its state. The tick is passed
/// on neither to another member nor to another group.
pub fn stopped_keeps_its_ticks()
    ensures { StoppedKeepsItsTicks }
{}

/// So does a halted subject to which no event can be delivered.
pub fn halted_keeps_its_ticks()
    ensures { HaltedKeepsItsTicks }
{}

/// A turn depends on the bytes of the things that reach the subject, the input bytes of its ports,
/// its pending events, whether its minor frame begins, and the tick, and on nothing else that is
/// outside it.
pub fn turn_sees_its_inbox_alone()
    ensures { TurnSeesItsInboxAlone }
{}

/// What a subject reaches is what a window of its with the right for this access shows there.
pub fn windows_alone_are_reached()
    ensures { WindowsAloneAreReached }
{}

/// Ports are read only where each of them is granted.
pub fn granted_ports_alone_are_read()
    ensures { GrantedPortsAloneAreRead }
{}

/// After its turn the state page of a subject is that of its new state.
pub fn the_page_is_that_of_the_state()
    ensures { ThePageIsThatOfTheState }
{}

/// A turn writes the MSRs of its subject, and those of no other.
pub fn own_msrs_alone_are_written()
    ensures own { OwnMsrsAreWritten }
    ensures others { OtherMsrsStay }
{}

/// What a subject raises pends at the event's target, and at no other subject, the source no more
/// than any other.
pub fn events_reach_their_target_alone()
    ensures { EventsReachTheirTargetAlone }
{}

/// A handover makes its target the active member of its group, whose turn comes next in it.
pub fn a_handover_counts_from_the_next_turn()
    ensures { HandoversCountFromTheNextTurn }
{}

/// Where nothing picks one, the major frames run in their order, again and again: the slot at a tick
/// is that of the row of all ticks.
pub fn frames_go_cyclically()
    ensures { FramesGoCyclically }
{}
