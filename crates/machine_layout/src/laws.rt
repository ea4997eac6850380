//! Laws of memory and of walks: functions that do nothing, whose contracts say them.
ghost use Rattle.machine_layout.specs.Laws.{OtherPagesStay, ThePageChanges, PagesStayThere, NoPageIsMade, OtherPagesLoadTheSame, OtherBytesStay, TheStoredIsLoaded, LengthsStay, AreasAreReadBack, SameWalks, SameAddresses, SameSizes, SameTypes, StoresDifferInTheirBytes, ChangesDifferInTheirPage, WalksElsewhereStay};

/// A change of a page changes that page as it says and no other, and makes or removes none.
pub fn pages_change_alone()
    ensures other { OtherPagesStay }
    ensures same { ThePageChanges }
    ensures there { PagesStayThere }
    ensures none { NoPageIsMade }
    ensures loads { OtherPagesLoadTheSame }
{}

/// A store changes the bytes that it writes alone, and they are loaded from there afterwards.
pub fn stores_change_their_bytes()
    ensures apart { OtherBytesStay }
    ensures stored { TheStoredIsLoaded }
    ensures lengths { LengthsStay }
{}

/// What an area of MSRs says in each entry is what was written there.
pub fn areas_are_read_back()
    ensures { AreasAreReadBack }
{}

/// A walk depends on the entries that it reads, and on which pages are there, and on nothing else of
/// the memory.
pub fn walks_depend_on_their_entries()
    ensures walks { SameWalks }
    ensures addresses { SameAddresses }
    ensures sizes { SameSizes }
    ensures types { SameTypes }
{}

/// What is changed elsewhere changes no walk.
pub fn changes_elsewhere_change_no_walk()
    ensures stores { StoresDifferInTheirBytes }
    ensures pages { ChangesDifferInTheirPage }
    ensures walks { WalksElsewhereStay }
{}
