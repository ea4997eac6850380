//! Laws of sources: functions that do nothing, whose contracts say them.
ghost use Rattle.asm_listing.specs.Laws.{SourcesAssemble, SourcesSayAgain};

/// Assembling what is printed of bytes gives the bytes back.
pub fn sources_assemble()
    ensures { SourcesAssemble }
{}

/// What is printed of the bytes of a source says the instructions that the source says, each at its
/// offset.
pub fn sources_say_again()
    ensures { SourcesSayAgain }
{}
