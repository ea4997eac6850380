//! Laws of the memory of an image.
ghost use Rattle.image_memory.specs.Memory.{SpansAreInMemory};

/// Each page of each span stands in the memory that spans give.
pub fn spans_are_in_memory()
    ensures { SpansAreInMemory }
{}
