// Laws of what `muen` answers, which no command calls.
ghost use Rattle.muen_top.specs.LoadLaws.{GeneratedAreAccepted};
ghost use Rattle.muen_top.specs.Refusals.{DmaRefusedTells, FileMissingTells, ImageRefusedTells, NotSoundTells, PolicyRefusedTells, RecordRefusedTells};

/// A law of the clause `ends` of `muen`: the answer of a call that ends with one of these statuses is a refusal of what the
/// status says, or a verdict with a fault, and its line was put.
pub fn ends_tell_refusals()
    ensures policy { PolicyRefusedTells }
    ensures file { FileMissingTells }
    ensures image { ImageRefusedTells }
    ensures record { RecordRefusedTells }
    ensures dma { DmaRefusedTells }
    ensures verdict { NotSoundTells }
{}

/// The system of each number of `load` is accepted, whatever files hold, as is each document that is read as it.
pub fn generated_systems_are_accepted()
    ensures { GeneratedAreAccepted }
{}
