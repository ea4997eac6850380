//! The run of a sound image prints what the abstract system of its policy does.
//!
//! The function here carries this law; no command calls it.
#![tactic(auto)]

ghost use Rattle.proof_runs.specs.Laws.{NoTablesFitWithoutDomains, SoundImagesHaveTheirDevices, SoundImagesRunAsTheirSystems};

/// For every policy and files for which an image is sound, tables for direct memory access that fit
/// (`Fit`: or none, where no domain of devices may write), and every device record of the policy's devices
/// with any order of the CPUs in each tick: the text of the image's run is the text of the abstract
/// system's run, in which each subject acts alone on its own state and what reaches it. And a record
/// may name of the image what it may name of the policy.
pub fn sound_images_run_as_their_systems()
    ensures trace { SoundImagesRunAsTheirSystems }
    ensures bench { SoundImagesHaveTheirDevices }
{}

/// Where a policy has no domains of devices, no tables are wanted.
pub fn no_tables_fit_without_domains()
    ensures { NoTablesFitWithoutDomains }
{}
