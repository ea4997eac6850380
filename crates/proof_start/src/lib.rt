//! Images that are sound for a policy and its files: the machine that such an image makes stands for
//! the policy's system.
//!
//! The definitions stand in specs/ (`GroundOf`, `Reaching`). The functions here carry the laws; no
//! command calls one.
#![tactic(auto)]

ghost use Rattle.subject_model.specs.System.{start_of};
ghost use Rattle.image_load.specs.Loaded.{setup_of};
ghost use Rattle.image_memory.specs.Memory.{memory_of};
ghost use Rattle.image_soundness.specs.Sound.{ForEachSubject, IsSound};
ghost use Rattle.image_pack.specs.declared.parts.Image.{Image};
ghost use Rattle.proof_turns.specs.Ticks.{live_started};
ghost use Rattle.policy_lawful.specs.Contents.{Held};
ghost use Rattle.policy_lawful.specs.source.Source.{Source};
ghost use Rattle.proof_turns.specs.Fixed.{IsFixed};
ghost use Rattle.proof_turns.specs.Stands.{StandsFor};
ghost use Rattle.proof_start.specs.GroundOf.{ground_of};
ghost use Rattle.proof_start.specs.Reaching.{ReachesNoKernelRegion};

/// What a machine needs as long as it runs holds of every sound image: subjects, events, frames,
/// tables, bitmaps and windows are the policy's, and no page serves two.
pub fn sound_images_hold_together()
    ensures { (p : Source) (files : Held) (i : Image) → IsSound p files i → IsFixed (ground_of p i) }
{}

/// At the start the machine of a sound image stands for the policy's system.
pub fn sound_images_stand_at_the_start()
    ensures { (p : Source) (files : Held) (i : Image) → IsSound p files i
        → StandsFor (ground_of p i) (live_started (setup_of i) i.header.cpus (memory_of i)) (start_of p files) }
{}

/// In a sound image no window of a subject reaches a region of the kernel's, but the state pages that
/// the policy lets the subject monitor.
pub fn windows_reach_no_kernel_region()
    ensures { (p : Source) (files : Held) (i : Image) → IsSound p files i → ForEachSubject p i (ReachesNoKernelRegion p i) }
{}
