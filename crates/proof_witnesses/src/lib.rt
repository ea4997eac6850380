//! Small systems in which the premises of laws are met, so that none of these speaks of nothing.
//!
//! The systems are policies, an image and records as terms (specs/); the functions here carry what is proved of them,
//! and no command calls one.
#![tactic(auto)]

ghost use Rattle.proof_witnesses.specs.SmallLaws.{SmallHasNoFault, SmallHasOnePath, SmallIsImage, SmallIsSound};
ghost use Rattle.proof_witnesses.specs.SteeredLaws.{InputsReachTalker, LineWritesRing, SteeredAgree, SteeredAreLawful, TalkerIsClosed, TalkerIsPrintedAlike};

/// **An image that is sound.** Of a policy with one subject, which may read and execute one page, there is an image:
/// walks for the subject's addresses lead to that page and nowhere else, every port and MSR exits, and what the kernel
/// keeps for it is as a sound image has it. So a policy, files and an image meet `IsSound`.
pub fn a_small_image_is_sound()
    ensures image { SmallIsImage }
    ensures sound { SmallIsSound }
    ensures paths { SmallHasOnePath }
{}

/// **A verdict without a fault.** `verify` finds none in that image.
pub fn a_small_image_has_no_fault()
    ensures { SmallHasNoFault }
{}

/// **Two systems that agree**, where a subject chooses the major frames by memory that a device writes too. They
/// differ in what another subject runs, and one record has an input more.
pub fn steered_systems_agree()
    ensures lawful { SteeredAreLawful }
    ensures closed { TalkerIsClosed }
    // The member is reached: by a byte, an interrupt and direct memory access, which writes what the frames are
    // chosen by.
    ensures reached { InputsReachTalker }
    ensures written { LineWritesRing }
    ensures agree { SteeredAgree }
    // So the law of two systems says that the same is printed of it in both.
    ensures alike { TalkerIsPrintedAlike }
{}
