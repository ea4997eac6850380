//! What a kernel is told of its system.
use frame_clock::Plan;
use image_pack::SubjectPart;
use muen_num::Seq;
use vmx_machine::Control;

/// What a kernel knows of its system. It never changes.
#[derive(Debug, Drop)]
pub struct Setup {
    /// The page of memory whose first byte chooses the next major frame, by its number, if one does.
    pub tau0: Option<u32>,
    /// The subjects, by their numbers.
    pub subjects: Seq<SubjectPart>,
    /// What a CPU is told of each subject, by the subjects' numbers.
    pub controls: Seq<Control>,
    /// The scheduling groups, and the plan.
    pub plan: Plan,
}
