//! What a CPU is told of a subject.

/// What a CPU is told of the subject that it enters (Intel SDM volume 3, the VMCS's controls). A page
/// is physical, and named by its number.
#[derive(Clone, Copy, Debug)]
pub struct Control {
    /// The page of the subject's state.
    pub state: u32,
    /// The EPTP: which EPT tables are walked.
    pub eptp: u64,
    /// The page of I/O bitmap A. Bitmap B is the page behind it.
    pub io_bitmaps: u32,
    /// The page of the MSR bitmap.
    pub msr_bitmap: u32,
    /// The page of the area of MSRs that are loaded on entry and stored on leaving.
    pub msr_area: u32,
    /// How many entries the area has.
    pub msrs: u8,
}
