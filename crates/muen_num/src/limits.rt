//! Every limit of the project, once: code and definitions cite these by name.

// ---- addresses and sizes, in bytes

/// A page of memory (Intel SDM volume 3, 4-level paging and EPT).
pub const PAGE: u64 = 4096;

/// A large page, which one entry of a page directory maps (Intel SDM volume 3).
pub const LARGE_PAGE: u64 = 1 << 21;

/// The end of guest addresses, as four levels of tables translate them (Intel SDM volume 3).
pub const GUEST_END: u64 = 1 << 48;

/// The end of physical addresses (this project's profile).
pub const PHYSICAL_END: u64 = 1 << 40;

/// The most bytes of all memory blocks together, 64 MiB (this project's profile).
pub const MOST_BLOCK_BYTES: u64 = 64 << 20;

/// The most bytes of the memory of all devices together, 16 MiB (this project's profile).
pub const MOST_DEVICE_BYTES: u64 = 16 << 20;

// ---- elements of a policy: the most of each (this project's profile)

/// The most logical CPUs of the processor; there is at least one.
pub const MOST_CPUS: u64 = 8;

/// The most subjects of a policy; there is at least one.
pub const MOST_SUBJECTS: usize = 32;

/// The most components of a policy.
pub const MOST_COMPONENTS: usize = 64;

/// The most logical names of a component: of what it provides, of its memory and of its channels
/// together.
pub const MOST_LOGICAL_NAMES: usize = 64;

/// The most channels of a policy.
pub const MOST_CHANNELS: usize = 128;

/// The most events of a policy; a channel with an event counts as one.
pub const MOST_EVENTS: usize = 256;

/// The most devices of a policy.
pub const MOST_DEVICES: usize = 32;

/// The most memory ranges of a device, the most port ranges, and the most interrupts.
pub const MOST_PER_DEVICE: usize = 16;

/// The most memory blocks of a policy.
pub const MOST_BLOCKS: usize = 16;

/// The most regions of memory: a policy's regions and channels, those that its subjects' components
/// provide, and those of the kernel.
pub const MOST_REGIONS: usize = 1024;

/// The regions that the kernel has for each subject: its state page, EPT tables, I/O bitmaps, MSR
/// bitmap and MSR area.
pub const KERNEL_REGIONS: usize = 5;

/// The most memory ranges of all devices together.
pub const MOST_DEVICE_WINDOWS: usize = 128;

/// The most windows of a subject: of its regions, channels, devices and component.
pub const MOST_WINDOWS: usize = 128;

/// The most MSRs that a subject may use.
pub const MOST_MSRS: u64 = 64;

/// The end of the numbers of a subject's calls (hypercalls), and of its traps; both begin at 0.
pub const MOST_CALLS: u64 = 64;

/// The most major frames of a scheduling plan; there is at least one.
pub const MOST_MAJOR_FRAMES: usize = 16;

/// The most domains of devices.
pub const MOST_DOMAINS: usize = 32;

/// The most minor frames of a CPU in a major frame; there is at least one.
pub const MOST_MINOR_FRAMES: usize = 64;

/// The most ticks of a run, and of a CPU in a major frame (this project's profile).
pub const MOST_TICKS: u64 = 100_000;

/// The most bytes of a name (this project's profile of Muen's names).
pub const NAME_MOST: usize = 63;

// ---- numbers of the processor

/// The first interrupt vector that isn't kept for exceptions (Intel SDM volume 3, interrupts).
pub const FIRST_VECTOR: u64 = 32;

/// The last interrupt vector.
pub const LAST_VECTOR: u64 = 255;

/// The last I/O port.
pub const LAST_PORT: u64 = 65535;

/// The last MSR of the low range that an MSR bitmap covers, which begins at 0 (Intel SDM volume 3,
/// MSR-bitmap address).
pub const LOW_MSR_LAST: u64 = 0x1FFF;

/// The first MSR of the high range that an MSR bitmap covers.
pub const HIGH_MSR_FIRST: u64 = 0xC000_0000;

/// The last MSR of that range.
pub const HIGH_MSR_LAST: u64 = 0xC000_1FFF;

/// How many devices a PCI bus has (PCI local bus: configuration addresses).
pub const BDF_DEVICES: u64 = 32;

/// How many functions a device on a PCI bus has.
pub const BDF_FUNCTIONS: u64 = 8;

// ---- files, in bytes (this project's profile)

/// The longest policy, 4 MiB.
pub const POLICY_MOST: usize = 4 << 20;

/// The longest file of a component or of a region's content, 64 MiB.
pub const COMPONENT_FILE_MOST: usize = 64 << 20;

/// The longest image, 96 MiB.
pub const IMAGE_MOST: usize = 96 << 20;

/// The longest record of a run's devices, 16 MiB.
pub const RECORD_MOST: usize = 16 << 20;

// ---- output, in bytes (this project's profile)

/// The most bytes of a run's text that wait before they go on to the output, 64 KiB.
pub const OUTPUT_BLOCK: usize = 64 << 10;

// ---- basic exit reasons (Intel SDM volume 3, appendix on basic exit reasons)

/// An exception or a non-maskable interrupt.
pub const EXIT_EXCEPTION: u8 = 0;

/// HLT.
pub const EXIT_HLT: u8 = 12;

/// VMCALL.
pub const EXIT_VMCALL: u8 = 18;

/// An I/O instruction.
pub const EXIT_IO: u8 = 30;

/// RDMSR.
pub const EXIT_RDMSR: u8 = 31;

/// WRMSR.
pub const EXIT_WRMSR: u8 = 32;

/// A violation of the EPT's rights.
pub const EXIT_EPT_VIOLATION: u8 = 48;

/// An EPT entry that no processor accepts.
pub const EXIT_EPT_MISCONFIGURATION: u8 = 49;
