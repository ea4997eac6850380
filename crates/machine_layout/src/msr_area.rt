//! The area of MSRs that are loaded at VM entry and stored at VM exit (Intel SDM volume 3, format of
//! an MSR entry).

/// The bytes of an entry: the index of an MSR, and its value.
pub const AREA_ENTRY: u64 = 16;

/// The byte of an entry at which the value begins.
pub const AREA_VALUE: u64 = 8;
