//! What a walk of EPT tables comes to.

/// Where a walk of EPT tables ends (Intel SDM volume 3, VMX support for address translation).
#[derive(Clone, Copy, Debug, PartialEq, Eq)]
pub enum Walk {
    /// The physical address.
    At(u64),
    /// EPT violation: rights are missing, or an entry isn't present. The rights found, as the low
    /// three bits of an entry; 0 where an entry isn't present.
    Violation(u64),
    /// EPT misconfiguration: an entry has bits that it may not have, or it or the target isn't in
    /// memory.
    Misconfigured,
}
