//! Where accesses of memory lead.

/// Where an access of memory leads, in a world whose targets are called `X`.
#[derive(Clone, Copy, Debug)]
pub enum Reach<X> {
    /// To the bytes of a target from an offset on.
    Reached {
        target: X,
        offset: u64,
    },
    /// To an exit.
    Refused {
        /// The exit reason.
        reason: u8,
        /// The exit qualification.
        qualification: u64,
        /// The guest address, where the exit has one.
        addr: u64,
    },
}
