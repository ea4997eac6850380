//! The limit of a source.

/// A source's file has at most 16 MiB.
pub(crate) const SOURCE_MOST: usize = 16 << 20;
