//! The limit of one kind of file. It stands here and not among the limits of `muen_num`, which every crate
//! cites, since this crate and those above it alone read such files.

/// The most bytes of a file of tables for direct memory access, 64 MiB (this project's profile).
pub const DMA_MOST: usize = 64 << 20;
