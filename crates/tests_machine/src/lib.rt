//! Runs of the crates of the machine, and of those that emit what it reads, on memory and values that
//! were made by hand. They stand here, over the crates, so that proving a crate's tests doesn't prove
//! the crate once more.
#![tactic(auto)]

#[cfg(test)]
mod agree;
#[cfg(test)]
mod bench;
#[cfg(test)]
mod bits;
#[cfg(test)]
mod counts;
#[cfg(test)]
mod ends;
#[cfg(test)]
mod events;
#[cfg(test)]
mod instructions;
#[cfg(test)]
mod machine;
#[cfg(test)]
mod memory;
#[cfg(test)]
mod msr_bitmaps;
#[cfg(test)]
mod pages;
#[cfg(test)]
mod port_bitmaps;
#[cfg(test)]
mod tables;
#[cfg(test)]
mod walks;
