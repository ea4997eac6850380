//! Tests of the assembler's crates, and of whole calls of `muen_asm` on files and sinks in memory,
//! against lines that were worked out by hand.
#![tactic(auto)]

#[cfg(test)]
mod agree;
#[cfg(test)]
mod calls;
#[cfg(test)]
mod listings;
#[cfg(test)]
mod sources;
