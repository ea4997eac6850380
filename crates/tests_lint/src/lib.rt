//! Tests of whole calls of `muen_lint` on files and sinks in memory, against lines that were worked out
//! by hand.
#![tactic(auto)]

#[cfg(test)]
mod agree;
#[cfg(test)]
mod calls;
