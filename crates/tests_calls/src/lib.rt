//! What the built program can't show of whole calls of `muen`: each command once on files and sinks in
//! memory, calls of which one on files or on the output fails, and systems that are made ready.
#![tactic(auto)]

#[cfg(test)]
mod agree;
#[cfg(test)]
mod calls;
#[cfg(test)]
mod rows;
#[cfg(test)]
mod running;
#[cfg(test)]
mod systems;
