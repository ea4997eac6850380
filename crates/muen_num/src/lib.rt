//! What every other crate stands on: names, lists that contracts see as their items, the limits,
//! sizes of access, ranges of ports and targets of interrupts, searches in order, lists of which one
//! element is changed, texts in pieces and in fixed buffers, and values for clauses alone.
#![tactic(auto)]

pub mod access;
pub mod devices;
mod digits;
pub mod limits;
pub mod list_change;
pub mod mode;
pub mod name;
pub mod pieces;
pub mod searches;
pub mod seq;
pub mod tag;
pub mod text;
pub mod told;

pub use access::{AccessKind, AccessSize};
pub use devices::{IrqTarget, PortSpan};
pub use list_change::a_change_is_found;
pub use mode::EventMode;
pub use name::Name;
pub use pieces::Pieces;
pub use searches::{first, first_numbered, first_pair};
pub use seq::{NoMemory, Seq};
pub use tag::{Tag, TagPart};
pub use told::{Tells, Told};
