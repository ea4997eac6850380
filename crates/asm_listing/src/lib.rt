//! A source of any bytes, and a listing of them.
#![tactic(auto)]

mod laws;
mod listing;
mod source;
mod spelling;

pub use laws::{sources_assemble, sources_say_again};
pub use listing::put_listing;
pub use source::put_source;
