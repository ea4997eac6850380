//! The kinds of values that a policy document is made of: what a JSON value of each kind stands
//! for, and the errors of functions that read one.
#![tactic(auto)]

mod fault;
mod number;
mod texts;

pub use fault::{ReadError, or_want};
pub use number::{byte_of, number_of};
pub use texts::{caching_of, hexadecimal_of, mode_of, msr_rights_of, name_of, rights_of, role_of};
