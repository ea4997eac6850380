//! What programs of commands share: the forms of their words, how they read and write files, and how they tell
//! their end.
#![tactic(auto)]

mod error;
mod form;
mod reading;
mod report;
mod status;
mod usage;

pub use error::{CommandError, Reason};
pub use form::{Form, Program};
pub use reading::{read_file, write_file};
pub use report::{finish, put_error_line};
pub use status::{OwnStatus, Status};
