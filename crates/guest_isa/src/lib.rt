//! The instructions of the guests (this project's own table), one step of a subject in any world, and
//! what the kernel makes of its end.
//!
//! The definition of a step stands in specs/ (`Step`). It is one for all worlds: for a subject alone, in
//! which an access reaches things by name, and for the machine, in which it reaches pages of memory.
#![tactic(auto)]

mod effect;
mod end;
mod finish;
mod instr;
mod opcode;
mod reach;
mod spelling;
mod step_laws;

pub use effect::{carry_out, write_register};
pub use end::{Change, StepEnd};
pub use finish::{Finish, inject};
pub use instr::{Asked, Instr, Wish};
pub use opcode::{Opcode, Shape};
pub use reach::Reach;
pub use spelling::{decode, encode};
pub use state_page::SubjectState;
pub use step_laws::alike_worlds_step_alike;
