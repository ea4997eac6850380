//! What an image gives a machine and its kernel, and what a device record may name of it.
#![tactic(auto)]

mod loading;
mod reading;
mod record_devices;
mod setup;
mod spans;

pub use loading::{Loaded, load};
pub use reading::read_record;
