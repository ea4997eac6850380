//! The image of a system: its parts, their bytes, and the way back.
//!
//! The format is stated once, as a form of bytes (specs/Image.antt). Reading, spelling, the
//! conditions and the first fault come of it.
#![tactic(auto)]

mod codes;
mod image;
mod items;
mod outline;
mod parts;
mod reading;
mod writing;

pub use binary_form::{Field, ImageFault};
pub use frame_clock::{GroupPart, Major, Minor, Plan};
pub use image::{Parts, conditions, first_fault, one_to_one, pack, unpack};
pub use items::{Item, items_of, put_items};
pub use outline::{Header, Outline};
pub use parts::{
    DevicePart, EventPart, Image, IrqPart, SpanKind, SpanPart, SubjectPart, WindowPart,
    span_numbered,
};
pub use reading::devices::new_name_of;
