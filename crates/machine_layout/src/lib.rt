//! What the machine's memory means: its pages, the walk of EPT tables over them and the entries of these
//! tables, which accesses of ports and of MSRs leave a subject, and how pages of bitmaps and of fields are
//! written (Intel SDM volume 3).
//! The definitions stand in specs/; the types that they answer with stand here, with laws of them.
#![tactic(auto)]

mod bit_fields;
mod bitmaps;
pub mod entries;
mod exits;
mod laws;
mod msr_area;
mod page_fields;
mod walk;

pub use bit_fields::bits;
pub use bitmaps::{clear_bits, set_all};
pub use exits::{BITMAP_PORTS, msr_bit, msr_exits, port_exits};
pub use laws::{
    areas_are_read_back, changes_elsewhere_change_no_walk, pages_change_alone,
    stores_change_their_bytes, walks_depend_on_their_entries,
};
pub use msr_area::{AREA_ENTRY, AREA_VALUE};
pub use page_fields::{clear_all, put_bytes, put_word, word_at};
pub use walk::Walk;
