//! The text of where a policy's devices reach memory by themselves: the windows of their domains, at
//! the addresses where regions are placed.
#![tactic(auto)]

mod report;
mod window;
mod windows;

pub use report::{device_windows_told, dma_map_text};
pub use window::DeviceWindow;
pub use windows::device_windows;
