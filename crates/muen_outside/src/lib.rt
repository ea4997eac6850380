//! Where a program reads and writes: files under names, and sinks of bytes, each as a trait whose
//! clauses see the calls that were made, in memory, and over the system; and a buffer that stands
//! before a sink.
#![tactic(auto)]

mod buffer;
mod buffered_sink;
mod device;
mod disk;
mod fault_count;
mod files;
mod folder_files;
mod growing_sink;
mod history;
mod lines;
mod mem_files;
mod mem_sink;
mod opened_file;
mod pieces;
mod process;
mod sink;
mod writer_sink;

ghost use Rattle.std.specs.Prelude.{List};
ghost use Rattle.muen_outside.specs.Looks.{AreSingle, ShowAll};
ghost use Rattle.muen_outside.specs.States.{Look};
ghost use Rattle.muen_outside.specs.Store.{Store};

pub use buffer::Buffer;
pub use buffered_sink::BufferedSink;
pub use device::Device;
pub use disk::{Disk, SystemDisk};
pub use files::{FileError, Files, Found};
pub use folder_files::FolderFiles;
pub use growing_sink::GrowingSink;
pub use lines::PrintedLine;
pub use mem_files::MemFiles;
pub use mem_sink::MemSink;
pub use opened_file::OpenedFile;
pub use pieces::put_pieces;
pub use process::{hold_descriptors, words};
pub use sink::{Sink, SinkFault};
pub use writer_sink::WriterSink;

/// Looks, each at a name of its own, whose answers their limits allow, are those at some files.
pub fn looks_are_explained()
    ensures { (looks : List Look) → AreSingle looks → (m : Store) × ShowAll m looks }
{}
