//! What a program does at its start: it takes its words, and holds the descriptors of the standard streams.
//! No clause can say what a process is given.
use std::fs::File;
use std::io::ErrorKind;
use std::{env, io};

/// The words after the program's name; no words where one isn't UTF-8, and none at all where memory
/// is refused.
pub fn words(rt: &HostRuntime) -> Option<Vec<String>> {
    match env::args(rt) {
        Ok(args) => args.skip(1).collect(rt.alloc()).ok(),
        Err(e) => {
            if e.kind() == ErrorKind::OutOfMemory {
                None
            } else {
                Some(Vec::new(rt.alloc()))
            }
        }
    }
}

/// Opens `/dev/null` three times, for reading alone. The system gives out the lowest descriptor that
/// is free, so those of 0 to 2 that were closed at the start are taken, and no file that is opened
/// later is given one of them: what is put to a standard stream that was closed fails, and lands in
/// no file. Where `/dev/null` can't be opened the program goes on.
pub fn hold_descriptors(rt: &HostRuntime) -> [io::Result<File>; 3] {
    [
        File::open(rt, "/dev/null"),
        File::open(rt, "/dev/null"),
        File::open(rt, "/dev/null"),
    ]
}
