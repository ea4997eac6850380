//! The program `muen_lint`: the command of `lint_top` over the files of the folder that it runs in and
//! the process's streams.
#![tactic(auto)]

use lint_top::{Status, muen_lint};
use muen_outside::{FolderFiles, Sink, WriterSink, hold_descriptors, words};
use std::process::ExitCode;

fn main(rt: HostRuntime) -> ExitCode {
    let _held = hold_descriptors(&rt);
    let mut out = WriterSink::standard_output(&rt);
    let mut err = WriterSink::standard_error(&rt);
    let Some(words) = words(&rt) else {
        let _ = err.put(b"muen_lint: out of memory\n");
        return ExitCode::from(Status::NoMemory);
    };
    let alloc = rt.alloc();
    let mut files = FolderFiles::system(rt);
    ExitCode::from(muen_lint(alloc, &words, &mut files, &mut out, &mut err))
}
