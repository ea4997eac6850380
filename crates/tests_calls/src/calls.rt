//! Rows of calls over files and sinks in memory, some of which fail.
use crate::agree::agree_at;
use crate::rows::{
    OF_CHANNEL, OF_CONTENTS, OF_EACH_COMMAND, OF_GATEWAY, OF_LOOP, OF_NIC, OF_ONE, OF_THREE_FILES,
};
use crate::systems::{CHANNEL, FROM_FILES, GATEWAY, LOOP, NIC, ONE, THREE_FILES};
use std::alloc::Global;
use std::process::Abort;
use std::test::Fail;
use tests_support::{
    Ended, MemFiles, MemSink, answered, call, changed, file, filled, has_pieces, numbers, printed,
};

// The files of a call, besides the policy `p` and three that are long.
const FILES: &[(&str, &str)] = &[
    ("none", "end 0\n"),
    ("zero", "end 0"),
    ("one", "end 1\n"),
    ("three", "end 3\n"),
    ("inputs", "port 100 net 768 5\nend 1500\n"),
    ("thousands", "end 3000"),
    ("late", "end 100001\n"),
    ("short", "MUENIMG1"),
];

// These files, behind others; the calls of these digits fail.
fn files(
    alloc: Global,
    others: Vec<(String, Vec<u8>)>,
    policy: &str,
    fails: &str,
) -> Result<MemFiles, Fail> {
    let mut held = others;
    held.push(file(alloc, "p", policy.as_bytes())?)?;
    for &(name, text) in FILES {
        held.push(file(alloc, name, text.as_bytes())?)?;
    }
    held.push(filled(alloc, "page", 1, 4096)?)?;
    held.push(filled(alloc, "long", 1, 5000)?)?;
    if policy.contains("longer") {
        held.push(filled(alloc, "longer", b' ', 16_777_217)?)?;
    }
    Ok(MemFiles::make(held, numbers(alloc, fails)?))
}

// The files of a call with these words: `run` and `verify` find the image `i` and the tables `t` of the
// policy, which may have content from an `i` of eight bytes.
fn files_of(alloc: Global, policy: &str, words: &str, fails: &str) -> Result<MemFiles, Fail> {
    let mut built = Vec::new(alloc);
    if words.starts_with("run") || words.starts_with("verify") {
        let mut eight = Vec::new(alloc);
        eight.push(file(alloc, "i", b"MUENIMG1")?)?;
        let mut before = files(alloc, eight, policy, "")?;
        answered(alloc, "build p i t", &mut before)?;
        for name in ["i", "t"] {
            built.push(file(alloc, name, before.get(name).ok_or("no image")?)?)?;
        }
    }
    files(alloc, built, policy, fails)
}

// The output of a row: which puts fail, how many bytes are kept of each, and its room.
fn output(alloc: Global, row: &str) -> Result<MemSink, Fail> {
    if row.is_empty() {
        return Ok(MemSink::make(alloc, 1_000_000, Vec::new(alloc), 0)?);
    }
    let (fails, rest) = row.split_once(' ').ok_or("an output")?;
    let (keep, room) = rest.split_once(' ').ok_or("an output")?;
    let keep: usize = keep.parse().ok().ok_or("how many bytes")?;
    let room: usize = room.parse().ok().ok_or("a room")?;
    Ok(MemSink::make(alloc, room, numbers(alloc, fails)?, keep)?)
}

// What was put to the output, or how many bytes, where they are many.
fn kept(alloc: Global, out: &str) -> Result<String, Fail> {
    if out.len() <= 1000 {
        return Ok(out.replace(alloc, '\n', "/")?);
    }
    let mut text = out.len().to_string(alloc)?;
    text.push_str(" bytes")?;
    Ok(text)
}

// How a call ended.
fn ending(alloc: Global, ended: &Ended) -> Result<String, Fail> {
    let mut text = match ended.err.as_str() {
        "" => ended.status.to_string(alloc)?,
        _ => ended.line(alloc)?,
    };
    if ended.calls > 0 {
        text.push_str(", puts ")?;
        text.push_str(ended.calls.to_string(alloc)?.as_str())?;
        text.push_str(" [")?;
        text.push_str(kept(alloc, ended.out.as_str())?.as_str())?;
        text.push(']')?;
    }
    Ok(text)
}

// Which files were made, and whether the policy is another.
fn made(alloc: Global, files: &MemFiles, policy: &str) -> Result<String, Fail> {
    let mut text = String::new(alloc);
    for (name, begin) in [("image", "MUENIMG1"), ("tables", "MUENDMA1")] {
        if let Some(bytes) = files.get(name) {
            text.push_str(", ")?;
            text.push_str(name)?;
            if bytes.starts_with(begin.as_bytes()) {
                text.push(' ')?;
                text.push_str(begin)?;
            }
        }
    }
    if files.get("p") != Some(policy.as_bytes()) {
        text.push_str(", another policy")?;
    }
    Ok(text)
}

// Whether an output that isn't ample has the beginning of what is put to one that is.
fn is_beginning(alloc: Global, policy: &str, words: &str, ended: &Ended) -> Result<bool, Fail> {
    let whole = printed(alloc, words, &mut files_of(alloc, policy, words, "")?)?;
    Ok(whole.as_str().starts_with(ended.out.as_str()))
}

// What calls come to, between whose words are commas.
fn told(alloc: Global, policy: &str, calls: &str, fails: &str, row: &str) -> Result<String, Fail> {
    let mut files = files_of(alloc, policy, calls, fails)?;
    let mut text = String::new(alloc);
    for words in calls.split(", ") {
        let ended = call(alloc, words, &mut files, &mut output(alloc, row)?)?;
        if !text.is_empty() {
            text.push_str("; ")?;
        }
        text.push_str(ending(alloc, &ended)?.as_str())?;
        if !row.is_empty() && !is_beginning(alloc, policy, words, &ended)? {
            text.push_str(", another text")?;
        }
    }
    text.push_str(made(alloc, &files, policy)?.as_str())?;
    Ok(text)
}

// What the calls of a row come to, of which this is taken off.
fn told_of(alloc: Global, system: &str, row: &str) -> Result<String, Fail> {
    let (fails, rest) = row.split_once(" | ").ok_or("no outputs")?;
    let (output, rest) = rest.split_once(" | ").ok_or("no words")?;
    let (words, changes) = match rest.split_once(" | ") {
        Some(parts) => parts,
        None => (rest, ""),
    };
    let policy = changed(alloc, system, changes)?;
    told(alloc, policy.as_str(), words, fails, output)
}

fn rows(rt: &impl Abort, alloc: Global, system: &str, rows: &str) -> Result<(), Fail> {
    for row in rows.split('\n') {
        let (want, asked) = row.split_once(" | ").ok_or("no calls")?;
        let told = told_of(alloc, system, asked)?;
        if !has_pieces(told.as_str(), want) {
            agree_at(rt, told.as_str(), want, row);
        }
    }
    Ok(())
}

#[test]
fn calls(rt: HostRuntime) -> Result<(), Fail> {
    let alloc = rt.alloc();
    rows(&rt, alloc, ONE, OF_EACH_COMMAND)?;
    rows(&rt, alloc, ONE, OF_ONE)?;
    rows(&rt, alloc, FROM_FILES, OF_CONTENTS)?;
    rows(&rt, alloc, THREE_FILES, OF_THREE_FILES)?;
    rows(&rt, alloc, LOOP, OF_LOOP)?;
    rows(&rt, alloc, CHANNEL, OF_CHANNEL)?;
    rows(&rt, alloc, NIC, OF_NIC)
}

#[test]
fn long_text(rt: HostRuntime) -> Result<(), Fail> {
    let alloc = rt.alloc();
    rows(&rt, alloc, GATEWAY, OF_GATEWAY)
}
