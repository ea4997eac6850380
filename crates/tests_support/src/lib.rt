//! What the tests of whole calls share: calls of `muen` on files and sinks in memory, and documents
//! with changes.
#![tactic(auto)]

pub use muen_outside::{MemFiles, MemSink};
use muen_top::muen;
use std::alloc::Global;
use std::test::Fail;

/// How a call ends: its status, and what the sinks hold.
#[derive(Drop)]
pub struct Ended {
    pub status: u8,
    /// How often something was put to the output.
    pub calls: u64,
    /// What was put to the output.
    pub out: String,
    /// What was put to the error sink.
    pub err: String,
}

impl Ended {
    /// The status, a space, and what was put to the error sink.
    pub fn answer(&self, alloc: Global) -> Result<String, Fail> {
        let mut text = self.status.to_string(alloc)?;
        text.push(' ')?;
        text.push_str(self.err.as_str())?;
        Ok(text)
    }

    /// The same without the end of the line. An error where other than one line was put.
    pub fn line(&self, alloc: Global) -> Result<String, Fail> {
        let Some((line, "")) = self.err.as_str().split_once('\n') else {
            return Err(Fail::new("no line"));
        };
        let mut text = self.status.to_string(alloc)?;
        text.push(' ')?;
        text.push_str(line)?;
        Ok(text)
    }
}

/// A file as `MemFiles` takes it: its name and its bytes.
pub fn file(alloc: Global, name: &str, bytes: &[u8]) -> Result<(String, Vec<u8>), Fail> {
    Ok((
        String::from_str(alloc, name)?,
        Vec::from_slice(alloc, bytes)?,
    ))
}

/// Files with these names and bytes; the calls of these digits fail.
pub fn files(alloc: Global, list: &[(&str, &[u8])], fails: &str) -> Result<MemFiles, Fail> {
    let mut held = Vec::new(alloc);
    for &(name, bytes) in list {
        held.push(file(alloc, name, bytes)?)?;
    }
    Ok(MemFiles::make(held, numbers(alloc, fails)?))
}

/// A file of so many bytes that are all this one.
pub fn filled(
    alloc: Global,
    name: &str,
    byte: u8,
    length: usize,
) -> Result<(String, Vec<u8>), Fail> {
    Ok((
        String::from_str(alloc, name)?,
        vec![in alloc; byte; length]?,
    ))
}

/// The numbers of one digit each: the calls that fail, as `MemFiles` and `MemSink` take them.
pub fn numbers(alloc: Global, digits: &str) -> Result<Vec<u64>, Fail> {
    let mut list = Vec::new(alloc);
    for digit in digits.as_bytes() {
        list.push(u64::from((*digit).saturating_sub(b'0')))?;
    }
    Ok(list)
}

/// Bytes as a text. An error where they are none.
pub fn text_of(alloc: Global, bytes: &[u8]) -> Result<String, Fail> {
    match String::from_utf8(bytes.to_vec(alloc)?) {
        Ok(text) => Ok(text),
        Err(_) => Err(Fail::new("no text")),
    }
}

/// A call of `muen` with these words, between which are spaces; none where there is no text.
pub fn call(
    alloc: Global,
    words: &str,
    files: &mut MemFiles,
    out: &mut MemSink,
) -> Result<Ended, Fail> {
    let mut list = Vec::new(alloc);
    for word in words.split(' ') {
        if !words.is_empty() {
            list.push(String::from_str(alloc, word)?)?;
        }
    }
    let mut err = MemSink::make(alloc, 200, Vec::new(alloc), 0)?;
    let status = muen(alloc, &list, files, out, &mut err);
    Ok(Ended {
        status: u8::from(status),
        calls: out.calls(),
        out: text_of(alloc, out.text())?,
        err: text_of(alloc, err.text())?,
    })
}

/// A call as `call` does it, whose output has room for so many bytes.
pub fn called(
    alloc: Global,
    words: &str,
    files: &mut MemFiles,
    room: usize,
) -> Result<Ended, Fail> {
    let mut out = MemSink::make(alloc, room, Vec::new(alloc), 0)?;
    call(alloc, words, files, &mut out)
}

/// The answer of a call that puts nothing to the output. An error where it does.
pub fn answered(alloc: Global, words: &str, files: &mut MemFiles) -> Result<String, Fail> {
    let ended = called(alloc, words, files, 10)?;
    if ended.calls > 0 {
        return Err(Fail::new("put"));
    }
    ended.answer(alloc)
}

/// What is put to the output, of at most a million bytes, by a call that ends well. An error where it
/// doesn't.
pub fn printed(alloc: Global, words: &str, files: &mut MemFiles) -> Result<String, Fail> {
    let ended = called(alloc, words, files, 1_000_000)?;
    if ended.status != 0 || !ended.err.is_empty() {
        return Err(Fail::new("refused"));
    }
    Ok(ended.out)
}

/// The image `i` that `build` writes for the policy `p`.
pub fn image_in(alloc: Global, files: &mut MemFiles) -> Result<Vec<u8>, Fail> {
    let answer = answered(alloc, "build p i", files)?;
    match files.get("i") {
        Some(bytes) if answer.as_str() == "0 " => Ok(bytes.to_vec(alloc)?),
        _ => Err(Fail::new("no image")),
    }
}

/// The image that `build` writes for a policy.
pub fn image_of(alloc: Global, policy: &str) -> Result<Vec<u8>, Fail> {
    image_in(alloc, &mut files(alloc, &[("p", policy.as_bytes())], "")?)
}

/// The document with changes, between which are bars: the text before `=>` gives way where it first
/// stands to that behind it. An error where it stands nowhere in the document.
pub fn changed(alloc: Global, document: &str, changes: &str) -> Result<String, Fail> {
    let mut text = String::from_str(alloc, document)?;
    for change in changes.split(" | ") {
        match change.split_once("=>") {
            Some((old, new)) if text.as_str().contains(old) => {
                text = text.as_str().replacen(alloc, old, new, 1)?;
            }
            Some(_) => return Err(Fail::new("no such place")),
            None if changes.is_empty() => {}
            None => return Err(Fail::new("no change")),
        }
    }
    Ok(text)
}

/// Whether a text begins with the first of these pieces, between which are three points, and has the
/// others anywhere; whether it is the piece where there is but one.
pub fn has_pieces(text: &str, pieces: &str) -> bool {
    match pieces.split_once("...") {
        Some((begin, others)) => {
            for piece in others.split("...") {
                if !text.contains(piece) {
                    return false;
                }
            }
            text.starts_with(begin)
        }
        None => text == pieces,
    }
}
