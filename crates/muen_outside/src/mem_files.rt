ghost use Rattle.std.specs.Prelude.{◌≡◌, ◌≢◌, ◌∷◌, [], ◌==◌, ◌↔◌, Err, Option, Some, OnOk, OnErr, IfOk, IsTrue, string_bytes};
ghost use Rattle.std.specs.List.{list_any};
ghost use Rattle.std.specs.Option.{option_map};
ghost use Rattle.std.specs.FinMap as map;
ghost use Rattle.muen_outside.specs.Store.{reading_of, KeepsOtherNames, insert_known, find_bytes, put_entry};
ghost use Rattle.muen_outside.specs.Found.{seen, answered, IsPossible};
ghost use Rattle.muen_outside.specs.States.{look, looked, no_history, write as write_of, written};
ghost use Rattle.muen_outside.specs.Entries.{entry_list};
ghost use Rattle.muen_outside.specs.MemFiles.{next_call_count, next_file_call_fails, store_of};

use crate::files::{FileError, Files, Found};
use crate::history::{Calls, Looked, Start, Wrote};
use muen_num::{Seq, Told};
use std::alloc::{AllocError, Global};
use std::marker::Model;

/// Files in memory, which tell what they hold. They fail at the calls whose numbers are listed, and
/// only there.
#[derive(Drop)]
pub struct MemFiles {
    held: Vec<(String, Vec<u8>)>,
    fails: Vec<u64>,
    calls: u64,
    history: Told<Calls>,
}

impl Model for MemFiles {
    ghost use Rattle.muen_outside.specs.MemFiles.{Shelf};

    ghost Value = { Shelf };

    ghost use Rattle.muen_outside.specs.Entries.{entry_list};

    ghost view = { λ s. record { entries = entry_list s.held.items; fails = s.fails.items; calls = s.calls; history = s.history.value } };
}

// Whether the number is in the list.
pub(crate) fn is_listed(numbers: &[u64], number: u64) -> bool
    ensures { result ≡ list_any (λ n. n == number) numbers.now }
{
    numbers.iter().any(|n| *n == number)
}

// The bytes of the first file of this name.
fn find_file<'a>(files: &'a [(String, Vec<u8>)], name: &str) -> Option<&'a Vec<u8>>
    ensures { option_map (λ v. v.now.items) result ≡ find_bytes name.now (entry_list files.now) }
{
    for file in files {
        if name == file.0.as_str() {
            return Some(&file.1);
        }
    }
    None
}

// Puts the bytes into the first file of this name, or adds a file.
fn put_file(
    files: &mut Vec<(String, Vec<u8>)>,
    name: String,
    bytes: Vec<u8>,
) -> Result<(), AllocError>
    ensures ok { OnOk result (entry_list files.new.items ≡ put_entry (string_bytes name) bytes.items (entry_list files.old.items)) }
    ensures err { OnErr result (files.new.items ≡ files.old.items) }
{
    for i in 0..files.len() {
        if name.as_str() == files[i].0.as_str() {
            files[i].1 = bytes;
            return Ok(());
        }
    }
    files.push((name, bytes))?;
    Ok(())
}

// A look at the files.
fn look_up(
    alloc: Global,
    files: &[(String, Vec<u8>)],
    name: &str,
    most: usize,
) -> Result<Found, FileError>
    ensures possible { IfOk result (λ found. IsPossible most (seen found)) }
    ensures told { IfOk result (λ found. reading_of (find_bytes name.now (entry_list files.now)) most ≡ seen found) }
    ensures err { result ≢ Err FileError.Failed }
{
    match find_file(files, name) {
        None => Ok(Found::Missing),
        Some(bytes) => {
            if bytes.len() > most {
                return Ok(Found::TooLong(bytes.len() as u64));
            }
            Ok(Found::Bytes(Seq::of(Vec::from_slice(alloc, bytes)?)))
        }
    }
}

// Keeps copies of both.
fn keep(
    alloc: Global,
    files: &mut Vec<(String, Vec<u8>)>,
    name: &str,
    bytes: &[u8],
) -> Result<(), FileError>
    ensures ok { OnOk result (entry_list files.new.items ≡ put_entry name.now bytes.now (entry_list files.old.items)) }
    ensures err { OnErr result (files.new.items ≡ files.old.items) }
    ensures memory { result ≢ Err FileError.Failed }
{
    let key = String::from_str(alloc, name)?;
    let bytes = Vec::from_slice(alloc, bytes)?;
    put_file(files, key, bytes)?;
    Ok(())
}

impl MemFiles {
    /// These files, of which the first counts where two have one name; no call was made. The calls
    /// whose numbers, from 0, are in `fails` fail.
    pub fn make(held: Vec<(String, Vec<u8>)>, fails: Vec<u64>) -> MemFiles
        ensures { result ≡ record { entries = entry_list held.items; fails = fails.items; calls = 0; history = no_history } }
    {
        MemFiles {
            held,
            fails,
            calls: 0,
            history: Told::of(&Start),
        }
    }

    /// The bytes under the name, lent; `None` exactly where it is not held. It is no call that
    /// counts.
    #[tactic(auto, using(crate::proofs::HeldMap::held_map))]
    pub fn get(&self, name: &str) -> Option<&[u8]>
        ensures entries { option_map (λ s. s.now) result ≡ find_bytes name.now self.now.entries }
        ensures held { option_map (λ s. s.now) result ≡ map.get (store_of self.now) name.now }
    {
        Some(find_file(&self.held, name)?)
    }

    // Whether this call is to fail; counts it.
    fn begin(&mut self) -> bool
        ensures listed { result ≡ next_file_call_fails self.old }
        ensures calls { self.new.calls ≡ next_call_count self.old.calls }
        ensures same { (self.new.entries ≡ self.old.entries) × (self.new.fails ≡ self.old.fails) × (self.new.history ≡ self.old.history) }
    {
        let listed = is_listed(&self.fails, self.calls);
        self.calls = self.calls.saturating_add(1);
        listed
    }
}

impl Files for MemFiles {
    ghost history = { λ s. s.history };

    ghost held = { λ s. Some (store_of s) };

    #[tactic(auto, using(crate::proofs::HeldMap::held_map))]
    fn read(&mut self, alloc: Global, name: &str, most: usize) -> Result<Found, FileError>
        ensures history { self.new.history ≡ looked self.old.history (look name.now most (answered result) ∷ []) }
        ensures possible { IfOk result (λ found. IsPossible most (seen found)) }
        ensures told { IfOk result (λ found. reading_of (map.get (store_of self.old) name.now) most ≡ seen found) }

        // Which calls fail, what is counted, and what stays.
        ensures fails { (result ≡ Err FileError.Failed) ↔ IsTrue (next_file_call_fails self.old) }
        ensures calls { self.new.calls ≡ next_call_count self.old.calls }
        ensures same { (self.new.entries ≡ self.old.entries) × (self.new.fails ≡ self.old.fails) }
    {
        let got = if self.begin() {
            Err(FileError::Failed)
        } else {
            look_up(alloc, &self.held, name, most)
        };
        self.history = Told::of(&Looked {
            before: &self.history,
            name,
            most,
            got: &got,
        });
        got
    }

    #[tactic(auto, using(crate::proofs::HeldMap::held_map))]
    fn write(&mut self, alloc: Global, name: &str, bytes: &[u8]) -> Result<(), FileError>
        ensures history { self.new.history ≡ written self.old.history (write_of name.now bytes.now result ∷ []) }
        ensures ok { OnOk result (Some (store_of self.new) ≡ insert_known (Some (store_of self.old)) name.now bytes.now) }
        ensures others { KeepsOtherNames name.now (Some (store_of self.old)) (Some (store_of self.new)) }

        // Which calls fail, what is counted, and what stays.
        ensures fails { (result ≡ Err FileError.Failed) ↔ IsTrue (next_file_call_fails self.old) }
        ensures err { OnErr result (self.new.entries ≡ self.old.entries) }
        ensures calls { self.new.calls ≡ next_call_count self.old.calls }
        ensures same { self.new.fails ≡ self.old.fails }
    {
        let end = if self.begin() {
            Err(FileError::Failed)
        } else {
            keep(alloc, &mut self.held, name, bytes)
        };
        self.history = Told::of(&Wrote {
            before: &self.history,
            name,
            bytes,
            end: &end,
        });
        end
    }
}
