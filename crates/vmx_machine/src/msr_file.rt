//! The machine-specific registers of a CPU.
ghost use Rattle.std.specs.Prelude.{◌≡◌, IfOk};
ghost use Rattle.muen_num.specs.ListChange.{change_at};
ghost use Rattle.vmx_machine.specs.MsrFile.{msr_slot_of, value_in, with_msr, most};
ghost use Rattle.muen_num.specs.Numbers.{zeros};

use muen_num::NoMemory;
use muen_num::limits::{HIGH_MSR_FIRST, HIGH_MSR_LAST, LOW_MSR_LAST};
use std::alloc::Global;
use std::marker::Model;

/// How many MSRs the low range has.
const LOW: u64 = LOW_MSR_LAST + 1;

/// How many MSRs there are.
const MOST: usize = (LOW + (HIGH_MSR_LAST + 1 - HIGH_MSR_FIRST)) as usize;

/// The values of the machine-specific registers that an MSR bitmap covers (Intel SDM volume 3,
/// MSR-bitmap address): those of the low range and of the high one.
#[derive(Debug, Drop)]
pub struct MsrFile {
    values: Vec<u64>,
}

impl Model for MsrFile {
    ghost use Rattle.std.specs.Prelude.{List, ℕ};

    ghost Value = { List ℕ };

    ghost view = { λ f. f.values.items };
}

// The slot of an MSR. None of one outside both ranges.
fn slot_of(index: u64) -> Option<usize>
    ensures { result ≡ msr_slot_of index }
{
    if index <= LOW_MSR_LAST {
        return Some(index as usize);
    }
    if HIGH_MSR_FIRST <= index && index <= HIGH_MSR_LAST {
        return Some((LOW + (index - HIGH_MSR_FIRST)) as usize);
    }
    None
}

// Another value in a slot, if there is one.
#[tactic(auto, using(muen_num::proofs::ChangeLaws::set_is, muen_num::proofs::ChangeLaws::past_is))]
fn put_value(values: &mut [u64], slot: usize, value: u64)
    ensures { values.new ≡ change_at slot (λ _. value) values.old }
{
    if slot < values.len() {
        values[slot] = value;
    }
}

// So many zeros.
#[tactic(auto, unfolding(muen_num::specs::Numbers::zeros))]
fn zeros(alloc: Global, count: usize) -> Result<Vec<u64>, NoMemory>
    ensures { IfOk result (λ z. z.items ≡ zeros count) }
{
    Ok(vec![in alloc; 0; count]?)
}

impl MsrFile {
    /// All registers are 0.
    ///
    /// # Errors
    /// Memory is refused.
    pub fn start(alloc: Global) -> Result<MsrFile, NoMemory>
        ensures { IfOk result (λ f. f ≡ zeros most) }
    {
        Ok(MsrFile {
            values: zeros(alloc, MOST)?,
        })
    }

    /// The value of a register. None of one outside both ranges.
    pub fn get(&self, index: u64) -> Option<u64>
        ensures { result ≡ value_in self.now index }
    {
        let slot = slot_of(index)?;
        self.values.get(slot).copied()
    }

    /// Sets a register. One outside both ranges is passed over.
    pub fn put(&mut self, index: u64, value: u64)
        ensures { self.new ≡ with_msr index value self.old }
    {
        if let Some(slot) = slot_of(index) {
            put_value(&mut self.values, slot, value);
        }
    }
}
