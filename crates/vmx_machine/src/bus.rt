//! Memory with what translates guest addresses: what the machine reads and writes there.
ghost use Rattle.std.specs.Prelude.{◌≡◌, ◌+◌, ◌*◌, ◌/◌, ◌%◌, ◌^◌, ◌<◌, length};
ghost use Rattle.machine_layout.specs.Memory.{change, over, le_bytes, store_of};
ghost use Rattle.muen_num.specs.Range.{numbers_below};
ghost use Rattle.muen_num.specs.AccessSize.{bytes_of};
ghost use Rattle.machine_layout.specs.PageFields.{number_at};
ghost use Rattle.state_page.specs.StatePage.{page_bytes, state_in};
ghost use Rattle.guest_isa.specs.Step.{word_at};
ghost use Rattle.vmx_machine.specs.Machine.{page_bytes_at, entries_in, msrs_loaded, entry_saved, saved, put_off, written};
ghost use Rattle.vmx_machine.specs.Within.{IsWithinPage};

use crate::cpu::Entered;
use crate::msr_file::MsrFile;
use ept_walk::{PhysMem, Translate};
use machine_layout::{AREA_ENTRY, AREA_VALUE};
use muen_num::AccessSize;
use muen_num::limits::PAGE;
use state_page::SubjectState;
use std::marker::Model;

/// Physical memory, and what translates guest addresses: it is told of each change of memory.
#[derive(Drop)]
pub(crate) struct Bus<M: PhysMem, T: Translate> {
    pub(crate) memory: M,
    pub(crate) walker: T,
}

impl<M: PhysMem, T: Translate> Model for Bus<M, T> {
    ghost use Rattle.std.specs.Prelude.{List};
    ghost use Rattle.machine_layout.specs.Memory.{Page};

    ghost Value = { List Page };

    ghost view = { λ b. M.pages b.memory };

    ghost invariant = { λ b. T.fits b.walker (M.pages b.memory) };
}

// Writes a state into a page of memory, where there is one.
fn write_state<M: PhysMem>(memory: &mut M, page: u64, state: &SubjectState)
    ensures { M.pages memory.new ≡ change (M.pages memory.old) page (λ _. page_bytes state.now) }
{
    match memory.page_mut(page) {
        Some(bytes) => state_page::write(state, bytes),
        None => {}
    }
}

impl<M: PhysMem, T: Translate> Bus<M, T> {
    /// The memory.
    pub(crate) fn memory(&self) -> &M
        ensures { M.pages result.now ≡ self.now }
    {
        &self.memory
    }

    /// What translates guest addresses, of the memory as it is.
    pub(crate) fn walker(&self) -> &T
        ensures { T.fits result.now self.now }
    {
        &self.walker
    }

    /// The bytes of a page. None where it isn't there.
    pub(crate) fn page(&self, number: u64) -> &[u8]
        ensures { result.now ≡ page_bytes_at self.now number }
    {
        match self.memory.page(number) {
            None => &[],
            Some(bytes) => bytes,
        }
    }

    /// The number at an offset in a page. It is 0 where the page isn't there.
    #[tactic(auto, unfolding(machine_layout::specs::PageFields::number_at))]
    pub(crate) fn load(&self, page: u64, offset: u64, size: AccessSize) -> u64
        requires { IsWithinPage page offset (bytes_of size) }
        ensures number { result ≡ number_at (page_bytes_at self.now page) offset (bytes_of size) }
        ensures word { result ≡ word_at (bytes_of size) (page_bytes_at self.now page) offset }
    {
        self.memory.load(PAGE * page + offset, size).unwrap_or(0)
    }

    // Stores a number at a physical address.
    fn store(&mut self, at: u64, size: AccessSize, value: u64)
        requires { at % bytes_of size ≡ 0 }
        ensures { self.new ≡ store_of self.old at (bytes_of size) value }
    {
        self.memory.store(at, size, value);
        self.walker.stored(at, u64::from(size.bytes()));
    }

    /// Stores a number at an offset in a page.
    #[tactic(auto, using(crate::proofs::StoreWithin::stored_within))]
    pub(crate) fn store_in(&mut self, page: u64, offset: u64, size: AccessSize, value: u64)
        requires { IsWithinPage page offset (bytes_of size) }
        ensures { self.new ≡ change self.old page (λ old. over old offset (le_bytes (bytes_of size) value)) }
    {
        self.store(PAGE * page + offset, size, value);
    }

    /// The state that is kept in a page. All is 0 where the page isn't there.
    pub(crate) fn state_in(&self, page: u32) -> SubjectState
        ensures { result ≡ state_in (page_bytes_at self.now page) }
    {
        match self.memory.page(u64::from(page)) {
            None => SubjectState::zero(),
            Some(bytes) => state_page::read(bytes),
        }
    }

    // Puts a state into its page, where there is one.
    fn put_state(&mut self, page: u32, state: &SubjectState)
        ensures { self.new ≡ change self.old page (λ _. page_bytes state.now) }
    {
        let page = u64::from(page);
        write_state(&mut self.memory, page, state);
        self.walker.stored(PAGE * page, PAGE);
    }

    // The value of an entry of an area, by the index that it has now, from the MSR file.
    fn save_entry(&mut self, file: &MsrFile, area: u64, entry: u64)
        requires area { area < 2 ^ 32 }
        requires entry { entry < 256 }
        ensures { self.new ≡ entry_saved file.now area entry self.old }
    {
        let at = AREA_ENTRY * entry;
        let index = self.load(area, at, AccessSize::Four);
        if let Some(value) = file.get(index) {
            self.store(PAGE * area + (at + AREA_VALUE), AccessSize::Eight, value);
        }
    }

    // The values of an area's first entries, in order.
    fn save_area(&mut self, file: &MsrFile, area: u32, count: u8)
        ensures { self.new ≡ saved file.now area (numbers_below count) self.old }
    {
        let page = u64::from(area);
        for entry in 0..count {
            self.save_entry(file, page, u64::from(entry));
        }
    }

    /// Loads an area's first entries, in order, into the MSR file.
    pub(crate) fn fill(&self, area: u32, count: u8, file: &mut MsrFile)
        ensures { file.new ≡ msrs_loaded (entries_in count (page_bytes_at self.now area)) file.old }
    {
        let page = u64::from(area);
        for entry in 0..count {
            let at = AREA_ENTRY * u64::from(entry);
            let index = self.load(page, at, AccessSize::Four);
            let value = self.load(page, at + AREA_VALUE, AccessSize::Eight);
            file.put(index, value);
        }
    }

    /// The state and the MSRs of who leaves, into its pages.
    pub(crate) fn put_off(&mut self, entered: &Entered, file: &MsrFile)
        ensures { self.new ≡ put_off entered.now file.now self.old }
    {
        let control = &entered.control;
        self.put_state(control.state, &entered.state);
        self.save_area(file, control.msr_area, control.msrs);
    }

    /// Bytes from a physical address on, one by one.
    pub(crate) fn write_bytes(&mut self, at: u64, bytes: &[u8])
        requires { at + length bytes.now < 2 ^ 64 }
        ensures { self.new ≡ written self.old at bytes.now }
    {
        for (i, byte) in bytes.iter().enumerate() {
            self.store(at + i as u64, AccessSize::One, u64::from(*byte));
        }
    }
}
