//! Where accesses of memory, of ports and of MSRs lead.
ghost use Rattle.std.specs.Prelude.{◌≡◌, ◌/◌, ◌%◌, ◌^◌, ◌<◌, ◌≤◌};
ghost use Rattle.muen_num.specs.AccessSize.{bytes_of};
ghost use Rattle.guest_isa.specs.Step.{reach_of};
ghost use Rattle.vmx_machine.specs.Machine.{look_in, ports_exit, ports_input, msr_exits_in, machine_msr_input};
ghost use Rattle.vmx_machine.specs.Within.{LeadsWithin};

use crate::bus::Bus;
use crate::control::Control;
use crate::msr_file::MsrFile;
use device_bench::Bench;
use ept_walk::{PhysMem, Translate};
use guest_isa::Reach;
use machine_layout::{Walk, msr_exits, port_exits};
use muen_num::limits::{
    EXIT_EPT_MISCONFIGURATION, EXIT_EPT_VIOLATION, EXIT_EXCEPTION, GUEST_END, PAGE,
};
use muen_num::{AccessKind, AccessSize};

/// The bit of an EPT violation's qualification at which the rights found begin.
const FOUND: u64 = 1 << 3;

// A physical address, by its page.
fn in_page(address: u64, size: AccessSize) -> Reach<u64>
    requires { address % bytes_of size ≡ 0 }
    ensures reached { result ≡ Reach.Reached (address / 4096) (address % 4096) }
    ensures within { LeadsWithin (bytes_of size) result }
{
    Reach::Reached {
        target: address / PAGE,
        offset: address % PAGE,
    }
}

impl<M: PhysMem, T: Translate> Bus<M, T> {
    // Where the walk leads for a guest address.
    fn translate(&mut self, eptp: u64, kind: AccessKind, addr: u64, size: AccessSize) -> Reach<u64>
        requires addr { addr < GUEST_END }
        requires aligned { addr % bytes_of size ≡ 0 }
        ensures reached { result ≡ look_in self.old eptp kind addr }
        ensures within { LeadsWithin (bytes_of size) result }
        ensures same { self.new ≡ self.old }
    {
        match self.walker.walk(&self.memory, eptp, addr, kind) {
            Walk::At(address) => in_page(address, size),
            Walk::Violation(rights) => Reach::Refused {
                reason: EXIT_EPT_VIOLATION,
                qualification: u64::from(kind.bit()) + FOUND * rights,
                addr,
            },
            Walk::Misconfigured => Reach::Refused {
                reason: EXIT_EPT_MISCONFIGURATION,
                qualification: 0,
                addr,
            },
        }
    }

    /// Where an access of memory leads, by its faults in their order.
    pub(crate) fn reach(
        &mut self,
        eptp: u64,
        kind: AccessKind,
        addr: u64,
        size: AccessSize,
    ) -> Reach<u64>
        ensures reached { result ≡ reach_of (look_in self.old eptp) kind (bytes_of size) addr }
        ensures within { LeadsWithin (bytes_of size) result }
        ensures same { self.new ≡ self.old }
    {
        if addr % u64::from(size.bytes()) != 0 {
            return Reach::Refused {
                reason: EXIT_EXCEPTION,
                qualification: 0,
                addr: 0,
            };
        }
        if addr >= GUEST_END {
            return Reach::Refused {
                reason: EXIT_EPT_VIOLATION,
                qualification: u64::from(kind.bit()),
                addr,
            };
        }
        self.translate(eptp, kind, addr, size)
    }

    /// Whether an access of ports exits, by the I/O bitmaps as they are in memory now.
    pub(crate) fn ports_exit(&self, control: &Control, port: u16, size: AccessSize) -> bool
        ensures { result ≡ ports_exit self.now control.now port (bytes_of size) }
    {
        let first = u64::from(control.io_bitmaps);
        port_exits(self.page(first), self.page(first + 1), port, size)
    }

    /// What is read of ports, unless that exits.
    pub(crate) fn ports_input(
        &self,
        control: &Control,
        bench: &Bench,
        port: u16,
        size: AccessSize,
    ) -> Option<u64>
        requires { bytes_of size ≤ 4 }
        ensures { result ≡ ports_input self.now control.now bench.now.ports port (bytes_of size) }
    {
        if self.ports_exit(control, port, size) {
            None
        } else {
            Some(u64::from(bench.port_in(port, size)))
        }
    }

    /// Whether an access of an MSR exits, by the MSR bitmap as it is in memory now.
    pub(crate) fn msr_exits(&self, control: &Control, index: u32, write: bool) -> bool
        ensures { result ≡ msr_exits_in self.now control.now index write }
    {
        msr_exits(self.page(u64::from(control.msr_bitmap)), index, write)
    }

    /// The value of an MSR, unless reading it exits.
    pub(crate) fn msr_input(&self, control: &Control, file: &MsrFile, index: u32) -> Option<u64>
        ensures { result ≡ machine_msr_input self.now control.now file.now index }
    {
        if self.msr_exits(control, index, false) {
            None
        } else {
            file.get(u64::from(index))
        }
    }
}
