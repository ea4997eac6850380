//! Logical CPUs.
ghost use Rattle.std.specs.Prelude.{◌≡◌, option_map, IfOk};
ghost use Rattle.guest_isa.specs.Finish.{injected, finished};
ghost use Rattle.vmx_machine.specs.Machine.{fresh, put_on, put_off_by, with_state};

use crate::bus::Bus;
use crate::control::Control;
use crate::msr_file::MsrFile;
use ept_walk::{PhysMem, Translate};
use guest_isa::{Finish, inject};
use muen_num::NoMemory;
use state_page::SubjectState;
use std::alloc::Global;

/// The subject that is on a CPU.
#[derive(Clone, Copy, Debug)]
pub struct Entered {
    pub control: Control,
    pub state: SubjectState,
}

/// A logical CPU.
#[derive(Debug, Drop)]
pub struct Cpu {
    /// Who is on it, if anybody is.
    pub entered: Option<Entered>,
    /// The machine-specific registers that it has.
    pub file: MsrFile,
}

impl Cpu {
    /// A CPU on which nobody is, with all MSRs 0.
    ///
    /// # Errors
    /// Memory is refused.
    pub(crate) fn start(alloc: Global) -> Result<Cpu, NoMemory>
        ensures { IfOk result (λ cpu. cpu ≡ fresh) }
    {
        Ok(Cpu {
            entered: None,
            file: MsrFile::start(alloc)?,
        })
    }

    /// The state of who is on the CPU. None where nobody is.
    pub(crate) fn state(&self) -> Option<&SubjectState>
        ensures { option_map (λ s. s.now) result ≡ option_map (λ e. e.state) self.now.entered }
    {
        match &self.entered {
            None => None,
            Some(on) => Some(&on.state),
        }
    }

    /// A subject goes onto the CPU.
    pub(crate) fn enter<M: PhysMem, T: Translate>(&mut self, bus: &Bus<M, T>, control: Control)
        ensures { self.new ≡ put_on bus.now control self.old }
    {
        let state = bus.state_in(control.state);
        self.entered = Some(Entered { control, state });
        bus.fill(control.msr_area, control.msrs, &mut self.file);
    }

    /// Who is on the CPU leaves it.
    pub(crate) fn leave<M: PhysMem, T: Translate>(&mut self, bus: &mut Bus<M, T>)
        ensures pages { bus.new ≡ (put_off_by bus.old self.old self.old.entered).pages }
        ensures cpu { self.new ≡ (put_off_by bus.old self.old self.old.entered).cpu }
    {
        if let Some(on) = &self.entered {
            bus.put_off(on, &self.file);
            self.entered = None;
        }
    }

    /// A vector is delivered to who is on the CPU.
    pub(crate) fn inject(&mut self, vector: u8)
        ensures { self.new ≡ with_state (injected vector) self.old }
    {
        if let Some(on) = &mut self.entered {
            inject(&mut on.state, vector);
        }
    }

    /// Who is on the CPU goes on after an exit.
    pub(crate) fn finish(&mut self, how: Finish)
        ensures { self.new ≡ with_state (finished how) self.old }
    {
        if let Some(on) = &mut self.entered {
            how.apply(&mut on.state);
        }
    }
}
