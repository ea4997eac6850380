//! One step of the subject that is on a CPU.
ghost use Rattle.std.specs.Prelude.{◌≡◌, ◌<◌};
ghost use Rattle.guest_isa.specs.GuestIsa.{IsValid, IsValidWish};
ghost use Rattle.vmx_machine.specs.Machine.{executed_on, performed_at, step_answer, with_store, msr_file_with_write, cpu_step};

use crate::bus::Bus;
use crate::cpu::{Cpu, Entered};
use crate::effect::{
    exits, faulted, load, msr_read, msr_write, port_read, port_write, sets, store, went_on,
};
use crate::msr_file::MsrFile;
use device_bench::Bench;
use ept_walk::{PhysMem, Translate};
use guest_isa::{Change, Instr, Reach, StepEnd, Wish, carry_out, decode};
use muen_num::limits::{EXIT_EXCEPTION, EXIT_HLT, EXIT_VMCALL};
use muen_num::{AccessKind, AccessSize};

impl Entered {
    // The wish of the instruction at `pc`, which is done, is met, or it exits.
    fn perform<M: PhysMem, T: Translate>(
        &mut self,
        pc: u64,
        wish: Wish,
        file: &mut MsrFile,
        bus: &mut Bus<M, T>,
        bench: &Bench,
        tick: u32,
    ) -> StepEnd
        requires { IsValidWish wish }
        ensures pages { bus.new ≡ with_store (performed_at bus.old file.old bench.now.ports tick pc self.old wish).stored bus.old }
        ensures file { file.new ≡ msr_file_with_write (performed_at bus.old file.old bench.now.ports tick pc self.old wish).msr file.old }
        ensures entered { self.new ≡ record self.old { state = (performed_at bus.old file.old bench.now.ports tick pc self.old wish).state } }
        ensures end { result ≡ (performed_at bus.old file.old bench.now.ports tick pc self.old wish).end }
    {
        match wish {
            Wish::Nothing => went_on(&mut self.state, Change::Plain),
            Wish::Set { reg, value } => went_on(&mut self.state, Change::Set { reg, value }),
            Wish::Load { reg, addr, size } => load(bus, self, pc, reg, addr, size),
            Wish::Store { addr, size, value } => store(bus, self, pc, addr, size, value),
            Wish::PortIn { reg, port, size } => {
                let input = bus.ports_input(&self.control, bench, port, size);
                port_read(&mut self.state, pc, reg, port, size, input)
            }
            Wish::PortOut { port, size, value } => {
                let exits = bus.ports_exit(&self.control, port, size);
                port_write(&mut self.state, pc, port, size, value, exits)
            }
            Wish::ReadMsr { reg, index } => {
                let value = bus.msr_input(&self.control, file, index);
                msr_read(&mut self.state, pc, reg, value)
            }
            Wish::WriteMsr { index, value } => {
                let exits = bus.msr_exits(&self.control, index, true);
                msr_write(&mut self.state, pc, file, index, value, exits)
            }
            Wish::Tick { reg } => sets(&mut self.state, reg, u64::from(tick)),
            Wish::Call { number } => exits(&mut self.state, pc, EXIT_VMCALL, 0, 0, number),
            Wish::Halt => faulted(&mut self.state, pc, EXIT_HLT, 0, 0),
        }
    }

    // An instruction is done.
    fn execute<M: PhysMem, T: Translate>(
        &mut self,
        instruction: Instr,
        file: &mut MsrFile,
        bus: &mut Bus<M, T>,
        bench: &Bench,
        tick: u32,
    ) -> StepEnd
        requires { IsValid instruction }
        ensures pages { bus.new ≡ with_store (executed_on bus.old file.old bench.now.ports tick self.old instruction).stored bus.old }
        ensures file { file.new ≡ msr_file_with_write (executed_on bus.old file.old bench.now.ports tick self.old instruction).msr file.old }
        ensures entered { self.new ≡ record self.old { state = (executed_on bus.old file.old bench.now.ports tick self.old instruction).state } }
        ensures end { result ≡ (executed_on bus.old file.old bench.now.ports tick self.old instruction).end }
    {
        let pc = self.state.pc;
        let wish = carry_out(&mut self.state, instruction);
        self.perform(pc, wish, file, bus, bench, tick)
    }

    // The eight bytes at `pc` are fetched and done.
    fn step<M: PhysMem, T: Translate>(
        &mut self,
        file: &mut MsrFile,
        bus: &mut Bus<M, T>,
        bench: &Bench,
        tick: u32,
    ) -> StepEnd
        ensures pages { bus.new ≡ with_store (step_answer bus.old file.old bench.now.ports tick self.old).stored bus.old }
        ensures file { file.new ≡ msr_file_with_write (step_answer bus.old file.old bench.now.ports tick self.old).msr file.old }
        ensures entered { self.new ≡ record self.old { state = (step_answer bus.old file.old bench.now.ports tick self.old).state } }
        ensures end { result ≡ (step_answer bus.old file.old bench.now.ports tick self.old).end }
    {
        let pc = self.state.pc;
        match bus.reach(self.control.eptp, AccessKind::Fetch, pc, AccessSize::Eight) {
            Reach::Reached { target, offset } => {
                let word = bus.load(target, offset, AccessSize::Eight);
                match decode(word.to_le_bytes()) {
                    None => faulted(&mut self.state, pc, EXIT_EXCEPTION, 0, 0),
                    Some(instruction) => self.execute(instruction, file, bus, bench, tick),
                }
            }
            Reach::Refused {
                reason,
                qualification,
                addr,
            } => faulted(&mut self.state, pc, reason, qualification, addr),
        }
    }
}

impl Cpu {
    /// One step of who is on the CPU. Where nobody is, nothing happens.
    pub(crate) fn step<M: PhysMem, T: Translate>(
        &mut self,
        bus: &mut Bus<M, T>,
        bench: &Bench,
        tick: u32,
    ) -> StepEnd
        ensures pages { bus.new ≡ (cpu_step bench.now.ports tick bus.old self.old).pages }
        ensures cpu { self.new ≡ (cpu_step bench.now.ports tick bus.old self.old).cpu }
        ensures end { result ≡ (cpu_step bench.now.ports tick bus.old self.old).end }
    {
        match &mut self.entered {
            None => StepEnd::Ran(Change::Plain),
            Some(on) => on.step(&mut self.file, bus, bench, tick),
        }
    }
}
