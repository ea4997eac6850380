//! The machine.
ghost use Rattle.std.specs.Prelude.{◌≡◌, ◌+◌, ◌^◌, ◌<◌, length, replicate, option_map, IfOk};
ghost use Rattle.state_page.specs.StatePage.{state_in};
ghost use Rattle.vmx_machine.specs.Machine.{page_bytes_at, fresh, started, entered, left, state_on, vector_injected, exit_finished, machine_step, device_wrote};

use crate::bus::Bus;
use crate::control::Control;
use crate::cpu::Cpu;
use device_bench::Bench;
use ept_walk::{PhysMem, Translate};
use guest_isa::{Finish, StepEnd};
use muen_num::NoMemory;
use state_page::SubjectState;
use std::alloc::Global;
use std::marker::Model;

// So many CPUs on which nobody is.
fn fresh_cpus(alloc: Global, count: u8) -> Result<Vec<Cpu>, NoMemory>
    ensures { IfOk result (λ cpus. cpus.items ≡ replicate count fresh) }
{
    let mut cpus = Vec::new(alloc);
    for _ in 0..count {
        cpus.push(Cpu::start(alloc)?)?;
    }
    Ok(cpus)
}

/// Physical memory, and logical CPUs by number, from 0 on. Each step goes by the bytes of tables,
/// bitmaps and areas as they are in memory then.
#[derive(Drop)]
pub struct Machine<M: PhysMem, T: Translate> {
    bus: Bus<M, T>,
    cpus: Vec<Cpu>,
}

impl<M: PhysMem, T: Translate> Model for Machine<M, T> {
    ghost use Rattle.vmx_machine.specs.Machine.{MachineState};

    ghost Value = { MachineState };

    ghost view = { λ m. record { pages = m.bus; cpus = m.cpus.items } };
}

impl<M: PhysMem, T: Translate> Machine<M, T> {
    /// A machine with this memory and so many CPUs. Nobody is on any of them, and each MSR is 0.
    ///
    /// # Errors
    /// Memory is refused.
    pub fn start(alloc: Global, mem: M, walk: T, cpus: u8) -> Result<Machine<M, T>, NoMemory>
        requires { T.fits walk (M.pages mem) }
        ensures { IfOk result (λ m. m ≡ started (M.pages mem) cpus) }
    {
        Ok(Machine {
            bus: Bus {
                memory: mem,
                walker: walk,
            },
            cpus: fresh_cpus(alloc, cpus)?,
        })
    }

    /// The memory.
    pub fn mem(&self) -> &M
        ensures { M.pages result.now ≡ self.now.pages }
    {
        self.bus.memory()
    }

    /// What translates guest addresses, of the memory as it is.
    pub fn walker(&self) -> &T
        ensures { T.fits result.now self.now.pages }
    {
        self.bus.walker()
    }

    /// The state of who is on a CPU. None where nobody is.
    pub fn state(&self, cpu: usize) -> Option<&SubjectState>
        requires { cpu < length self.now.cpus }
        ensures { option_map (λ s. s.now) result ≡ state_on self.now cpu }
    {
        self.cpus[cpu].state()
    }

    /// The state that a state page has, by the page's number.
    pub fn state_in(&self, page: u32) -> SubjectState
        ensures { result ≡ state_in (page_bytes_at self.now.pages page) }
    {
        self.bus.state_in(page)
    }

    /// A subject goes onto a CPU: its state is read from its state page, and the entries of its area
    /// are loaded, in order, into the CPU's MSRs. An entry of an MSR that the CPU hasn't is passed
    /// over. Whoever was there is forgotten.
    #[tactic(auto, using(muen_num::proofs::ChangeLaws::change_is, muen_num::proofs::ChangeLaws::length_stays))]
    pub fn enter(&mut self, cpu: usize, control: Control)
        requires { cpu < length self.old.cpus }
        ensures machine { self.new ≡ entered cpu control self.old }
        ensures cpus { length self.new.cpus ≡ length self.old.cpus }
    {
        self.cpus[cpu].enter(&self.bus, control);
    }

    /// Who is on a CPU leaves it: the state page is written, with zeros where no state is, and then
    /// the values of the area's entries, in order, each by the index that it has then.
    #[tactic(auto, using(muen_num::proofs::ChangeLaws::change_is, muen_num::proofs::ChangeLaws::item_is, crate::proofs::MachineLaws::left_length))]
    pub fn leave(&mut self, cpu: usize)
        requires { cpu < length self.old.cpus }
        ensures machine { self.new ≡ left cpu self.old }
        ensures cpus { length self.new.cpus ≡ length self.old.cpus }
    {
        self.cpus[cpu].leave(&mut self.bus);
    }

    /// An event of this vector is delivered to who is on a CPU.
    #[tactic(auto, using(muen_num::proofs::ChangeLaws::change_is, muen_num::proofs::ChangeLaws::length_stays))]
    pub fn inject(&mut self, cpu: usize, vector: u8)
        requires { cpu < length self.old.cpus }
        ensures machine { self.new ≡ vector_injected cpu vector self.old }
        ensures cpus { length self.new.cpus ≡ length self.old.cpus }
    {
        self.cpus[cpu].inject(vector);
    }

    /// Who is on a CPU goes on after an exit.
    #[tactic(auto, using(muen_num::proofs::ChangeLaws::change_is, muen_num::proofs::ChangeLaws::length_stays))]
    pub fn finish(&mut self, cpu: usize, how: Finish)
        requires { cpu < length self.old.cpus }
        ensures machine { self.new ≡ exit_finished cpu how self.old }
        ensures cpus { length self.new.cpus ≡ length self.old.cpus }
    {
        self.cpus[cpu].finish(how);
    }

    /// One step of who is on a CPU, and how it ended. Where nobody is, nothing happens.
    #[tactic(auto, using(muen_num::proofs::ChangeLaws::change_is, muen_num::proofs::ChangeLaws::item_is, crate::proofs::MachineLaws::step_length))]
    pub fn step(&mut self, cpu: usize, tick: u32, bench: &Bench) -> StepEnd
        requires { cpu < length self.old.cpus }
        ensures machine { self.new ≡ (machine_step cpu bench.now.ports tick self.old).machine }
        ensures end { result ≡ (machine_step cpu bench.now.ports tick self.old).end }
        ensures cpus { length self.new.cpus ≡ length self.old.cpus }
    {
        self.cpus[cpu].step(&mut self.bus, bench, tick)
    }

    /// A device writes bytes from a physical address on. What isn't there isn't written.
    pub fn device_write(&mut self, at: u64, bytes: &[u8])
        requires { at + length bytes.now < 2 ^ 64 }
        ensures machine { self.new ≡ device_wrote at bytes.now self.old }
        ensures cpus { length self.new.cpus ≡ length self.old.cpus }
    {
        self.bus.write_bytes(at, bytes);
    }
}
