//! Ticks: how one begins, in which order the CPUs take their turns, and how a run ends.
ghost use Rattle.std.specs.Prelude.{◌≡◌, ◌+◌, ◌*◌, ◌<◌, ◌≤◌, ◌^◌, None, length, map, slice_get, option_map};
ghost use Rattle.muen_num.specs.Range.{numbers_below};
ghost use Rattle.frame_clock.specs.Run.{all_taken, begun};
ghost use Rattle.guest_isa.specs.StatePage.{state_in};
ghost use Rattle.vmx_machine.specs.Machine.{page_bytes_at};
ghost use Rattle.kernel_core.specs.Ticks.{all_left, begins, ended, kernel, pick_of, takes_any, tick_inputs, tick_order};

use crate::kernel::{Kernel, control_at};
use device_bench::{Effect, TickInput};
use frame_clock::advance;
use guest_isa::SubjectState;
use vmx_machine::{Machine, PhysMem, Translate};

// The first byte of a page, by its number.
fn first_byte<M: PhysMem>(mem: &M, page: u32) -> Option<u8>
    ensures { result ≡ slice_get (page_bytes_at (M.pages mem.now) page) 0 }
{
    mem.page(u64::from(page))?.first().copied()
}

// The byte that chooses the next major frame, if one does.
fn pick<M: PhysMem>(mem: &M, tau0: Option<u32>) -> Option<u8>
    ensures { result ≡ pick_of tau0 (M.pages mem.now) }
{
    first_byte(mem, tau0?)
}

// The CPU of this index in the order by number.
#[tactic(auto, using(muen_num::proofs::NumbersBelow::number_at, crate::proofs::Orders::past_numbers))]
fn by_number(cpus: u8, index: usize) -> Option<u8>
    ensures { result ≡ slice_get (numbers_below cpus) index }
{
    if index < cpus as usize {
        Some(index as u8)
    } else {
        None
    }
}

impl<M: PhysMem, T: Translate> Kernel<M, T> {
    // The next major frame begins, where the one that runs is over.
    fn begin_frame(&mut self)
        ensures { self.new ≡ record self.old { live = begins self.old.setup self.old.tick self.old.live } }
    {
        let pick = pick(self.machine.mem(), self.setup.tau0);
        self.frame = advance(&self.setup.plan, self.frame, pick, self.tick);
    }

    // How many inputs the tick has.
    fn count(&self) -> usize
        ensures { result ≡ length (tick_inputs self.now.run self.now.tick) }
    {
        self.bench.inputs(self.tick).len()
    }

    // The input of the tick at this index comes.
    fn take_input(&mut self, index: usize)
        ensures { self.new ≡ record self.old { live = takes_any (slice_get (tick_inputs self.old.run self.old.tick) index) self.old.live } }
    {
        match input_at(self.bench.inputs(self.tick), index) {
            None => {}
            Some(Effect::Port { port, value }) => {
                let (port, value) = (*port, *value);
                self.bench.set_port(port, value);
            }
            Some(Effect::Mem { at, bytes }) => self.machine.device_write(*at, bytes.items()),
            Some(Effect::Irq { subject, vector }) => self.router.raise_irq(*subject, *vector),
        }
    }

    // The inputs of the tick come, in their order.
    fn take_inputs(&mut self)
        ensures { self.new ≡ record self.old { live = all_taken (kernel self.old.setup) (tick_inputs self.old.run self.old.tick) self.old.live } }
    {
        for index in 0..self.count() {
            self.take_input(index);
        }
    }

    /// A tick begins: the next major frame, where the one that runs is over, and then the record's
    /// inputs of the tick, in their order.
    pub fn begin_tick(&mut self)
        ensures { self.new ≡ record self.old { live = begun (kernel self.old.setup) self.old.tick (tick_inputs self.old.run self.old.tick) self.old.live } }
    {
        self.bench.begin(self.tick);
        self.begin_frame();
        self.take_inputs();
    }

    /// How many ticks the run has.
    pub fn end(&self) -> u32
        ensures { result ≡ self.now.run.end }
    {
        self.bench.end()
    }

    /// How many turns the tick has.
    #[tactic(auto, using(muen_num::proofs::NumbersBelow::length_numbers))]
    pub fn turns(&self) -> usize
        ensures { result ≡ length (tick_order self.now.run self.now.cpus self.now.tick) }
    {
        match self.bench.order(self.tick) {
            None => self.cpus as usize,
            Some(order) => order.len(),
        }
    }

    /// The CPU that takes the turn of this index in the tick: as the record orders them, and by number
    /// where it doesn't. None behind the last.
    pub fn cpu_at(&self, index: usize) -> Option<u8>
        ensures { result ≡ slice_get (tick_order self.now.run self.now.cpus self.now.tick) index }
    {
        match self.bench.order(self.tick) {
            None => by_number(self.cpus, index),
            Some(order) => order.get(index).copied(),
        }
    }

    /// The tick is over, and the next one comes.
    pub fn end_tick(&mut self)
        requires { self.old.tick + 1 < 2 ^ 32 }
        ensures { self.new ≡ record self.old { tick = self.old.tick + 1 } }
    {
        self.tick += 1;
    }

    /// The run is over: all CPUs are left, by number.
    pub fn finish(&mut self)
        ensures { self.new ≡ record self.old { live = ended self.old.cpus self.old.live } }
    {
        leave_all(&mut self.machine, self.cpus as usize);
        self.on.fill(None);
    }

    /// The state of a subject, as its state page has it. None where there is no such subject.
    pub fn state(&self, subject: usize) -> Option<SubjectState>
        ensures { result ≡ option_map (λ c. state_in (page_bytes_at self.now.live.machine.pages c.state)) (slice_get self.now.setup.controls subject) }
    {
        let control = control_at(self.setup.controls.items(), subject)?;
        Some(self.machine.state_in(control.state))
    }
}

// These many CPUs are left, by number.
fn leave_all<M: PhysMem, T: Translate>(machine: &mut Machine<M, T>, cpus: usize)
    requires { cpus ≤ length machine.old.cpus }
    ensures machine { machine.new ≡ all_left (numbers_below cpus) machine.old }
    ensures cpus { length machine.new.cpus ≡ length machine.old.cpus }
{
    for cpu in 0..cpus {
        machine.leave(cpu);
    }
}

// The input at an index.
fn input_at(inputs: &[TickInput<Effect>], index: usize) -> Option<&Effect>
    ensures { option_map (λ i. i.now) result ≡ slice_get (map (λ i. i.input) inputs.now) index }
{
    Some(&inputs.get(index)?.input)
}
