//! The kernel and its turns.
ghost use Rattle.std.specs.Prelude.{◌≡◌, ◌<◌, length, replicate, slice_get, option_map, None, Some, IfOk};
ghost use Rattle.guest_isa.specs.state.SubjectState.{SubjectState};
ghost use Rattle.image_pack.specs.declared.parts.SubjectPart.{SubjectPart};
ghost use Rattle.event_router.specs.Router.{started, taken};
ghost use Rattle.frame_clock.specs.declared.plan.Plan.{Plan};
ghost use Rattle.kernel_core.specs.Kernel.{event_of, exit_handled, raised_by, turn_standing_of, switched, turn_of, vector_for};
ghost use Rattle.device_bench.specs.Devices.{CanRun};
ghost use Rattle.kernel_core.specs.Slots.{AreSlotsKept};
ghost use Rattle.kernel_core.specs.Ticks.{IsOfSubject, acted, acted_line, kernel_started, with_live};

use crate::exit::{event_of, exit_end_of};
use crate::on_cpus::{on_cpu, put_on};
use crate::setup::Setup;
use crate::slots::{KeptSlot, no_slots, slot_at};
use crate::turn::{Standing, Turn};
use device_bench::{Bench, Effect, Record};
use event_router::Router;
use frame_clock::FrameAt;
use guest_isa::{Finish, StepEnd};
use image_pack::{EventPart, SubjectPart};
use muen_num::NoMemory;
use std::alloc::Global;
use std::marker::Model;
use view_text::{TurnAction, TurnLine};
use vmx_machine::{Control, Machine, PhysMem, Translate};

/// The kernel of a system that runs on a record.
#[derive(Drop)]
pub struct Kernel<M: PhysMem, T: Translate> {
    pub(crate) setup: Setup,
    pub(crate) cpus: u8,
    pub(crate) machine: Machine<M, T>,
    pub(crate) router: Router,
    pub(crate) on: Vec<Option<u8>>,
    pub(crate) bench: Bench,
    pub(crate) frame: FrameAt,
    pub(crate) tick: u32,
    pub(crate) slots: Vec<Option<KeptSlot>>,
}

impl<M: PhysMem, T: Translate> Model for Kernel<M, T> {
    ghost use Rattle.std.specs.Prelude.{◌≡◌, length};
    ghost use Rattle.device_bench.specs.Devices.{CanRun};
    ghost use Rattle.kernel_core.specs.Slots.{AreSlotsKept};
    ghost use Rattle.kernel_core.specs.Ticks.{KernelState};

    ghost Value = { KernelState };

    ghost view = { λ k. record {
      setup = k.setup;
      cpus = k.cpus;
      run = k.bench.run;
      live = record { machine = k.machine; router = k.router; on = k.on.items; ports = k.bench.ports; frame = k.frame };
      tick = k.tick;
    } };

    ghost invariant = { λ k. (length k.on.items ≡ k.cpus) × (length k.machine.cpus ≡ k.cpus) × CanRun k.bench.run × AreSlotsKept k.setup.plan k.slots.items };
}

// What the kernel keeps of events and CPUs.
#[derive(Drop)]
struct AtStart {
    router: Router,
    on: Vec<Option<u8>>,
    slots: Vec<Option<KeptSlot>>,
}

// .. at the start.
fn at_start(alloc: Global, setup: &Setup, cpus: u8) -> Result<AtStart, NoMemory>
    ensures router { IfOk result (λ x. x.router ≡ started setup.now.subjects setup.now.plan.groups) }
    ensures on { IfOk result (λ x. x.on.items ≡ replicate cpus None) }
    ensures slots { IfOk result (λ x. x.slots.items ≡ replicate cpus None) }
    ensures kept { IfOk result (λ x. (plan : Plan) → AreSlotsKept plan x.slots.items) }
{
    Ok(AtStart {
        router: Router::start(alloc, setup.subjects.items(), setup.plan.groups.items())?,
        on: vec![in alloc; None; cpus as usize]?,
        slots: no_slots(alloc, cpus)?,
    })
}

impl<M: PhysMem, T: Translate> Kernel<M, T> {
    /// The kernel at the start: nobody is on a CPU, nothing is pending, the first member of each
    /// group is active, no port has had an input, and the first major frame begins.
    ///
    /// # Errors
    /// Memory is refused.
    pub fn start(
        alloc: Global,
        setup: Setup,
        cpus: u8,
        input: Record<Effect>,
        mem: M,
        walk: T,
    ) -> Result<Kernel<M, T>, NoMemory>
        requires fits { T.fits walk (M.pages mem) }
        requires run { CanRun input }
        ensures { IfOk result (λ k. k ≡ kernel_started setup input cpus (M.pages mem)) }
    {
        let AtStart { router, on, slots } = at_start(alloc, &setup, cpus)?;
        let bench = Bench::start(alloc, input)?;
        let machine = Machine::start(alloc, mem, walk, cpus)?;
        Ok(Kernel {
            setup,
            cpus,
            machine,
            router,
            on,
            bench,
            frame: FrameAt::first(),
            tick: 0,
            slots,
        })
    }

    /// What the kernel knows of its system.
    pub fn setup(&self) -> &Setup
        ensures { result.now ≡ self.now.setup }
    {
        &self.setup
    }

    /// The memory.
    pub fn mem(&self) -> &M
        ensures { M.pages result.now ≡ self.now.live.machine.pages }
    {
        self.machine.mem()
    }

    /// What translates guest addresses, of the memory as it is.
    pub fn walker(&self) -> &T
        ensures { T.fits result.now self.now.live.machine.pages }
    {
        self.machine.walker()
    }

    /// The turn of a CPU in the tick, and its line, if it has one: that of the active member of the
    /// group that has the CPU. A CPU that isn't there takes no turn.
    pub fn turn(&mut self, cpu: u8) -> Option<TurnLine>
        ensures state { self.new ≡ record self.old { live = (turn_of self.old.setup cpu self.old.tick self.old.live).state } }
        ensures line { result ≡ (turn_of self.old.setup cpu self.old.tick self.old.live).line }
    {
        let on = on_cpu(&self.on, cpu as usize)?;
        let slot = slot_at(
            &mut self.slots,
            &self.setup.plan,
            self.frame,
            cpu,
            self.tick,
        )?;
        let subject = self.router.active(slot.group)?;
        let name = part_at(self.setup.subjects.items(), subject as usize)?.name;
        let control = control_at(self.setup.controls.items(), subject as usize)?;
        self.switch_to(cpu, subject, control, on);
        let standing = Standing::of(self.machine.state(cpu as usize)?);
        let turn = Turn {
            tick: self.tick,
            cpu,
            subject: name,
            pc: standing.pc,
        };
        self.deliver_or_step(&turn, subject, slot.first, standing)
    }

    // A subject goes onto a CPU where it isn't there already, and who was there leaves it before.
    fn switch_to(&mut self, cpu: u8, subject: u8, control: Control, on: Option<u8>)
        requires { cpu < length self.old.live.machine.cpus }
        ensures state { self.new ≡ with_live self.old (switched cpu subject control on self.old.live) }
        ensures cpus { length self.new.live.machine.cpus ≡ length self.old.live.machine.cpus }
    {
        if on != Some(subject) {
            self.machine.leave(cpu as usize);
            self.machine.enter(cpu as usize, control);
            put_on(&mut self.on, cpu as usize, subject);
        }
    }

    // The turn of the subject that is on the CPU: the first that applies of these: it is stopped; an
    // event is delivered; it is halted; it takes a step.
    fn deliver_or_step(
        &mut self,
        turn: &Turn,
        subject: u8,
        first: bool,
        standing: Standing,
    ) -> Option<TurnLine>
        requires { turn.now.cpu < length self.old.live.machine.cpus }
        ensures state { IsOfSubject self.old subject standing (λ part st. self.new ≡ acted self.old turn.now subject part first st) }
        ensures line { IsOfSubject self.old subject standing (λ part st. result ≡ acted_line self.old turn.now subject part first st) }
    {
        if standing.stopped {
            return None;
        }
        if let Some(vector) = self.take_vector(subject, first, standing) {
            self.machine.inject(turn.cpu as usize, vector);
            return Some(turn.line(TurnAction::Inject { vector }));
        }
        if standing.halted {
            return None;
        }
        match self.machine.step(turn.cpu as usize, turn.tick, &self.bench) {
            StepEnd::Ran(change) => Some(turn.line(TurnAction::Ran(change))),
            StepEnd::Exit {
                reason,
                qualification,
                addr,
                call,
            } => {
                let event = self.event_of(subject, reason, call);
                Some(self.finish_exit(turn, reason, qualification, addr, event))
            }
        }
    }

    // The vector that is delivered, if one is. It isn't pending any more.
    fn take_vector(&mut self, subject: u8, first: bool, standing: Standing) -> Option<u8>
        ensures vector { (st : SubjectState) → standing ≡ turn_standing_of st → result ≡ vector_for subject first st self.old.live.router }
        ensures state { self.new ≡ with_live self.old (record self.old.live { router = taken subject result self.old.live.router }) }
        ensures none { result ≡ None → self.new ≡ self.old }
    {
        if standing.interrupts {
            self.router.deliver(subject, first || standing.exited)
        } else {
            None
        }
    }

    // The event that an exit of a subject raises, if it raises one.
    fn event_of(&self, subject: u8, reason: u8, call: u64) -> Option<EventPart>
        ensures { (part : SubjectPart) → slice_get self.now.setup.subjects subject ≡ Some part → result ≡ event_of part reason call }
    {
        let part = part_at(self.setup.subjects.items(), subject as usize)?;
        event_of(part, reason, call)
    }

    // The kernel acts on an exit, which raises this event, if one.
    fn finish_exit(
        &mut self,
        turn: &Turn,
        reason: u8,
        qualification: u64,
        addr: u64,
        event: Option<EventPart>,
    ) -> TurnLine
        requires { turn.now.cpu < length self.old.live.machine.cpus }
        ensures state { self.new ≡ with_live self.old (exit_handled turn.now reason qualification addr event self.old.live).state }
        ensures line { Some result ≡ (exit_handled turn.now reason qualification addr event self.old.live).line }
    {
        let raises = event.is_some();
        self.machine
            .finish(turn.cpu as usize, Finish::after(reason, raises));
        raise(&mut self.router, &event);
        turn.line(TurnAction::Exit {
            reason,
            qualification,
            addr,
            end: exit_end_of(reason, raises),
        })
    }
}

// The parts of a subject.
fn part_at(subjects: &[SubjectPart], subject: usize) -> Option<&SubjectPart>
    ensures { option_map (λ s. s.now) result ≡ slice_get subjects.now subject }
{
    subjects.get(subject)
}

// What a CPU is told of a subject.
pub(crate) fn control_at(controls: &[Control], subject: usize) -> Option<Control>
    ensures { result ≡ slice_get controls.now subject }
{
    controls.get(subject).copied()
}

// An event is raised, if there is one.
fn raise(router: &mut Router, event: &Option<EventPart>)
    ensures { router.new ≡ raised_by event.now router.old }
{
    if let Some(event) = event {
        router.raise(event);
    }
}
