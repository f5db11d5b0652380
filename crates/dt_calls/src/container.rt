// A container as a whole: its start, the launch of its program, and the turns of its processes.
ghost use Rattle.std.specs.Prelude.{◌≡◌, ℕ, [], None, Some, IsSome, IfOk, OnOk, IsErrOf};
ghost use Rattle.std.specs.FinMap.{get, insert, remove};
ghost use Rattle.dt_host.specs.Cause.{HasCause};
ghost use Rattle.dt_host.specs.World.{World, IsEmptyStart};
ghost use Rattle.dt_procs.specs.Table.{members_of};
ghost use Rattle.dt_procs.specs.Members.{end_of};
ghost use Rattle.dt_rv64.specs.declared.segments.Stop.TheVariants.{Call as a_call};
ghost use Rattle.dt_tree.specs.ImageTree.{image_tree};
ghost use Rattle.dt_calls.specs.AtHome.{RunsAt, KeepPlaces};
ghost use Rattle.dt_calls.specs.Container.{first_container};
ghost use Rattle.dt_calls.specs.Launch.{launch};
ghost use Rattle.dt_calls.specs.Settle.{turn_of_container, container_after_jump};
ghost use Rattle.dt_calls.specs.InCode.{Lives, machines_at_home, container_of, container_launch_as, container_turn_as};
ghost use Rattle.dt_calls.specs.Sound.{IsSoundContainer};
ghost use Rattle.dt_calls.specs.Timers.{earliest_in};

use crate::at_home::{run_at, serve_at};
use crate::shared::Shared;
use crate::task::start_task;
use dt_base::{Command, End, Errno, Event, FIRST_PID, Image, NoMemory, has_atomics};
use dt_exec::start_program;
use dt_host::{Host, HostErr};
use dt_rv64::{Hints, Machine, Seg, Stop};
use dt_tables::Numbered;
use dt_tree::Tree;
use std::alloc::Global;
use std::marker::Model;
use std::mem;

/// What launching a program comes to.
#[derive(Clone, Copy, Debug, PartialEq, Eq)]
pub enum Launch {
    /// Its machine is at home, and owes a segment.
    Started,
    /// It can't be started.
    NoStart(Errno),
}

/// What became of a process whose stop was served.
#[derive(Clone, Copy, Debug, PartialEq, Eq)]
pub enum Served {
    /// It goes on.
    Done,
    /// It goes on, and has made a child of this virtual pid.
    Child(u32),
    /// It has ended, and has made a child of this virtual pid before.
    LastChild(u32),
    /// Its call waits, and is tried again in its next turn.
    Blocked,
    /// Its call has moved some bytes, and goes on in its next turn.
    Progress,
    /// It has ended.
    Ended,
    /// It stays at its stop: its call, by its number, isn't supported.
    Unsupported(u64),
}

/// A container: what its processes share, the machines that are at home, and the events of the last turn.
///
/// A process that lives may have its machine away, to run a segment. After an error a container may only be dropped.
#[derive(Drop)]
pub struct Container {
    pub(crate) alloc: Global,
    pub(crate) shared: Shared,
    pub(crate) places: Numbered<Option<Machine>>,
    pub(crate) events: Vec<Event>,
}

impl Model for Container {
    ghost use Rattle.std.specs.Coded.{codes, coded_ℕ};
    ghost use Rattle.std.specs.FinMap.{code};
    ghost use Rattle.dt_fds.specs.inner.Codes.{descriptions_code, ends_code};
    ghost use Rattle.dt_pipes.specs.inner.Codes.{table_code as pipes_code};
    ghost use Rattle.dt_tree.specs.inner.Codes.{table_code};
    ghost use Rattle.dt_calls.specs.InCode.{ContainerView};

    ghost Value = { ContainerView };

    ghost coded = { Prim.hlevel (codes, table_code, descriptions_code, pipes_code, ends_code, code, coded_ℕ) };

    ghost view = { λ c. record { shared = c.shared; places = c.places; events = c.events.items } };
}

impl Container {
    /// A container with an image's tree, at a host that holds nothing. Its process has no machine yet.
    pub fn install<H: Host>(
        alloc: Global,
        host: &mut H,
        image: &Image,
        seed: u64,
    ) -> Result<Self, HostErr>
        requires { IsEmptyStart (H.view host.old) }
        ensures ok { IfOk result
            (λ c. container_of c (H.view host.new) ≡ first_container (image_tree image.now) seed) }
        ensures sound { IfOk result (λ c. IsSoundContainer c (H.view host.new)) }
        ensures lives { IfOk result (λ c. Lives c FIRST_PID) }
        ensures cause { HasCause (H.count host.old) (H.count host.new) (IsErrOf result HostErr.Failed) }
    {
        let mut tree = Tree::new(alloc, host)?;
        tree.install(host, image)?;
        let shared = Shared::new(alloc, host, tree, seed)?;
        let mut places = Numbered::new(alloc);
        places.put(u64::from(FIRST_PID), None)?;
        let container = Container {
            alloc,
            shared,
            places,
            events: Vec::new(alloc),
        };
        container.counted();
        Ok(container)
    }

    /// Starts the program of a command (execve(2)), or says why it can't be started.
    #[tactic(auto, unfolding(crate::specs::Launch::launch))]
    pub fn launch<H: Host>(&mut self, host: &mut H, command: &Command) -> Result<Launch, HostErr>
        requires sound { IsSoundContainer self.old (H.view host.old) }
        requires lives { Lives self.old FIRST_PID }
        ensures ok { IfOk result (λ l. launch (container_of self.old (H.view host.old)) command.now
            ≡ container_launch_as (container_of self.new (H.view host.new)) l) }
        ensures sound { IfOk result (λ _. IsSoundContainer self.new (H.view host.new)) }
        ensures cause { HasCause (H.count host.old) (H.count host.new) (IsErrOf result HostErr.Failed) }
    {
        let fs = &mut self.shared.fs;
        fs.input = command.input().copy()?;
        let random = fs.rand.start16();
        let atomics = has_atomics(fs.tree.version());
        match start_program(self.alloc, host, &fs.tree, command, &random, atomics)? {
            Ok(program) => {
                start_task(&mut self.shared.tasks, FIRST_PID, program.break_start);
                self.give_machine(FIRST_PID, program.machine);
                self.counted();
                Ok(Launch::Started)
            }
            Err(errno) => Ok(Launch::NoStart(errno)),
        }
    }

    /// Takes the machine of a process away, which is at home.
    #[tactic(auto, using(crate::proofs::Homes::homes))]
    pub fn take_machine(&mut self, vpid: u32) -> Machine
        requires { IsSome (get (machines_at_home self.old.places) vpid) }
        ensures machine { get (machines_at_home self.old.places) vpid ≡ Some result }
        ensures rest { self.new ≡ record self.old { places = insert self.old.places vpid None } }
        ensures home { machines_at_home self.new.places ≡ remove (machines_at_home self.old.places) vpid }
    {
        let Some(machine) = self.places.swap(u64::from(vpid), None) else {
            unreachable!()
        };
        machine
    }

    /// Brings the machine of a process that lives home.
    #[tactic(auto, using(crate::proofs::Homes::homes))]
    pub fn give_machine(&mut self, vpid: u32, machine: Machine)
        requires { IsSome (get self.old.places vpid) }
        ensures rest { self.new ≡ record self.old { places = insert self.old.places vpid (Some machine) } }
        ensures home { machines_at_home self.new.places ≡ insert (machines_at_home self.old.places) vpid machine }
    {
        self.places.set(u64::from(vpid), Some(machine));
    }

    /// Runs a segment of a process whose machine is at home. No answer depends on the hints.
    pub fn run_segment(&mut self, vpid: u32, hints: &mut Hints) -> Result<Seg, NoMemory>
        requires { IsSome (get (machines_at_home self.old.places) vpid) }
        ensures run { IfOk result (RunsAt self.old.places self.new.places vpid) }
        ensures rest { self.new ≡ record self.old { places = self.new.places } }
    {
        run_at(&mut self.places, vpid, hints)
    }

    /// Serves the stop of a process that lives and has its machine at home, and settles what becomes of it.
    #[tactic(auto, unfolding(crate::specs::Settle::turn_of_container, crate::specs::Settle::turn_of_machine))]
    pub fn serve<H: Host>(&mut self, host: &mut H, vpid: u32, stop: Stop) -> Result<Served, HostErr>
        requires sound { IsSoundContainer self.old (H.view host.old) }
        requires home { IsSome (get (machines_at_home self.old.places) vpid) }
        ensures ok { IfOk result (λ s. turn_of_container (container_of self.old (H.view host.old)) vpid stop
            ≡ Some (container_turn_as (container_of self.new (H.view host.new)) s)) }
        ensures sound { IfOk result (λ _. IsSoundContainer self.new (H.view host.new)) }
        ensures places { IfOk result (λ s. KeepPlaces vpid s self.old.places self.new.places) }
        ensures cause { HasCause (H.count host.old) (H.count host.new) (IsErrOf result HostErr.Failed) }
    {
        let next = self.shared.pids.next();
        let effect = serve_at(
            self.alloc,
            host,
            &mut self.shared,
            &mut self.places,
            vpid,
            stop,
        )?;
        let served = effect.served;
        self.events = effect.events;
        self.settle(vpid, next, served, effect.child)?;
        self.counted();
        Ok(served)
    }

    /// Tries the call of a process again, which waits or goes on.
    pub fn retry<H: Host>(&mut self, host: &mut H, vpid: u32) -> Result<Served, HostErr>
        requires sound { IsSoundContainer self.old (H.view host.old) }
        requires home { IsSome (get (machines_at_home self.old.places) vpid) }
        ensures ok { IfOk result (λ s. turn_of_container (container_of self.old (H.view host.old)) vpid a_call
            ≡ Some (container_turn_as (container_of self.new (H.view host.new)) s)) }
        ensures sound { IfOk result (λ _. IsSoundContainer self.new (H.view host.new)) }
        ensures places { IfOk result (λ s. KeepPlaces vpid s self.old.places self.new.places) }
        ensures cause { HasCause (H.count host.old) (H.count host.new) (IsErrOf result HostErr.Failed) }
    {
        self.serve(host, vpid, Stop::Call)
    }

    /// The earliest point of time that a live process waits for: its timer is due then, or a ppoll(2) of it is over.
    /// None exactly where no live process waits for one.
    pub fn earliest(&self) -> Option<u64>
        ensures { result ≡ earliest_in self.now.shared }
    {
        self.shared.earliest()
    }

    /// Lets the time come to the earliest point that a live process waits for, and the timers fire that are due then.
    pub fn jump(&mut self)
        requires { IsSome (earliest_in self.old.shared) }
        ensures jumped { (w : World) → container_of self.new w
            ≡ container_after_jump (container_of self.old w) }
        ensures rest { self.new ≡ record self.old { shared = self.new.shared } }
        ensures pids { self.new.shared.pids ≡ self.old.shared.pids }
        ensures sound { (w : World) → IsSoundContainer self.old w → IsSoundContainer self.new w }
        ensures lives { (w : World) → IsSoundContainer self.old w → (p : ℕ) → Lives self.old p → Lives self.new p }
    {
        let Some(due) = self.shared.earliest() else {
            unreachable!()
        };
        self.shared.jump(due);
    }

    /// What the last turn showed.
    pub fn events(&self) -> &[Event]
        ensures { result.now ≡ self.now.events }
    {
        &self.events
    }

    /// What the last turn showed, which the container then keeps no longer.
    pub fn take_events(&mut self) -> Vec<Event>
        ensures events { result.items ≡ self.old.events }
        ensures rest { self.new ≡ record self.old { events = [] } }
    {
        let none = Vec::new(self.alloc);
        mem::replace(&mut self.events, none)
    }

    /// The file tree.
    pub fn tree(&self) -> &Tree
        ensures { result.now ≡ self.now.shared.fs.tree }
    {
        &self.shared.fs.tree
    }

    /// Lets all that the container has at its host go. The host is then as at the start: it has its root without entries
    /// and no other node, no pipe, and no live pid.
    pub fn clear<H: Host>(self, host: &mut H) -> Result<(), HostErr>
        requires { IsSoundContainer self (H.view host.old) }
        ensures empty { OnOk result (IsEmptyStart (H.view host.new)) }
        ensures root { OnOk result ((H.view host.new).forest.root ≡ (H.view host.old).forest.root) }
        ensures cause { HasCause (H.count host.old) (H.count host.new) (IsErrOf result HostErr.Failed) }
    {
        self.shared.clear(host)
    }

    /// How a process ended, if it is there and has.
    pub fn end(&self, vpid: u32) -> Option<End>
        ensures { result ≡ end_of (members_of self.now.shared.pids) vpid }
    {
        self.shared.pids.end(vpid)
    }
}
