// The machine of a child that was made in a turn.
ghost use Rattle.std.specs.Prelude.{◌≡◌, IfOk};

use dt_base::NoMemory;
use dt_rv64::Machine;
use std::alloc::Global;
use std::marker::Model;

/// The machine of a new process, in memory of its own. What a turn did is moved often, and few turns make a process.
#[derive(Drop)]
pub struct Newborn {
    machine: Box<Machine>,
}

impl Model for Newborn {
    ghost use Rattle.dt_rv64.specs.declared.machine.Machine.{Machine};

    ghost Value = { Machine };

    ghost view = { λ n. n.machine.value };
}

impl Newborn {
    /// Puts a machine into memory of its own.
    pub fn new(alloc: Global, machine: Machine) -> Result<Self, NoMemory>
        ensures { IfOk result (λ newborn. newborn ≡ machine) }
    {
        Ok(Newborn {
            machine: Box::new(alloc, machine)?,
        })
    }

    /// The machine.
    pub fn into_machine(self) -> Machine
        ensures { result ≡ self }
    {
        Box::into_inner(self.machine)
    }
}
