// The machine: registers, a program counter and a space, and one step of it.
ghost use Rattle.std.specs.Prelude.{◌≡◌, ◌≢◌, ◌<◌, IfOk, None, OnErr};
ghost use Rattle.dt_rv64.specs.Effects.{register, with_register, register_result, jump_result, branch_result};
ghost use Rattle.dt_rv64.specs.Effects.{advance_result, pc_relative, even};
ghost use Rattle.dt_rv64.specs.Effects.{address, machine_after_answer, machine_after_counter};
ghost use Rattle.dt_rv64.specs.Atomics.{with_reserved};
ghost use Rattle.dt_rv64.specs.Machine.{exec};
ghost use Rattle.dt_rv64.specs.Valid.{IsMachine};
ghost use Rattle.dt_rv64.specs.inner.Registers.{HasZero};

use crate::hints::Hints;
use crate::words::word_of;
use dt_base::NoMemory;
use dt_base::abi::{A0, SIGBUS, SIGSEGV};
use dt_space::Space;

/// What a step came to. Only `Ran` changes the machine.
#[derive(Clone, Copy, Debug, PartialEq, Eq)]
pub enum Step {
    /// The instruction was carried out.
    Ran,
    /// A system call is to be served.
    Call,
    /// A counter is to be read into this register.
    Counter(u8),
    /// A signal of this number.
    Fault(u8),
}

/// The state of a process's program. Register 0 reads as 0.
#[derive(Debug, Drop)]
pub struct Machine {
    pub regs: [u64; 32],
    pub pc: u64,
    pub space: Space,
    /// The address and the size of the load that reserved them last, while they are reserved.
    pub reserved: Option<(u64, u8)>,
    /// Whether the machine has atomics. To one that has not their words are none.
    pub atomics: bool,
}

impl Machine {
    /// What a register holds: 0 in register 0, and past the last.
    pub fn reg(&self, index: u8) -> u64
        ensures { result ≡ register self.now index }
    {
        match index {
            0 => 0,
            _ => self.regs.get(usize::from(index)).copied().unwrap_or(0),
        }
    }

    // Writes a register, but not register 0.
    fn set_reg(&mut self, index: u8, value: u64)
        ensures { self.new ≡ with_register self.old index value }
    {
        if 0 < index && index < 32 {
            self.regs[usize::from(index)] = value;
        }
    }

    // What a register holds, where 0 is kept for register 0.
    #[inline(always)]
    #[tactic(auto, using(crate::proofs::First::reads_and_writes))]
    pub(crate) fn read(&self, index: u8) -> u64
        requires within { index < 32 }
        requires zero { HasZero self.now }
        ensures { result ≡ register self.now index }
    {
        self.regs[usize::from(index)]
    }

    // Writes a register, where 0 is kept for register 0, as it is after it.
    #[inline(always)]
    #[tactic(auto, using(crate::proofs::First::reads_and_writes))]
    fn write(&mut self, index: u8, value: u64)
        requires within { index < 32 }
        requires zero { HasZero self.old }
        ensures written { self.new ≡ with_register self.old index value }
        ensures zero { HasZero self.new }
    {
        self.regs[usize::from(index)] = value;
        self.regs[0] = 0;
    }

    /// Ends a system call: its answer in a0, and on to the next instruction.
    pub fn answer(&mut self, value: u64)
        ensures answered { self.new ≡ machine_after_answer self.old value }
        ensures sound { IsMachine self.old → IsMachine self.new }
    {
        self.set_reg(A0, value);
        self.pc = self.pc.wrapping_add(4);
    }

    /// Ends the read of a counter: its value in the register, and on to the next instruction.
    pub fn read_counter(&mut self, rd: u8, value: u64)
        ensures read { self.new ≡ machine_after_counter self.old rd value }
        ensures sound { IsMachine self.old → IsMachine self.new }
    {
        self.set_reg(rd, value);
        self.pc = self.pc.wrapping_add(4);
    }

    /// An equal machine, which shares its pages with this one until either writes to them. Memory is wanted for the list of
    /// pages alone.
    pub fn fork(&mut self) -> Result<Machine, NoMemory>
        ensures same { IfOk result (λ copy. copy ≡ self.old) }
        ensures kept { self.new ≡ self.old }
    {
        Ok(Machine {
            regs: self.regs,
            pc: self.pc,
            space: self.space.fork()?,
            reserved: self.reserved,
            atomics: self.atomics,
        })
    }

    /// Reserves nothing from here on.
    pub fn unreserve(&mut self)
        ensures unreserved { self.new ≡ with_reserved None self.old }
        ensures sound { IsMachine self.old → IsMachine self.new }
    {
        self.reserved = None;
    }

    /// Takes one step. At any answer but `Ran`, and at want of memory, the machine stays.
    pub fn step(&mut self) -> Result<Step, NoMemory>
        ensures stays { IfOk result (λ step. step ≢ Step.Ran → self.new ≡ self.old) }
        ensures stepped { IfOk result (λ step. exec self.old ≡ record { step = step; machine = self.new }) }
        ensures kept { OnErr result (self.new ≡ self.old) }
        ensures sound { IsMachine self.old → IsMachine self.new }
    {
        let first = self.regs[0];
        self.regs[0] = 0;
        let step = self.step_hinted(&mut Hints::new());
        self.regs[0] = first;
        step
    }

    /// Takes one step where 0 is kept for register 0. No answer depends on the hints.
    #[inline(always)]
    #[tactic(auto, unfolding(crate::specs::Machine::exec))]
    pub(crate) fn step_hinted(&mut self, hints: &mut Hints) -> Result<Step, NoMemory>
        requires zero { HasZero self.old }
        ensures stepped { IfOk result (λ step. exec self.old ≡ record { step = step; machine = self.new }) }
        ensures kept { OnErr result (self.new ≡ self.old) }
        ensures zero { HasZero self.new }
    {
        if self.pc % 4 != 0 {
            return Ok(Step::Fault(SIGBUS));
        }
        match self.space.fetch_hinted(&mut hints.code, self.pc) {
            Ok(word) => {
                let index = hints.memo.index(word);
                self.execute(hints.memo.instruction(index), &mut hints.data)
            }
            Err(_) => Ok(Step::Fault(SIGSEGV)),
        }
    }

    /// Goes on to the next instruction.
    pub(crate) fn advance(&mut self) -> Step
        ensures ran { advance_result self.old ≡ record { step = result; machine = self.new } }
        ensures registers { self.new.regs ≡ self.old.regs }
    {
        self.pc = self.pc.wrapping_add(4);
        Step::Ran
    }

    /// Writes a register.
    pub(crate) fn put(&mut self, rd: u8, value: u64) -> Step
        requires within { rd < 32 }
        requires zero { HasZero self.old }
        ensures ran { register_result self.old rd value ≡ record { step = result; machine = self.new } }
        ensures zero { HasZero self.new }
    {
        self.write(rd, value);
        self.pc = self.pc.wrapping_add(4);
        Step::Ran
    }

    /// Jumps, and keeps the address after the jump.
    pub(crate) fn jump(&mut self, rd: u8, target: u64) -> Step
        requires within { rd < 32 }
        requires zero { HasZero self.old }
        ensures ran { jump_result self.old rd target ≡ record { step = result; machine = self.new } }
        ensures zero { HasZero self.new }
    {
        if target % 4 != 0 {
            return Step::Fault(SIGBUS);
        }
        self.write(rd, self.pc.wrapping_add(4));
        self.pc = target;
        Step::Ran
    }

    /// The address at an offset from this instruction.
    pub(crate) fn pc_relative(&self, offset: i64) -> u64
        ensures { result ≡ pc_relative self.now offset }
    {
        self.pc.wrapping_add(word_of(offset))
    }

    /// Jumps to an offset from what a register held before the jump, with bit 0 cleared.
    pub(crate) fn jump_register(&mut self, rd: u8, rs1: u8, imm: i64) -> Step
        requires written { rd < 32 }
        requires read { rs1 < 32 }
        requires zero { HasZero self.old }
        ensures ran { jump_result self.old rd (even (address self.old rs1 imm)) ≡
            record { step = result; machine = self.new } }
        ensures zero { HasZero self.new }
    {
        let target = even(self.address(rs1, imm));
        self.jump(rd, target)
    }

    /// Jumps by an offset where the branch is taken.
    pub(crate) fn branch(&mut self, taken: bool, offset: i64) -> Step
        requires zero { HasZero self.old }
        ensures ran { branch_result self.old taken (pc_relative self.old offset) ≡
            record { step = result; machine = self.new } }
        ensures zero { HasZero self.new }
    {
        if taken {
            self.jump(0, self.pc_relative(offset))
        } else {
            self.advance()
        }
    }
}

// An address with bit 0 cleared.
fn even(address: u64) -> u64
    ensures { result ≡ even address }
{
    address & !1
}
