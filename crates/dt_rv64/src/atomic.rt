// Atomics: loads that reserve an address, stores that ask for it, and changes of memory in one step.
ghost use Rattle.std.specs.Prelude.{◌≡◌, ◌<◌, ℕ, false, if◌then◌else◌, IfOk, OnErr};
ghost use Rattle.dt_base.specs.Fields.{low_bytes};
ghost use Rattle.dt_space.specs.declared.access.TheConstants.{READ};
ghost use Rattle.dt_space.specs.Space.{loaded_number, load};
ghost use Rattle.dt_space.specs.Write.{IsStoreResult, pages_after_store};
ghost use Rattle.dt_rv64.specs.Words.{sign_extended};
ghost use Rattle.dt_rv64.specs.Atomics.{atomic_fault, is_reserved, is_less_signed, is_less, lr_result, sc_result};
ghost use Rattle.dt_rv64.specs.Atomics.{amo_result, amo_by_store, sc_by_store};
ghost use Rattle.dt_rv64.specs.inner.Atomics.{bytes_of, bits_of, operation_of};
ghost use Rattle.dt_rv64.specs.inner.Registers.{HasZero};

use crate::machine::{Machine, Step};
use crate::words::{low_32, sign_extended_32};
use dt_base::NoMemory;
use dt_base::abi::{SIGBUS, SIGILL, SIGSEGV};
use dt_space::{Miss, PageHint, Space, WriteErr};

/// How many bits an atomic works on: 32 or 64.
#[derive(Clone, Copy, Debug)]
pub enum Width {
    Word,
    Double,
}

impl Width {
    // How many bytes.
    fn bytes(self) -> u8
        ensures { result ≡ bytes_of self }
    {
        match self {
            Width::Word => 4,
            Width::Double => 8,
        }
    }

    // The lowest bits, sign-extended.
    fn extended(self, value: u64) -> u64
        ensures { result ≡ sign_extended (bits_of self) value }
    {
        match self {
            Width::Word => sign_extended_32(value),
            Width::Double => value,
        }
    }

    // Whether a is less than b in the lowest bits, signed.
    fn is_less_signed(self, a: u64, b: u64) -> bool
        ensures { result ≡ is_less_signed (bits_of self) a b }
    {
        self.extended(a).cast_signed() < self.extended(b).cast_signed()
    }

    // Whether a is less than b in the lowest bits, unsigned.
    fn is_less(self, a: u64, b: u64) -> bool
        ensures { result ≡ is_less (bits_of self) a b }
    {
        match self {
            Width::Word => low_32(a) < low_32(b),
            Width::Double => a < b,
        }
    }

    // Loads a number.
    fn load(self, space: &Space, data: &mut PageHint, address: u64) -> Result<u64, Miss>
        ensures { result ≡ loaded_number (load space.now READ address (bytes_of self)) }
    {
        match self {
            Width::Word => space.load4_hinted(data, address),
            Width::Double => space.load8_hinted(data, address),
        }
    }

    // Stores the lowest bits of a number.
    fn store(
        self,
        space: &mut Space,
        data: &mut PageHint,
        address: u64,
        value: u64,
    ) -> Result<(), WriteErr>
        ensures stored { IsStoreResult space.old address (low_bytes (bytes_of self) value) space.new result }
        ensures kept { OnErr result (space.new ≡ space.old) }
    {
        match self {
            Width::Word => space.store4_hinted(data, address, value),
            Width::Double => space.store8_hinted(data, address, value),
        }
    }
}

/// What is stored in place of the old number, which is kept in a register.
#[derive(Clone, Copy, Debug)]
pub enum Operation {
    Swap,
    Add,
    Xor,
    And,
    Or,
    Min,
    Max,
    Minu,
    Maxu,
}

impl Operation {
    // What comes of the old number and a register.
    fn apply(self, width: Width, old: u64, new: u64) -> u64
        ensures { result ≡ operation_of self (bits_of width) old new }
    {
        match self {
            Operation::Swap => new,
            Operation::Add => old.wrapping_add(new),
            Operation::Xor => old ^ new,
            Operation::And => old & new,
            Operation::Or => old | new,
            Operation::Min => chosen(width.is_less_signed(old, new), old, new),
            Operation::Max => chosen(width.is_less_signed(old, new), new, old),
            Operation::Minu => chosen(width.is_less(old, new), old, new),
            Operation::Maxu => chosen(width.is_less(old, new), new, old),
        }
    }
}

// The first where it is to be chosen, else the second.
fn chosen(first: bool, a: u64, b: u64) -> u64
    ensures { result ≡ (if first then a else b) }
{
    if first { a } else { b }
}

impl Machine {
    // Why an atomic at an address does not run, if it does not.
    fn atomic_fault(&self, width: Width, address: u64) -> Option<u8>
        ensures { result ≡ atomic_fault self.now (bytes_of width) address }
    {
        if !self.atomics {
            return Some(SIGILL);
        }
        if address % u64::from(width.bytes()) != 0 {
            return Some(SIGBUS);
        }
        None
    }

    // Whether this address is reserved with this width.
    fn is_reserved(&self, width: Width, address: u64) -> bool
        ensures { result ≡ is_reserved self.now.reserved address (bytes_of width) }
    {
        match self.reserved {
            Some((at, size)) => at == address && size == width.bytes(),
            None => false,
        }
    }

    /// Loads a register, and reserves the address (LR).
    #[inline(never)]
    #[tactic(auto, unfolding(crate::specs::Atomics::lr_result))]
    pub(crate) fn load_reserved(
        &mut self,
        data: &mut PageHint,
        width: Width,
        rd: u8,
        rs1: u8,
    ) -> Step
        requires written { rd < 32 }
        requires read { rs1 < 32 }
        requires zero { HasZero self.old }
        ensures ran { lr_result self.old (bytes_of width) rd rs1 ≡ record { step = result; machine = self.new } }
        ensures zero { HasZero self.new }
    {
        let address = self.read(rs1);
        if let Some(signal) = self.atomic_fault(width, address) {
            return Step::Fault(signal);
        }
        let read = width.load(&self.space, data, address);
        match read {
            Ok(value) => {
                self.reserved = Some((address, width.bytes()));
                self.put(rd, width.extended(value))
            }
            Err(_) => Step::Fault(SIGSEGV),
        }
    }

    /// Stores a register where its address is reserved, and tells another whether it did; reserves nothing from here on
    /// (SC).
    #[inline(always)]
    pub(crate) fn store_conditional(
        &mut self,
        data: &mut PageHint,
        width: Width,
        rd: u8,
        rs1: u8,
        rs2: u8,
    ) -> Result<Step, NoMemory>
        requires written { rd < 32 }
        requires address { rs1 < 32 }
        requires value { rs2 < 32 }
        requires zero { HasZero self.old }
        ensures ran { IfOk result (λ step.
            sc_result self.old (bytes_of width) rd rs1 rs2 ≡ record { step = step; machine = self.new }) }
        ensures kept { OnErr result (self.new ≡ self.old) }
        ensures zero { HasZero self.new }
    {
        // The call's answer has a place of its own in memory. In its caller's, each step of the loop would be stored.
        let step = self.store_where_reserved(data, width, rd, rs1, rs2)?;
        Ok(step)
    }

    // Stores conditionally, out of the loop over steps.
    #[inline(never)]
    #[tactic(auto, unfolding(crate::specs::Atomics::sc_result))]
    fn store_where_reserved(
        &mut self,
        data: &mut PageHint,
        width: Width,
        rd: u8,
        rs1: u8,
        rs2: u8,
    ) -> Result<Step, NoMemory>
        requires written { rd < 32 }
        requires address { rs1 < 32 }
        requires value { rs2 < 32 }
        requires zero { HasZero self.old }
        ensures ran { IfOk result (λ step.
            sc_result self.old (bytes_of width) rd rs1 rs2 ≡ record { step = step; machine = self.new }) }
        ensures kept { OnErr result (self.new ≡ self.old) }
        ensures zero { HasZero self.new }
    {
        let address = self.read(rs1);
        if let Some(signal) = self.atomic_fault(width, address) {
            return Ok(Step::Fault(signal));
        }
        if !self.is_reserved(width, address) {
            return Ok(self.refuse_store(width, rd, address));
        }
        let value = self.read(rs2);
        match width.store(&mut self.space, data, address, value) {
            Ok(()) => {
                self.reserved = None;
                Ok(self.put(rd, 0))
            }
            Err(WriteErr::Miss(_)) => Ok(Step::Fault(SIGSEGV)),
            Err(WriteErr::NoMemory) => Err(NoMemory),
        }
    }

    // Stores nothing, and tells so, where the address may be written.
    fn refuse_store(&mut self, width: Width, rd: u8, address: u64) -> Step
        requires written { rd < 32 }
        requires zero { HasZero self.old }
        requires other { is_reserved self.old.reserved address (bytes_of width) ≡ false }
        ensures ran { (value : ℕ) → sc_by_store self.old (bytes_of width) rd address
            (pages_after_store self.old.space address (low_bytes (bytes_of width) value))
            ≡ record { step = result; machine = self.new } }
        ensures zero { HasZero self.new }
    {
        match self.space.writable(address, u64::from(width.bytes())) {
            Ok(()) => {
                self.unreserve();
                self.put(rd, 1)
            }
            Err(_) => Step::Fault(SIGSEGV),
        }
    }

    /// Stores what comes of the number at an address and a register, and keeps the old number in another (AMO).
    #[inline(always)]
    pub(crate) fn modify(
        &mut self,
        data: &mut PageHint,
        width: Width,
        operation: Operation,
        rd: u8,
        rs1: u8,
        rs2: u8,
    ) -> Result<Step, NoMemory>
        requires written { rd < 32 }
        requires address { rs1 < 32 }
        requires value { rs2 < 32 }
        requires zero { HasZero self.old }
        ensures ran { IfOk result (λ step.
            amo_result self.old (bytes_of width) rd rs1 rs2 (operation_of operation (bits_of width))
            ≡ record { step = step; machine = self.new }) }
        ensures kept { OnErr result (self.new ≡ self.old) }
        ensures zero { HasZero self.new }
    {
        // The call's answer has a place of its own, as above.
        let step = self.load_and_store(data, width, operation, rd, rs1, rs2)?;
        Ok(step)
    }

    // Modifies memory, out of the loop over steps.
    #[inline(never)]
    #[tactic(auto, unfolding(crate::specs::Atomics::amo_result))]
    fn load_and_store(
        &mut self,
        data: &mut PageHint,
        width: Width,
        operation: Operation,
        rd: u8,
        rs1: u8,
        rs2: u8,
    ) -> Result<Step, NoMemory>
        requires written { rd < 32 }
        requires address { rs1 < 32 }
        requires value { rs2 < 32 }
        requires zero { HasZero self.old }
        ensures ran { IfOk result (λ step.
            amo_result self.old (bytes_of width) rd rs1 rs2 (operation_of operation (bits_of width))
            ≡ record { step = step; machine = self.new }) }
        ensures kept { OnErr result (self.new ≡ self.old) }
        ensures zero { HasZero self.new }
    {
        let address = self.read(rs1);
        if let Some(signal) = self.atomic_fault(width, address) {
            return Ok(Step::Fault(signal));
        }
        match width.load(&self.space, data, address) {
            Ok(old) => {
                let new = operation.apply(width, old, self.read(rs2));
                self.finish_modify(data, width, rd, address, old, new)
            }
            Err(_) => Ok(Step::Fault(SIGSEGV)),
        }
    }

    // Stores the new number, and keeps the old one.
    fn finish_modify(
        &mut self,
        data: &mut PageHint,
        width: Width,
        rd: u8,
        address: u64,
        old: u64,
        new: u64,
    ) -> Result<Step, NoMemory>
        requires written { rd < 32 }
        requires zero { HasZero self.old }
        ensures ran { IfOk result (λ step. amo_by_store self.old (bytes_of width) rd old
            (pages_after_store self.old.space address (low_bytes (bytes_of width) new))
            ≡ record { step = step; machine = self.new }) }
        ensures kept { OnErr result (self.new ≡ self.old) }
        ensures zero { HasZero self.new }
    {
        match width.store(&mut self.space, data, address, new) {
            Ok(()) => Ok(self.put(rd, width.extended(old))),
            Err(WriteErr::Miss(_)) => Ok(Step::Fault(SIGSEGV)),
            Err(WriteErr::NoMemory) => Err(NoMemory),
        }
    }
}
