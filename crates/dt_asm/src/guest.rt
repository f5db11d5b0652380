// A guest: items one after the other, and the file that they make.
ghost use Rattle.std.specs.Prelude.{◌≡◌, ◌<◌, ◌+◌, ◌^◌, ◌∷◌, ◌++◌, [], map, IfOk, IfErr, IsOk, OnOk, OnErr, None, Some};
ghost use Rattle.std.specs.Prelude.{pos};
ghost use Rattle.dt_asm.specs.declared.item.Item.TheVariants.{Code, Branch, Jump, Bytes, Label};
ghost use Rattle.dt_asm.specs.Item.{total_size, with_items};
ghost use Rattle.dt_asm.specs.Refusal.{refusal_of};
ghost use Rattle.dt_asm.specs.File.{IsFileOf, IsRefusal};
ghost use Rattle.dt_asm.specs.Accepted.{IsAccepted};
ghost use Rattle.dt_asm.specs.Load.{load_sequence};
ghost use Rattle.dt_rv64.specs.declared.instruction.Instr.TheVariants.{Ecall};
ghost use Rattle.dt_asm.specs.inner.Sized.{IsGrown};

use crate::code::code_of;
use crate::error::AsmErr;
use crate::headers::{HEADERS_SIZE, headers};
use crate::item::Item;
use crate::labels::{any_lost, any_out_of_reach, is_set_twice};
use crate::loads::add_load_sequence;
use dt_base::abi::A7;
use dt_base::{Blob, FIRST_FILE_LIMIT, NoMemory};
use dt_rv64::Instr;
use std::alloc::Global;
use std::marker::Model;

// The greatest size that is kept.
const SIZE_LIMIT: u64 = 0x7fff_ffff_ffff_ffff;

/// A program for the machine, as it is built.
#[derive(Debug, Drop)]
pub struct Guest {
    alloc: Global,
    items: Vec<Item>,
    memory: Option<u32>,
    size: u64,
}

impl Model for Guest {
    ghost use Rattle.dt_asm.specs.Item.{GuestView};
    ghost use Rattle.dt_asm.specs.inner.Sized.{IsSized};

    ghost Value = { GuestView };

    ghost view = { λ g. record { items = g.items.items; memory = g.memory } };

    ghost invariant = { λ g. IsSized g.items.items g.size };
}

impl Guest {
    /// A guest without items, whose memory is its file.
    pub fn new(alloc: Global) -> Self
        ensures { result ≡ record { items = []; memory = None } }
    {
        Guest {
            alloc,
            items: Vec::new(alloc),
            memory: None,
            size: HEADERS_SIZE,
        }
    }

    /// Makes the memory this many bytes long, or as long as the file where that is more, and writable. The last size
    /// that is given holds; it takes no memory.
    pub fn memsz(&mut self, size: u32) -> Result<(), NoMemory>
        ensures size { self.new ≡ record { items = self.old.items; memory = Some size } }
        ensures done { IsOk result }
    {
        self.memory = Some(size);
        Ok(())
    }

    /// Adds an instruction.
    pub fn ins(&mut self, i: Instr) -> Result<(), NoMemory>
        ensures ok { OnOk result (self.new ≡ with_items self.old (Code i ∷ [])) }
        ensures err { OnErr result (self.new ≡ self.old) }
    {
        self.push(Item::Code(i))
    }

    /// Sets a label here.
    pub fn label(&mut self, name: u32) -> Result<(), NoMemory>
        ensures ok { OnOk result (self.new ≡ with_items self.old (Label name ∷ [])) }
        ensures err { OnErr result (self.new ≡ self.old) }
    {
        self.push(Item::Label(name))
    }

    /// Adds the branch with this funct3 to a label.
    pub fn branch(&mut self, funct3: u8, rs1: u8, rs2: u8, label: u32) -> Result<(), NoMemory>
        ensures ok { OnOk result (self.new ≡ with_items self.old (Branch funct3 rs1 rs2 label ∷ [])) }
        ensures err { OnErr result (self.new ≡ self.old) }
    {
        self.push(Item::Branch {
            funct3,
            rs1,
            rs2,
            label,
        })
    }

    /// Adds a jump to a label: JAL with x0.
    pub fn jump(&mut self, label: u32) -> Result<(), NoMemory>
        ensures ok { OnOk result (self.new ≡ with_items self.old (Jump label ∷ [])) }
        ensures err { OnErr result (self.new ≡ self.old) }
    {
        self.push(Item::Jump(label))
    }

    /// Adds bytes as they are.
    pub fn bytes(&mut self, bytes: &[u8]) -> Result<(), NoMemory>
        ensures ok { OnOk result (self.new ≡ with_items self.old (Bytes bytes.now ∷ [])) }
        ensures err { OnErr result (self.new ≡ self.old) }
    {
        let bytes = Blob::new(Vec::from_slice(self.alloc, bytes)?);
        self.push(Item::Bytes(bytes))
    }

    /// Adds what loads a number into a register: ADDI from x0 where it fits twelve signed bits; LUI and ADDIW where it
    /// fits 32; else what loads its upper 52 bits, SLLI by 12, and ADDI of its sign-extended low twelve bits.
    pub fn li(&mut self, reg: u8, v: i64) -> Result<(), NoMemory>
        ensures ok { OnOk result (self.new ≡ with_items self.old (map Code (load_sequence reg v))) }
        ensures err { OnErr result (self.new ≡ self.old) }
    {
        let mut items = Vec::new(self.alloc);
        add_load_sequence(&mut items, reg, v)?;
        self.append(items)
    }

    /// Adds a call: its number is loaded into a7, and ECALL follows.
    pub fn call(&mut self, number: u32) -> Result<(), NoMemory>
        ensures ok { OnOk result
            (self.new ≡ with_items self.old (map Code (load_sequence A7 (pos number)) ++ (Code Ecall ∷ []))) }
        ensures err { OnErr result (self.new ≡ self.old) }
    {
        let mut items = Vec::new(self.alloc);
        add_load_sequence(&mut items, A7, i64::from(number))?;
        items.push(Item::Code(Instr::Ecall))?;
        self.append(items)
    }

    /// The ELF file: one segment of all of it at 0x10000, entered behind the headers.
    pub fn elf(&self) -> Result<Vec<u8>, AsmErr>
        ensures file { IfOk result (λ file. IsFileOf self.now file.items) }
        ensures accepted { IfOk result (λ file. IsAccepted file.items) }
        ensures sound { OnOk result (refusal_of self.now.items ≡ None) }
        ensures refused { IfErr result (IsRefusal self.now.items) }
    {
        if any_lost(&self.items) {
            return Err(AsmErr::NoLabel);
        }
        if is_set_twice(&self.items) {
            return Err(AsmErr::TwoLabels);
        }
        if any_out_of_reach(&self.items) {
            return Err(AsmErr::Far);
        }
        let mut code = code_of(self.alloc, &self.items)?;
        if FIRST_FILE_LIMIT < self.size {
            return Err(AsmErr::TooLong);
        }
        let mut file = headers(self.alloc, self.size, self.memory)?;
        file.append(&mut code)?;
        Ok(file)
    }

    // Adds an item.
    fn push(&mut self, item: Item) -> Result<(), NoMemory>
        ensures ok { OnOk result (self.new ≡ with_items self.old (item ∷ [])) }
        ensures err { OnErr result (self.new ≡ self.old) }
    {
        let size = size_with(self.size, &item)?;
        self.items.push(item)?;
        self.size = size;
        Ok(())
    }

    // Adds items, or none of them.
    fn append(&mut self, mut items: Vec<Item>) -> Result<(), NoMemory>
        ensures ok { OnOk result (self.new ≡ with_items self.old items.items) }
        ensures err { OnErr result (self.new ≡ self.old) }
    {
        let size = size_with_all(self.size, &items)?;
        self.items.append(&mut items)?;
        self.size = size;
        Ok(())
    }
}

// A size with an item's. No memory holds a guest of 2^63 bytes, so past that memory is wanting.
fn size_with(size: u64, item: &Item) -> Result<u64, NoMemory>
    requires { size < 2 ^ 63 }
    ensures { IfOk result (IsGrown size (item.now ∷ [])) }
{
    if item.size() <= SIZE_LIMIT - size {
        Ok(size + item.size())
    } else {
        Err(NoMemory)
    }
}

// A size with those of items.
fn size_with_all(size: u64, items: &[Item]) -> Result<u64, NoMemory>
    requires { size < 2 ^ 63 }
    ensures { IfOk result (IsGrown size items.now) }
{
    let mut size = size;
    for item in items {
        size = size_with(size, item)?;
    }
    Ok(size)
}
