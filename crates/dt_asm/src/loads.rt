// Loading a number into a register.
ghost use Rattle.std.specs.Prelude.{◌≡◌, ◌++◌, ◌∷◌, [], map, OnOk, true};
ghost use Rattle.dt_rv64.specs.declared.instruction.Instr.TheVariants.{Lui, Addi, Slli, Addiw};
ghost use Rattle.dt_asm.specs.declared.item.Item.TheVariants.{Code};
ghost use Rattle.dt_asm.specs.Fits.{is_signed};
ghost use Rattle.dt_asm.specs.Load.{signed_low, without_low, high_52, load_sequence};

use crate::item::Item;
use dt_base::NoMemory;
use dt_rv64::Instr;

/// Adds the instructions that load a number into a register, one to eight of them. Where memory runs out, some may have
/// been added.
pub fn add_load_sequence(items: &mut Vec<Item>, register: u8, number: i64) -> Result<(), NoMemory>
    ensures { OnOk result (items.new.items ≡ items.old.items ++ map Code (load_sequence register number)) }
{
    if fits_12(number) {
        add(items, addi_from_zero(register, number))
    } else if fits_32(number) {
        add(items, lui(register, number))?;
        add(items, addiw(register, number))
    } else {
        add_load_sequence(items, register, high_52(number))?;
        add(items, slli_12(register))?;
        add(items, addi_low(register, number))
    }
}

// Whether the number fits twelve signed bits.
fn fits_12(number: i64) -> bool
    ensures { result ≡ is_signed 12 number }
{
    -2048 <= number && number < 2048
}

// Whether the number fits 32 signed bits.
fn fits_32(number: i64) -> bool
    ensures { result ≡ is_signed 32 number }
{
    -0x8000_0000 <= number && number < 0x8000_0000
}

// The sign-extended low twelve bits.
fn signed_low_12(number: i64) -> i64
    ensures { result ≡ signed_low 12 number }
{
    let bits = number.rem_euclid(4096);
    if bits < 2048 { bits } else { bits - 4096 }
}

// The sign-extended low 32 bits.
fn signed_low_32(number: i64) -> i64
    ensures { result ≡ signed_low 32 number }
{
    let bits = number.rem_euclid(0x1_0000_0000);
    if bits < 0x8000_0000 {
        bits
    } else {
        bits - 0x1_0000_0000
    }
}

// The 52 bits above the sign-extended low twelve, moved down by twelve.
fn high_52(number: i64) -> i64
    ensures { result ≡ high_52 number }
{
    let high = number.div_euclid(4096);
    if number.rem_euclid(4096) < 2048 {
        high
    } else {
        high + 1
    }
}

fn add(items: &mut Vec<Item>, i: Instr) -> Result<(), NoMemory>
    ensures { OnOk result (items.new.items ≡ items.old.items ++ (Code i ∷ [])) }
{
    Ok(items.push(Item::Code(i))?)
}

// ADDI from x0: loads a number of twelve bits.
fn addi_from_zero(register: u8, number: i64) -> Instr
    ensures { result ≡ Addi register 0 number }
{
    Instr::Addi {
        rd: register,
        rs1: 0,
        imm: number,
    }
}

// LUI: loads what a number of 32 bits has above its sign-extended low twelve bits.
fn lui(register: u8, number: i64) -> Instr
    requires { is_signed 32 number ≡ true }
    ensures { result ≡ Lui register (signed_low 32 (without_low number)) }
{
    Instr::Lui {
        rd: register,
        imm: signed_low_32(without_low_12(number)),
    }
}

// ADDIW: adds the low bits of a number of 32 bits.
fn addiw(register: u8, number: i64) -> Instr
    ensures { result ≡ Addiw register register (signed_low 12 number) }
{
    Instr::Addiw {
        rd: register,
        rs1: register,
        imm: signed_low_12(number),
    }
}

// SLLI: shifts a register left by twelve bits.
fn slli_12(register: u8) -> Instr
    ensures { result ≡ Slli register register 12 }
{
    Instr::Slli {
        rd: register,
        rs1: register,
        shift: 12,
    }
}

// ADDI: adds the low bits of a number.
fn addi_low(register: u8, number: i64) -> Instr
    ensures { result ≡ Addi register register (signed_low 12 number) }
{
    Instr::Addi {
        rd: register,
        rs1: register,
        imm: signed_low_12(number),
    }
}

// A number without its sign-extended low twelve bits.
fn without_low_12(number: i64) -> i64
    requires { is_signed 32 number ≡ true }
    ensures { result ≡ without_low number }
{
    number - signed_low_12(number)
}
