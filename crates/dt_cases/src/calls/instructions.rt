// The instructions of a guest that makes calls.
use dt_asm::Guest;
use dt_base::NoMemory;
use dt_rv64::Instr;

/// Two temporary registers, and those of the first arguments; the first of these has the answer too.
pub const T0: u8 = 5;

pub const T1: u8 = 6;

pub const A0: u8 = 10;

const A1: u8 = 11;

const A2: u8 = 12;

const WRITE: u32 = 64;

const EXIT: u32 = 93;

/// Stores eight bytes at an address.
pub fn store(guest: &mut Guest, at: i64, bytes: i64) -> Result<(), NoMemory> {
    guest.li(A0, bytes)?;
    keep(guest, at, A0)
}

/// Stores a register at an address.
pub fn keep(guest: &mut Guest, at: i64, register: u8) -> Result<(), NoMemory> {
    guest.li(T0, at)?;
    store_behind(guest, register, 0)
}

/// Stores a register behind the address in t0.
pub fn store_behind(guest: &mut Guest, rs2: u8, imm: i64) -> Result<(), NoMemory> {
    guest.ins(Instr::Sd { rs1: T0, rs2, imm })
}

/// Writes so many bytes from an address on to a stream.
pub fn write(guest: &mut Guest, stream: i64, at: i64, count: i64) -> Result<(), NoMemory> {
    guest.li(A0, stream)?;
    guest.li(A1, at)?;
    guest.li(A2, count)?;
    guest.call(WRITE)
}

/// Ends with code 0.
pub fn exit(guest: &mut Guest) -> Result<(), NoMemory> {
    guest.li(A0, 0)?;
    guest.call(EXIT)
}

/// Does nothing so many times.
pub fn nops(guest: &mut Guest, count: i64) -> Result<(), NoMemory> {
    for _ in 0..count {
        guest.ins(Instr::Addi {
            rd: 0,
            rs1: 0,
            imm: 0,
        })?;
    }
    Ok(())
}

/// Loads the address of bytes, which stand behind the three instructions that do so and jump over them.
pub fn point_at(
    guest: &mut Guest,
    register: u8,
    mut bytes: Vec<u8>,
    label: u32,
) -> Result<(), NoMemory> {
    // A NUL, and then as many as make it a multiple of 4.
    for _ in 0..4 - (bytes.len() & 3) {
        bytes.push(0)?;
    }
    guest.ins(Instr::Auipc {
        rd: register,
        imm: 0,
    })?;
    guest.ins(Instr::Addi {
        rd: register,
        rs1: register,
        imm: 12,
    })?;
    guest.jump(label)?;
    guest.bytes(&bytes)?;
    guest.label(label)
}
