// The words of each format, from their fields (RISC-V unprivileged specification, "Base Instruction Formats" and
// "Immediate Encoding Variants").
ghost use Rattle.std.specs.Prelude.{◌≡◌, ◌<◌, ◌^◌, ◌/◌, ◌%◌, ◌*◌, ◌&&◌, is_some, IfSome};
ghost use Rattle.dt_asm.specs.Fits.{is_b_immediate, is_u_immediate, is_j_immediate, is_i_immediate, is_counter};
ghost use Rattle.dt_asm.specs.Fits.{is_register, are_r_fields, are_i_fields, are_s_fields, are_b_fields, are_u_fields};
ghost use Rattle.dt_asm.specs.Fits.{are_j_fields, are_shift_fields};
ghost use Rattle.dt_asm.specs.inner.Shapes.{IsBits, IsR, IsAtomic, IsI, IsShift, IsCsr, IsS, IsB, IsU, IsJ};

const REGISTERS: u8 = 32;

/// The word in R format of three registers; `None` exactly where one is over 31.
pub fn r_type(opcode: u32, funct3: u32, funct7: u32, rd: u8, rs1: u8, rs2: u8) -> Option<u32>
    requires opcode { opcode < 2 ^ 7 }
    requires funct3 { funct3 < 2 ^ 3 }
    requires funct7 { funct7 < 2 ^ 7 }
    ensures some { is_some result ≡ are_r_fields rd rs1 rs2 }
    ensures word { IfSome result (IsR opcode funct3 funct7 rd rs1 rs2) }
{
    if rd < REGISTERS && rs1 < REGISTERS && rs2 < REGISTERS {
        Some(assemble(opcode, u32::from(rd), funct3, rs1, rs2, funct7))
    } else {
        None
    }
}

/// The word of an atomic of three registers, without the bits that order accesses; `None` exactly where a register is
/// over 31.
pub fn atomic_type(opcode: u32, funct3: u32, funct5: u32, rd: u8, rs1: u8, rs2: u8) -> Option<u32>
    requires opcode { opcode < 2 ^ 7 }
    requires funct3 { funct3 < 2 ^ 3 }
    requires funct5 { funct5 < 2 ^ 5 }
    ensures some { is_some result ≡ are_r_fields rd rs1 rs2 }
    ensures word { IfSome result (IsAtomic opcode funct3 funct5 rd rs1 rs2) }
{
    let word = r_type(opcode, funct3, 4 * funct5, rd, rs1, rs2)?;
    Some(word)
}

/// The word in I format of two registers and an immediate; `None` exactly where a register is over 31, or the
/// immediate is no signed number of 12 bits.
pub fn i_type(opcode: u32, funct3: u32, rd: u8, rs1: u8, imm: i64) -> Option<u32>
    requires opcode { opcode < 2 ^ 7 }
    requires funct3 { funct3 < 2 ^ 3 }
    ensures some { is_some result ≡ are_i_fields rd rs1 imm }
    ensures word { IfSome result (IsI opcode funct3 rd rs1 imm) }
{
    if rd < REGISTERS && rs1 < REGISTERS {
        let bits = i_immediate_bits(imm)?;
        Some(opcode + (u32::from(rd) << 7) + (funct3 << 12) + (u32::from(rs1) << 15) + (bits << 20))
    } else {
        None
    }
}

/// The word in I format of two registers and a shift of six bits, below funct6; `None` exactly where a register is
/// over 31, or the shift over 63.
pub fn shift_type(opcode: u32, funct3: u32, funct6: u32, rd: u8, rs1: u8, shift: u8) -> Option<u32>
    requires opcode { opcode < 2 ^ 7 }
    requires funct3 { funct3 < 2 ^ 3 }
    requires funct6 { funct6 < 2 ^ 6 }
    ensures some { is_some result ≡ are_shift_fields 64 rd rs1 shift }
    ensures word { IfSome result (IsShift opcode funct3 funct6 rd rs1 shift) }
{
    if rd < REGISTERS && rs1 < REGISTERS && shift < 64 {
        Some(
            opcode
                + (u32::from(rd) << 7)
                + (funct3 << 12)
                + (u32::from(rs1) << 15)
                + (u32::from(shift) << 20)
                + (funct6 << 26),
        )
    } else {
        None
    }
}

/// The word in I format of a register and the number of a counter, with x0 as its source; `None` exactly where the
/// register is over 31, or the number is not 0xC00, 0xC01 or 0xC02.
pub fn csr_type(opcode: u32, funct3: u32, rd: u8, counter: u16) -> Option<u32>
    requires opcode { opcode < 2 ^ 7 }
    requires funct3 { funct3 < 2 ^ 3 }
    ensures some { is_some result ≡ (is_register rd && is_counter counter) }
    ensures word { IfSome result (IsCsr opcode funct3 rd counter) }
{
    if rd < REGISTERS && 0xc00 <= counter && counter <= 0xc02 {
        Some(opcode + (u32::from(rd) << 7) + (funct3 << 12) + (u32::from(counter) << 20))
    } else {
        None
    }
}

/// The word in S format of two registers and an immediate; `None` exactly where a register is over 31, or the
/// immediate is no signed number of 12 bits.
pub fn s_type(opcode: u32, funct3: u32, rs1: u8, rs2: u8, imm: i64) -> Option<u32>
    requires opcode { opcode < 2 ^ 7 }
    requires funct3 { funct3 < 2 ^ 3 }
    ensures some { is_some result ≡ are_s_fields rs1 rs2 imm }
    ensures word { IfSome result (IsS opcode funct3 rs1 rs2 imm) }
{
    if rs1 < REGISTERS && rs2 < REGISTERS {
        let bits = i_immediate_bits(imm)?;
        Some(assemble(opcode, bits & 0x1f, funct3, rs1, rs2, bits >> 5))
    } else {
        None
    }
}

/// The word in B format of two registers and an offset in bytes; `None` exactly where a register is over 31, or the
/// offset is no even signed number of 13 bits.
///
/// Bits 4 to 1 and bit 11 stand where rd does elsewhere, bits 12 and 10 to 5 where funct7 does.
#[tactic(auto, using(crate::proofs::Pieces::b_whole))]
pub fn b_type(opcode: u32, funct3: u32, rs1: u8, rs2: u8, imm: i64) -> Option<u32>
    requires opcode { opcode < 2 ^ 7 }
    requires funct3 { funct3 < 2 ^ 3 }
    ensures some { is_some result ≡ are_b_fields rs1 rs2 imm }
    ensures word { IfSome result (IsB opcode funct3 rs1 rs2 imm) }
{
    if rs1 < REGISTERS && rs2 < REGISTERS {
        let bits = b_immediate_bits(imm)?;
        let low = b_immediate_low(bits);
        let high = b_immediate_high(bits);
        Some(assemble(opcode, low, funct3, rs1, rs2, high))
    } else {
        None
    }
}

// Bits 4 to 1 of a B immediate, and bit 11 below them.
fn b_immediate_low(bits: u32) -> u32
    requires { bits < 2 ^ 13 }
    ensures few { result < 2 ^ 5 }
    ensures lowest { result % 2 ≡ bits / 2 ^ 11 % 2 }
    ensures rest { result / 2 ≡ bits / 2 % 2 ^ 4 }
{
    ((bits >> 1 & 0xf) << 1) + (bits >> 11 & 1)
}

// Bit 12 of a B immediate, and bits 10 to 5 below it.
fn b_immediate_high(bits: u32) -> u32
    requires { bits < 2 ^ 13 }
    ensures few { result < 2 ^ 7 }
    ensures highest { result / 2 ^ 6 ≡ bits / 2 ^ 12 }
    ensures rest { result % 2 ^ 6 ≡ bits / 2 ^ 5 % 2 ^ 6 }
{
    (bits >> 5 & 0x3f) + (bits >> 12 << 6)
}

/// The word in U format of a register and an immediate; `None` exactly where the register is over 31, or the
/// immediate is no signed number of 32 bits whose low 12 are 0.
pub fn u_type(opcode: u32, rd: u8, imm: i64) -> Option<u32>
    requires opcode { opcode < 2 ^ 7 }
    ensures some { is_some result ≡ are_u_fields rd imm }
    ensures word { IfSome result (IsU opcode rd imm) }
{
    if rd < REGISTERS {
        let bits = u_immediate_bits(imm)?;
        Some(opcode + (u32::from(rd) << 7) + (bits << 12))
    } else {
        None
    }
}

/// The word in J format of a register and an offset in bytes; `None` exactly where the register is over 31, or the
/// offset is no even signed number of 21 bits.
pub fn j_type(opcode: u32, rd: u8, imm: i64) -> Option<u32>
    requires opcode { opcode < 2 ^ 7 }
    ensures some { is_some result ≡ are_j_fields rd imm }
    ensures word { IfSome result (IsJ opcode rd imm) }
{
    if rd < REGISTERS {
        let bits = j_immediate_bits(imm)?;
        let low = (bits >> 12 & 0xff) + ((bits >> 11 & 1) << 8);
        let high = (bits >> 1 & 0x3ff) + (bits >> 20 << 10);
        Some(opcode + (u32::from(rd) << 7) + (low << 12) + (high << 21))
    } else {
        None
    }
}

/// Whether a B immediate can hold the number: even, and -4,096 to 4,094.
pub fn is_b_immediate(imm: i64) -> bool
    ensures { result ≡ is_b_immediate imm }
{
    -4096 <= imm && imm < 4096 && imm % 2 == 0
}

/// Whether a J immediate can hold the number: even, and -1,048,576 to 1,048,574.
pub fn is_j_immediate(imm: i64) -> bool
    ensures { result ≡ is_j_immediate imm }
{
    -0x10_0000 <= imm && imm < 0x10_0000 && imm % 2 == 0
}

// The word of these fields.
fn assemble(opcode: u32, rd: u32, funct3: u32, rs1: u8, rs2: u8, funct7: u32) -> u32
    requires opcode { opcode < 2 ^ 7 }
    requires funct3 { funct3 < 2 ^ 3 }
    requires funct7 { funct7 < 2 ^ 7 }
    requires rd { rd < 2 ^ 5 }
    requires rs1 { rs1 < 2 ^ 5 }
    requires rs2 { rs2 < 2 ^ 5 }
    ensures { IsR opcode funct3 funct7 rd rs1 rs2 result }
{
    let sources = (u32::from(rs1) << 15) + (u32::from(rs2) << 20);
    opcode + (rd << 7) + (funct3 << 12) + sources + (funct7 << 25)
}

// The twelve bits of an I or S immediate.
fn i_immediate_bits(imm: i64) -> Option<u32>
    ensures some { is_some result ≡ is_i_immediate imm }
    ensures bits { IfSome result (IsBits 12 imm) }
{
    if -2048 <= imm && imm < 2048 {
        Some((imm.cast_unsigned() & 0xfff) as u32)
    } else {
        None
    }
}

// The thirteen bits of a B immediate, the lowest of which is 0.
fn b_immediate_bits(imm: i64) -> Option<u32>
    ensures some { is_some result ≡ is_b_immediate imm }
    ensures bits { IfSome result (λ bits. IsBits 13 imm bits) }
    ensures even { IfSome result (λ bits. bits % 2 ≡ 0) }
{
    if is_b_immediate(imm) {
        Some((imm.cast_unsigned() & 0x1fff) as u32)
    } else {
        None
    }
}

// The twenty bits of a U immediate that a word holds.
fn u_immediate_bits(imm: i64) -> Option<u32>
    ensures some { is_some result ≡ is_u_immediate imm }
    ensures bits { IfSome result (λ bits. IsBits 32 imm (bits * 2 ^ 12)) }
{
    if -0x8000_0000 <= imm && imm < 0x8000_0000 && imm % 4096 == 0 {
        Some((imm.cast_unsigned() >> 12 & 0xf_ffff) as u32)
    } else {
        None
    }
}

// The twenty-one bits of a J immediate, the lowest of which is 0.
fn j_immediate_bits(imm: i64) -> Option<u32>
    ensures some { is_some result ≡ is_j_immediate imm }
    ensures bits { IfSome result (λ bits. IsBits 21 imm bits) }
    ensures even { IfSome result (λ bits. bits % 2 ≡ 0) }
{
    if is_j_immediate(imm) {
        Some((imm.cast_unsigned() & 0x1f_ffff) as u32)
    } else {
        None
    }
}
