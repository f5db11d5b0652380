// The words of instructions, by their classes, each with an opcode or a few. A function gives `None` for an instruction
// that is not of its class, and where a field is out of its range.
ghost use Rattle.std.specs.Prelude.{◌≡◌, ◌&&◌, is_some, IfSome, Some};
ghost use Rattle.dt_rv64.specs.declared.instruction.Instr.TheVariants.{Fence};
ghost use Rattle.dt_rv64.specs.Instruction.{instr};
ghost use Rattle.dt_asm.specs.Fits.{is_encodable};
ghost use Rattle.dt_asm.specs.inner.Classes.{is_lui_auipc_or_jump, is_branch, is_load, is_store, is_op_imm, is_op};
ghost use Rattle.dt_asm.specs.inner.Classes.{is_op_multiply, is_op_imm_32, is_op_32, is_op_32_multiply};
ghost use Rattle.dt_asm.specs.inner.Classes.{is_atomic_32, is_atomic_64, is_fence_or_system};

use crate::shapes::{
    atomic_type, b_type, csr_type, i_type, j_type, r_type, s_type, shift_type, u_type,
};
use dt_rv64::Instr;

// The opcodes (RISC-V unprivileged specification, "RV32/64G Instruction Set Listings").
const LOAD: u32 = 0x03;

const OP_IMM: u32 = 0x13;

const AUIPC: u32 = 0x17;

const OP_IMM_32: u32 = 0x1b;

const STORE: u32 = 0x23;

const AMO: u32 = 0x2f;

const OP: u32 = 0x33;

const LUI: u32 = 0x37;

const OP_32: u32 = 0x3b;

const BRANCH: u32 = 0x63;

const JALR: u32 = 0x67;

const JAL: u32 = 0x6f;

const SYSTEM: u32 = 0x73;

// The words without fields.
const FENCE: u32 = 0x0000_000f;

const ECALL: u32 = 0x0000_0073;

const EBREAK: u32 = 0x0010_0073;

/// The word of LUI, AUIPC, JAL or JALR, if its fields fit.
#[tactic(auto, unfolding(dt_rv64::specs::Instruction::instr))]
pub fn lui_auipc_or_jump(i: &Instr) -> Option<u32>
    ensures round { IfSome result (λ word. instr word ≡ i.now) }
    ensures some { is_some result ≡ (is_lui_auipc_or_jump i.now && is_encodable i.now) }
{
    match *i {
        Instr::Lui { rd, imm } => u_type(LUI, rd, imm),
        Instr::Auipc { rd, imm } => u_type(AUIPC, rd, imm),
        Instr::Jal { rd, imm } => j_type(JAL, rd, imm),
        Instr::Jalr { rd, rs1, imm } => i_type(JALR, 0, rd, rs1, imm),
        _ => None,
    }
}

/// The word of a conditional branch, if its fields fit.
#[tactic(auto, unfolding(dt_rv64::specs::Instruction::instr))]
pub fn branch(i: &Instr) -> Option<u32>
    ensures round { IfSome result (λ word. instr word ≡ i.now) }
    ensures some { is_some result ≡ (is_branch i.now && is_encodable i.now) }
{
    match *i {
        Instr::Beq { rs1, rs2, imm } => b_type(BRANCH, 0, rs1, rs2, imm),
        Instr::Bne { rs1, rs2, imm } => b_type(BRANCH, 1, rs1, rs2, imm),
        Instr::Blt { rs1, rs2, imm } => b_type(BRANCH, 4, rs1, rs2, imm),
        Instr::Bge { rs1, rs2, imm } => b_type(BRANCH, 5, rs1, rs2, imm),
        Instr::Bltu { rs1, rs2, imm } => b_type(BRANCH, 6, rs1, rs2, imm),
        Instr::Bgeu { rs1, rs2, imm } => b_type(BRANCH, 7, rs1, rs2, imm),
        _ => None,
    }
}

/// The word of a load, if its fields fit.
#[tactic(auto, unfolding(dt_rv64::specs::Instruction::instr))]
pub fn load(i: &Instr) -> Option<u32>
    ensures round { IfSome result (λ word. instr word ≡ i.now) }
    ensures some { is_some result ≡ (is_load i.now && is_encodable i.now) }
{
    match *i {
        Instr::Lb { rd, rs1, imm } => i_type(LOAD, 0, rd, rs1, imm),
        Instr::Lh { rd, rs1, imm } => i_type(LOAD, 1, rd, rs1, imm),
        Instr::Lw { rd, rs1, imm } => i_type(LOAD, 2, rd, rs1, imm),
        Instr::Ld { rd, rs1, imm } => i_type(LOAD, 3, rd, rs1, imm),
        Instr::Lbu { rd, rs1, imm } => i_type(LOAD, 4, rd, rs1, imm),
        Instr::Lhu { rd, rs1, imm } => i_type(LOAD, 5, rd, rs1, imm),
        Instr::Lwu { rd, rs1, imm } => i_type(LOAD, 6, rd, rs1, imm),
        _ => None,
    }
}

/// The word of a store, if its fields fit.
#[tactic(auto, unfolding(dt_rv64::specs::Instruction::instr))]
pub fn store(i: &Instr) -> Option<u32>
    ensures round { IfSome result (λ word. instr word ≡ i.now) }
    ensures some { is_some result ≡ (is_store i.now && is_encodable i.now) }
{
    match *i {
        Instr::Sb { rs1, rs2, imm } => s_type(STORE, 0, rs1, rs2, imm),
        Instr::Sh { rs1, rs2, imm } => s_type(STORE, 1, rs1, rs2, imm),
        Instr::Sw { rs1, rs2, imm } => s_type(STORE, 2, rs1, rs2, imm),
        Instr::Sd { rs1, rs2, imm } => s_type(STORE, 3, rs1, rs2, imm),
        _ => None,
    }
}

/// The word of an OP-IMM instruction, one that computes from a register and an immediate, if its fields fit.
#[tactic(auto, unfolding(dt_rv64::specs::Instruction::instr))]
pub fn op_immediate(i: &Instr) -> Option<u32>
    ensures round { IfSome result (λ word. instr word ≡ i.now) }
    ensures some { is_some result ≡ (is_op_imm i.now && is_encodable i.now) }
{
    match *i {
        Instr::Addi { rd, rs1, imm } => i_type(OP_IMM, 0, rd, rs1, imm),
        Instr::Slti { rd, rs1, imm } => i_type(OP_IMM, 2, rd, rs1, imm),
        Instr::Sltiu { rd, rs1, imm } => i_type(OP_IMM, 3, rd, rs1, imm),
        Instr::Xori { rd, rs1, imm } => i_type(OP_IMM, 4, rd, rs1, imm),
        Instr::Ori { rd, rs1, imm } => i_type(OP_IMM, 6, rd, rs1, imm),
        Instr::Andi { rd, rs1, imm } => i_type(OP_IMM, 7, rd, rs1, imm),
        Instr::Slli { rd, rs1, shift } => shift_type(OP_IMM, 1, 0, rd, rs1, shift),
        Instr::Srli { rd, rs1, shift } => shift_type(OP_IMM, 5, 0, rd, rs1, shift),
        Instr::Srai { rd, rs1, shift } => shift_type(OP_IMM, 5, 0x10, rd, rs1, shift),
        _ => None,
    }
}

/// The word of an OP instruction, one that computes from two registers, of the base set, if its fields fit.
#[tactic(auto, unfolding(dt_rv64::specs::Instruction::instr))]
pub fn op(i: &Instr) -> Option<u32>
    ensures round { IfSome result (λ word. instr word ≡ i.now) }
    ensures some { is_some result ≡ (is_op i.now && is_encodable i.now) }
{
    match *i {
        Instr::Add { rd, rs1, rs2 } => r_type(OP, 0, 0, rd, rs1, rs2),
        Instr::Sll { rd, rs1, rs2 } => r_type(OP, 1, 0, rd, rs1, rs2),
        Instr::Slt { rd, rs1, rs2 } => r_type(OP, 2, 0, rd, rs1, rs2),
        Instr::Sltu { rd, rs1, rs2 } => r_type(OP, 3, 0, rd, rs1, rs2),
        Instr::Xor { rd, rs1, rs2 } => r_type(OP, 4, 0, rd, rs1, rs2),
        Instr::Srl { rd, rs1, rs2 } => r_type(OP, 5, 0, rd, rs1, rs2),
        Instr::Or { rd, rs1, rs2 } => r_type(OP, 6, 0, rd, rs1, rs2),
        Instr::And { rd, rs1, rs2 } => r_type(OP, 7, 0, rd, rs1, rs2),
        Instr::Sub { rd, rs1, rs2 } => r_type(OP, 0, 0x20, rd, rs1, rs2),
        Instr::Sra { rd, rs1, rs2 } => r_type(OP, 5, 0x20, rd, rs1, rs2),
        _ => None,
    }
}

/// The word of an OP instruction of the M extension, if its fields fit.
#[tactic(auto, unfolding(dt_rv64::specs::Instruction::instr))]
pub fn op_multiply(i: &Instr) -> Option<u32>
    ensures round { IfSome result (λ word. instr word ≡ i.now) }
    ensures some { is_some result ≡ (is_op_multiply i.now && is_encodable i.now) }
{
    match *i {
        Instr::Mul { rd, rs1, rs2 } => r_type(OP, 0, 1, rd, rs1, rs2),
        Instr::Mulh { rd, rs1, rs2 } => r_type(OP, 1, 1, rd, rs1, rs2),
        Instr::Mulhsu { rd, rs1, rs2 } => r_type(OP, 2, 1, rd, rs1, rs2),
        Instr::Mulhu { rd, rs1, rs2 } => r_type(OP, 3, 1, rd, rs1, rs2),
        Instr::Div { rd, rs1, rs2 } => r_type(OP, 4, 1, rd, rs1, rs2),
        Instr::Divu { rd, rs1, rs2 } => r_type(OP, 5, 1, rd, rs1, rs2),
        Instr::Rem { rd, rs1, rs2 } => r_type(OP, 6, 1, rd, rs1, rs2),
        Instr::Remu { rd, rs1, rs2 } => r_type(OP, 7, 1, rd, rs1, rs2),
        _ => None,
    }
}

/// The word of an OP-IMM-32 instruction, one that computes 32 bits from a register and an immediate, if its fields fit.
#[tactic(auto, unfolding(dt_rv64::specs::Instruction::instr))]
pub fn op_immediate_32(i: &Instr) -> Option<u32>
    ensures round { IfSome result (λ word. instr word ≡ i.now) }
    ensures some { is_some result ≡ (is_op_imm_32 i.now && is_encodable i.now) }
{
    match *i {
        Instr::Addiw { rd, rs1, imm } => i_type(OP_IMM_32, 0, rd, rs1, imm),
        Instr::Slliw { rd, rs1, shift } => r_type(OP_IMM_32, 1, 0, rd, rs1, shift),
        Instr::Srliw { rd, rs1, shift } => r_type(OP_IMM_32, 5, 0, rd, rs1, shift),
        Instr::Sraiw { rd, rs1, shift } => r_type(OP_IMM_32, 5, 0x20, rd, rs1, shift),
        _ => None,
    }
}

/// The word of an OP-32 instruction, one that computes 32 bits from two registers, of the base set, if its fields fit.
#[tactic(auto, unfolding(dt_rv64::specs::Instruction::instr))]
pub fn op_32(i: &Instr) -> Option<u32>
    ensures round { IfSome result (λ word. instr word ≡ i.now) }
    ensures some { is_some result ≡ (is_op_32 i.now && is_encodable i.now) }
{
    match *i {
        Instr::Addw { rd, rs1, rs2 } => r_type(OP_32, 0, 0, rd, rs1, rs2),
        Instr::Sllw { rd, rs1, rs2 } => r_type(OP_32, 1, 0, rd, rs1, rs2),
        Instr::Srlw { rd, rs1, rs2 } => r_type(OP_32, 5, 0, rd, rs1, rs2),
        Instr::Subw { rd, rs1, rs2 } => r_type(OP_32, 0, 0x20, rd, rs1, rs2),
        Instr::Sraw { rd, rs1, rs2 } => r_type(OP_32, 5, 0x20, rd, rs1, rs2),
        _ => None,
    }
}

/// The word of an OP-32 instruction of the M extension, if its fields fit.
#[tactic(auto, unfolding(dt_rv64::specs::Instruction::instr))]
pub fn op_32_multiply(i: &Instr) -> Option<u32>
    ensures round { IfSome result (λ word. instr word ≡ i.now) }
    ensures some { is_some result ≡ (is_op_32_multiply i.now && is_encodable i.now) }
{
    match *i {
        Instr::Mulw { rd, rs1, rs2 } => r_type(OP_32, 0, 1, rd, rs1, rs2),
        Instr::Divw { rd, rs1, rs2 } => r_type(OP_32, 4, 1, rd, rs1, rs2),
        Instr::Divuw { rd, rs1, rs2 } => r_type(OP_32, 5, 1, rd, rs1, rs2),
        Instr::Remw { rd, rs1, rs2 } => r_type(OP_32, 6, 1, rd, rs1, rs2),
        Instr::Remuw { rd, rs1, rs2 } => r_type(OP_32, 7, 1, rd, rs1, rs2),
        _ => None,
    }
}

/// The word of an atomic of 32 bits, if its fields fit.
#[tactic(auto, unfolding(dt_rv64::specs::Instruction::instr))]
pub fn atomic_32(i: &Instr) -> Option<u32>
    ensures round { IfSome result (λ word. instr word ≡ i.now) }
    ensures some { is_some result ≡ (is_atomic_32 i.now && is_encodable i.now) }
{
    match *i {
        Instr::LrW { rd, rs1 } => atomic_type(AMO, 2, 0x02, rd, rs1, 0),
        Instr::ScW { rd, rs1, rs2 } => atomic_type(AMO, 2, 0x03, rd, rs1, rs2),
        Instr::AmoswapW { rd, rs1, rs2 } => atomic_type(AMO, 2, 0x01, rd, rs1, rs2),
        Instr::AmoaddW { rd, rs1, rs2 } => atomic_type(AMO, 2, 0x00, rd, rs1, rs2),
        Instr::AmoxorW { rd, rs1, rs2 } => atomic_type(AMO, 2, 0x04, rd, rs1, rs2),
        Instr::AmoandW { rd, rs1, rs2 } => atomic_type(AMO, 2, 0x0c, rd, rs1, rs2),
        Instr::AmoorW { rd, rs1, rs2 } => atomic_type(AMO, 2, 0x08, rd, rs1, rs2),
        Instr::AmominW { rd, rs1, rs2 } => atomic_type(AMO, 2, 0x10, rd, rs1, rs2),
        Instr::AmomaxW { rd, rs1, rs2 } => atomic_type(AMO, 2, 0x14, rd, rs1, rs2),
        Instr::AmominuW { rd, rs1, rs2 } => atomic_type(AMO, 2, 0x18, rd, rs1, rs2),
        Instr::AmomaxuW { rd, rs1, rs2 } => atomic_type(AMO, 2, 0x1c, rd, rs1, rs2),
        _ => None,
    }
}

/// The word of an atomic of 64 bits, if its fields fit.
#[tactic(auto, unfolding(dt_rv64::specs::Instruction::instr))]
pub fn atomic_64(i: &Instr) -> Option<u32>
    ensures round { IfSome result (λ word. instr word ≡ i.now) }
    ensures some { is_some result ≡ (is_atomic_64 i.now && is_encodable i.now) }
{
    match *i {
        Instr::LrD { rd, rs1 } => atomic_type(AMO, 3, 0x02, rd, rs1, 0),
        Instr::ScD { rd, rs1, rs2 } => atomic_type(AMO, 3, 0x03, rd, rs1, rs2),
        Instr::AmoswapD { rd, rs1, rs2 } => atomic_type(AMO, 3, 0x01, rd, rs1, rs2),
        Instr::AmoaddD { rd, rs1, rs2 } => atomic_type(AMO, 3, 0x00, rd, rs1, rs2),
        Instr::AmoxorD { rd, rs1, rs2 } => atomic_type(AMO, 3, 0x04, rd, rs1, rs2),
        Instr::AmoandD { rd, rs1, rs2 } => atomic_type(AMO, 3, 0x0c, rd, rs1, rs2),
        Instr::AmoorD { rd, rs1, rs2 } => atomic_type(AMO, 3, 0x08, rd, rs1, rs2),
        Instr::AmominD { rd, rs1, rs2 } => atomic_type(AMO, 3, 0x10, rd, rs1, rs2),
        Instr::AmomaxD { rd, rs1, rs2 } => atomic_type(AMO, 3, 0x14, rd, rs1, rs2),
        Instr::AmominuD { rd, rs1, rs2 } => atomic_type(AMO, 3, 0x18, rd, rs1, rs2),
        Instr::AmomaxuD { rd, rs1, rs2 } => atomic_type(AMO, 3, 0x1c, rd, rs1, rs2),
        _ => None,
    }
}

/// The word of FENCE, ECALL, EBREAK or the reading of a counter, if its fields fit. That of FENCE has no other fields.
#[tactic(auto, unfolding(dt_rv64::specs::Instruction::instr))]
pub fn fence_or_system(i: &Instr) -> Option<u32>
    ensures round { IfSome result (λ word. instr word ≡ i.now) }
    ensures some { is_some result ≡ (is_fence_or_system i.now && is_encodable i.now) }
    ensures bare { i.now ≡ Fence → result ≡ Some 0x0000000F }
{
    match *i {
        Instr::Fence => Some(FENCE),
        Instr::Ecall => Some(ECALL),
        Instr::Ebreak => Some(EBREAK),
        Instr::ReadCounter { rd, counter } => csr_type(SYSTEM, 2, rd, counter),
        _ => None,
    }
}
