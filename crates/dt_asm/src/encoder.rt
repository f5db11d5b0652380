// The word of an instruction.
ghost use Rattle.std.specs.Prelude.{◌≡◌, ◌&&◌, is_some, IfSome, Some};
ghost use Rattle.dt_rv64.specs.declared.instruction.Instr.TheVariants.{Fence};
ghost use Rattle.dt_rv64.specs.Instruction.{instr};
ghost use Rattle.dt_asm.specs.Fits.{is_encodable};
ghost use Rattle.dt_asm.specs.inner.Classes.{is_computational, is_computational_32, is_computational_or_atomic};

use crate::classes::{
    atomic_32, atomic_64, branch, fence_or_system, load, lui_auipc_or_jump, op, op_32,
    op_32_multiply, op_immediate, op_immediate_32, op_multiply, store,
};
use dt_rv64::Instr;

/// The word of an instruction, for FENCE that without other fields; `None` exactly where a field is out of its range,
/// or the instruction is `Unknown`.
pub fn encode(i: &Instr) -> Option<u32>
    ensures round { IfSome result (λ word. instr word ≡ i.now) }
    ensures some { is_some result ≡ is_encodable i.now }
    ensures bare { i.now ≡ Fence → result ≡ Some 0x0000000F }
{
    match i {
        Instr::Lui { .. } | Instr::Auipc { .. } | Instr::Jal { .. } | Instr::Jalr { .. } =>
            lui_auipc_or_jump(i),
        Instr::Beq { .. }
        | Instr::Bne { .. }
        | Instr::Blt { .. }
        | Instr::Bge { .. }
        | Instr::Bltu { .. }
        | Instr::Bgeu { .. } => branch(i),
        Instr::Lb { .. }
        | Instr::Lh { .. }
        | Instr::Lw { .. }
        | Instr::Ld { .. }
        | Instr::Lbu { .. }
        | Instr::Lhu { .. }
        | Instr::Lwu { .. } => load(i),
        Instr::Sb { .. } | Instr::Sh { .. } | Instr::Sw { .. } | Instr::Sd { .. } => store(i),
        Instr::Fence | Instr::Ecall | Instr::Ebreak | Instr::ReadCounter { .. } => fence_or_system(
            i,
        ),
        Instr::Unknown => None,
        _ => computational_or_atomic(i),
    }
}

// The word of an instruction that computes a register or changes memory in one step.
fn computational_or_atomic(i: &Instr) -> Option<u32>
    ensures round { IfSome result (λ word. instr word ≡ i.now) }
    ensures some { is_some result ≡ (is_computational_or_atomic i.now && is_encodable i.now) }
{
    match i {
        Instr::LrW { .. }
        | Instr::ScW { .. }
        | Instr::AmoswapW { .. }
        | Instr::AmoaddW { .. }
        | Instr::AmoxorW { .. }
        | Instr::AmoandW { .. }
        | Instr::AmoorW { .. }
        | Instr::AmominW { .. }
        | Instr::AmomaxW { .. }
        | Instr::AmominuW { .. }
        | Instr::AmomaxuW { .. } => atomic_32(i),
        Instr::LrD { .. }
        | Instr::ScD { .. }
        | Instr::AmoswapD { .. }
        | Instr::AmoaddD { .. }
        | Instr::AmoxorD { .. }
        | Instr::AmoandD { .. }
        | Instr::AmoorD { .. }
        | Instr::AmominD { .. }
        | Instr::AmomaxD { .. }
        | Instr::AmominuD { .. }
        | Instr::AmomaxuD { .. } => atomic_64(i),
        _ => computational(i),
    }
}

// The word of an instruction that computes a register from registers or an immediate (RISC-V unprivileged
// specification, "Integer Computational Instructions", and M).
fn computational(i: &Instr) -> Option<u32>
    ensures round { IfSome result (λ word. instr word ≡ i.now) }
    ensures some { is_some result ≡ (is_computational i.now && is_encodable i.now) }
{
    match i {
        Instr::Addi { .. }
        | Instr::Slti { .. }
        | Instr::Sltiu { .. }
        | Instr::Xori { .. }
        | Instr::Ori { .. }
        | Instr::Andi { .. }
        | Instr::Slli { .. }
        | Instr::Srli { .. }
        | Instr::Srai { .. } => op_immediate(i),
        Instr::Add { .. }
        | Instr::Sll { .. }
        | Instr::Slt { .. }
        | Instr::Sltu { .. }
        | Instr::Xor { .. }
        | Instr::Srl { .. }
        | Instr::Or { .. }
        | Instr::And { .. }
        | Instr::Sub { .. }
        | Instr::Sra { .. } => op(i),
        Instr::Mul { .. }
        | Instr::Mulh { .. }
        | Instr::Mulhsu { .. }
        | Instr::Mulhu { .. }
        | Instr::Div { .. }
        | Instr::Divu { .. }
        | Instr::Rem { .. }
        | Instr::Remu { .. } => op_multiply(i),
        _ => computational_32(i),
    }
}

// Of those, one that computes 32 bits and sign-extends them.
fn computational_32(i: &Instr) -> Option<u32>
    ensures round { IfSome result (λ word. instr word ≡ i.now) }
    ensures some { is_some result ≡ (is_computational_32 i.now && is_encodable i.now) }
{
    match i {
        Instr::Addiw { .. } | Instr::Slliw { .. } | Instr::Srliw { .. } | Instr::Sraiw { .. } =>
            op_immediate_32(i),
        Instr::Addw { .. }
        | Instr::Sllw { .. }
        | Instr::Srlw { .. }
        | Instr::Subw { .. }
        | Instr::Sraw { .. } => op_32(i),
        Instr::Mulw { .. }
        | Instr::Divw { .. }
        | Instr::Divuw { .. }
        | Instr::Remw { .. }
        | Instr::Remuw { .. } => op_32_multiply(i),
        _ => None,
    }
}
