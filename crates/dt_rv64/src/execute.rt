// One instruction carried out, by class.
ghost use Rattle.std.specs.Prelude.{◌≡◌, IfOk, OnErr};
ghost use Rattle.dt_rv64.specs.Machine.{instr_result};
ghost use Rattle.dt_rv64.specs.inner.Registers.{HasRegisters, HasZero};

use crate::atomic::{Operation, Width};
use crate::instruction::Instr;
use crate::machine::{Machine, Step};
use crate::memory::{sign_extended_read_8, sign_extended_read_16, sign_extended_read_32};
use crate::multiply::{div, divu, divuw, divw, mulh, mulhsu, mulhu, mulw, rem, remu, remuw, remw};
use crate::words::{addw, sll, sllw, slt, sltu, sra, sraw, srl, srlw, subw, word_of};
use dt_base::NoMemory;
use dt_base::abi::{SIGILL, SIGTRAP};
use dt_space::PageHint;

impl Machine {
    /// Carries out an instruction. At want of memory the machine stays.
    #[inline(always)]
    #[tactic(auto, unfolding(crate::specs::Machine::instr_result))]
    pub(crate) fn execute(
        &mut self,
        instruction: &Instr,
        data: &mut PageHint,
    ) -> Result<Step, NoMemory>
        requires registers { HasRegisters instruction.now }
        requires zero { HasZero self.old }
        ensures ran { IfOk result (λ step.
            instr_result self.old instruction.now ≡ record { step = step; machine = self.new }) }
        ensures kept { OnErr result (self.new ≡ self.old) }
        ensures zero { HasZero self.new }
    {
        match *instruction {
            Instr::Jal { rd, imm } => Ok(self.jump(rd, self.pc_relative(imm))),
            Instr::Jalr { rd, rs1, imm } => Ok(self.jump_register(rd, rs1, imm)),
            Instr::Fence => Ok(self.advance()),
            Instr::Ecall => Ok(Step::Call),
            Instr::Ebreak => Ok(Step::Fault(SIGTRAP)),
            Instr::ReadCounter { rd, counter: _ } => Ok(Step::Counter(rd)),
            Instr::Unknown => Ok(Step::Fault(SIGILL)),
            Instr::Beq { rs1, rs2, imm } => Ok(self.branch(self.read(rs1) == self.read(rs2), imm)),
            Instr::Bne { rs1, rs2, imm } => Ok(self.branch(self.read(rs1) != self.read(rs2), imm)),
            Instr::Blt { rs1, rs2, imm } => Ok(self.branch(
                self.read(rs1).cast_signed() < self.read(rs2).cast_signed(),
                imm,
            )),
            Instr::Bge { rs1, rs2, imm } => Ok(self.branch(
                self.read(rs1).cast_signed() >= self.read(rs2).cast_signed(),
                imm,
            )),
            Instr::Bltu { rs1, rs2, imm } => Ok(self.branch(self.read(rs1) < self.read(rs2), imm)),
            Instr::Bgeu { rs1, rs2, imm } => Ok(self.branch(self.read(rs1) >= self.read(rs2), imm)),
            Instr::Lb { rd, rs1, imm } => {
                let read = self.space.load1_hinted(data, self.address(rs1, imm));
                Ok(self.finish_load(rd, sign_extended_read_8(read)))
            }
            Instr::Lh { rd, rs1, imm } => {
                let read = self.space.load2_hinted(data, self.address(rs1, imm));
                Ok(self.finish_load(rd, sign_extended_read_16(read)))
            }
            Instr::Lw { rd, rs1, imm } => {
                let read = self.space.load4_hinted(data, self.address(rs1, imm));
                Ok(self.finish_load(rd, sign_extended_read_32(read)))
            }
            Instr::Ld { rd, rs1, imm } => {
                let read = self.space.load8_hinted(data, self.address(rs1, imm));
                Ok(self.finish_load(rd, read))
            }
            Instr::Lbu { rd, rs1, imm } => {
                let read = self.space.load1_hinted(data, self.address(rs1, imm));
                Ok(self.finish_load(rd, read))
            }
            Instr::Lhu { rd, rs1, imm } => {
                let read = self.space.load2_hinted(data, self.address(rs1, imm));
                Ok(self.finish_load(rd, read))
            }
            Instr::Lwu { rd, rs1, imm } => {
                let read = self.space.load4_hinted(data, self.address(rs1, imm));
                Ok(self.finish_load(rd, read))
            }
            Instr::Sb { rs1, rs2, imm } => self.store_1(
                data,
                self.address(rs1, imm),
                self.read(rs2),
            ),
            Instr::Sh { rs1, rs2, imm } => self.store_2(
                data,
                self.address(rs1, imm),
                self.read(rs2),
            ),
            Instr::Sw { rs1, rs2, imm } => self.store_4(
                data,
                self.address(rs1, imm),
                self.read(rs2),
            ),
            Instr::Sd { rs1, rs2, imm } => self.store_8(
                data,
                self.address(rs1, imm),
                self.read(rs2),
            ),
            Instr::LrW { rd, rs1 } => Ok(self.load_reserved(data, Width::Word, rd, rs1)),
            Instr::ScW { rd, rs1, rs2 } => self.store_conditional(data, Width::Word, rd, rs1, rs2),
            Instr::AmoswapW { rd, rs1, rs2 } => self.modify(
                data,
                Width::Word,
                Operation::Swap,
                rd,
                rs1,
                rs2,
            ),
            Instr::AmoaddW { rd, rs1, rs2 } => self.modify(
                data,
                Width::Word,
                Operation::Add,
                rd,
                rs1,
                rs2,
            ),
            Instr::AmoxorW { rd, rs1, rs2 } => self.modify(
                data,
                Width::Word,
                Operation::Xor,
                rd,
                rs1,
                rs2,
            ),
            Instr::AmoandW { rd, rs1, rs2 } => self.modify(
                data,
                Width::Word,
                Operation::And,
                rd,
                rs1,
                rs2,
            ),
            Instr::AmoorW { rd, rs1, rs2 } => self.modify(
                data,
                Width::Word,
                Operation::Or,
                rd,
                rs1,
                rs2,
            ),
            Instr::AmominW { rd, rs1, rs2 } => self.modify(
                data,
                Width::Word,
                Operation::Min,
                rd,
                rs1,
                rs2,
            ),
            Instr::AmomaxW { rd, rs1, rs2 } => self.modify(
                data,
                Width::Word,
                Operation::Max,
                rd,
                rs1,
                rs2,
            ),
            Instr::AmominuW { rd, rs1, rs2 } => self.modify(
                data,
                Width::Word,
                Operation::Minu,
                rd,
                rs1,
                rs2,
            ),
            Instr::AmomaxuW { rd, rs1, rs2 } => self.modify(
                data,
                Width::Word,
                Operation::Maxu,
                rd,
                rs1,
                rs2,
            ),
            Instr::LrD { rd, rs1 } => Ok(self.load_reserved(data, Width::Double, rd, rs1)),
            Instr::ScD { rd, rs1, rs2 } => self.store_conditional(
                data,
                Width::Double,
                rd,
                rs1,
                rs2,
            ),
            Instr::AmoswapD { rd, rs1, rs2 } => self.modify(
                data,
                Width::Double,
                Operation::Swap,
                rd,
                rs1,
                rs2,
            ),
            Instr::AmoaddD { rd, rs1, rs2 } => self.modify(
                data,
                Width::Double,
                Operation::Add,
                rd,
                rs1,
                rs2,
            ),
            Instr::AmoxorD { rd, rs1, rs2 } => self.modify(
                data,
                Width::Double,
                Operation::Xor,
                rd,
                rs1,
                rs2,
            ),
            Instr::AmoandD { rd, rs1, rs2 } => self.modify(
                data,
                Width::Double,
                Operation::And,
                rd,
                rs1,
                rs2,
            ),
            Instr::AmoorD { rd, rs1, rs2 } => self.modify(
                data,
                Width::Double,
                Operation::Or,
                rd,
                rs1,
                rs2,
            ),
            Instr::AmominD { rd, rs1, rs2 } => self.modify(
                data,
                Width::Double,
                Operation::Min,
                rd,
                rs1,
                rs2,
            ),
            Instr::AmomaxD { rd, rs1, rs2 } => self.modify(
                data,
                Width::Double,
                Operation::Max,
                rd,
                rs1,
                rs2,
            ),
            Instr::AmominuD { rd, rs1, rs2 } => self.modify(
                data,
                Width::Double,
                Operation::Minu,
                rd,
                rs1,
                rs2,
            ),
            Instr::AmomaxuD { rd, rs1, rs2 } => self.modify(
                data,
                Width::Double,
                Operation::Maxu,
                rd,
                rs1,
                rs2,
            ),
            Instr::Lui { rd, imm } => Ok(self.put(rd, word_of(imm))),
            Instr::Auipc { rd, imm } => Ok(self.put(rd, self.pc_relative(imm))),
            Instr::Addi { rd, rs1, imm } => Ok(self.put(
                rd,
                self.read(rs1).wrapping_add(word_of(imm)),
            )),
            Instr::Slti { rd, rs1, imm } => Ok(self.put(rd, slt(self.read(rs1), word_of(imm)))),
            Instr::Sltiu { rd, rs1, imm } => Ok(self.put(rd, sltu(self.read(rs1), word_of(imm)))),
            Instr::Xori { rd, rs1, imm } => Ok(self.put(rd, self.read(rs1) ^ word_of(imm))),
            Instr::Ori { rd, rs1, imm } => Ok(self.put(rd, self.read(rs1) | word_of(imm))),
            Instr::Andi { rd, rs1, imm } => Ok(self.put(rd, self.read(rs1) & word_of(imm))),
            Instr::Slli { rd, rs1, shift } => Ok(self.put(
                rd,
                sll(self.read(rs1), u64::from(shift)),
            )),
            Instr::Srli { rd, rs1, shift } => Ok(self.put(
                rd,
                srl(self.read(rs1), u64::from(shift)),
            )),
            Instr::Srai { rd, rs1, shift } => Ok(self.put(
                rd,
                sra(self.read(rs1), u64::from(shift)),
            )),
            Instr::Add { rd, rs1, rs2 } => Ok(self.put(
                rd,
                self.read(rs1).wrapping_add(self.read(rs2)),
            )),
            Instr::Sub { rd, rs1, rs2 } => Ok(self.put(
                rd,
                self.read(rs1).wrapping_sub(self.read(rs2)),
            )),
            Instr::Sll { rd, rs1, rs2 } => Ok(self.put(rd, sll(self.read(rs1), self.read(rs2)))),
            Instr::Slt { rd, rs1, rs2 } => Ok(self.put(rd, slt(self.read(rs1), self.read(rs2)))),
            Instr::Sltu { rd, rs1, rs2 } => Ok(self.put(rd, sltu(self.read(rs1), self.read(rs2)))),
            Instr::Xor { rd, rs1, rs2 } => Ok(self.put(rd, self.read(rs1) ^ self.read(rs2))),
            Instr::Srl { rd, rs1, rs2 } => Ok(self.put(rd, srl(self.read(rs1), self.read(rs2)))),
            Instr::Sra { rd, rs1, rs2 } => Ok(self.put(rd, sra(self.read(rs1), self.read(rs2)))),
            Instr::Or { rd, rs1, rs2 } => Ok(self.put(rd, self.read(rs1) | self.read(rs2))),
            Instr::And { rd, rs1, rs2 } => Ok(self.put(rd, self.read(rs1) & self.read(rs2))),
            Instr::Addiw { rd, rs1, imm } => Ok(self.put(rd, addw(self.read(rs1), word_of(imm)))),
            Instr::Slliw { rd, rs1, shift } => Ok(self.put(
                rd,
                sllw(self.read(rs1), u64::from(shift)),
            )),
            Instr::Srliw { rd, rs1, shift } => Ok(self.put(
                rd,
                srlw(self.read(rs1), u64::from(shift)),
            )),
            Instr::Sraiw { rd, rs1, shift } => Ok(self.put(
                rd,
                sraw(self.read(rs1), u64::from(shift)),
            )),
            Instr::Addw { rd, rs1, rs2 } => Ok(self.put(rd, addw(self.read(rs1), self.read(rs2)))),
            Instr::Subw { rd, rs1, rs2 } => Ok(self.put(rd, subw(self.read(rs1), self.read(rs2)))),
            Instr::Sllw { rd, rs1, rs2 } => Ok(self.put(rd, sllw(self.read(rs1), self.read(rs2)))),
            Instr::Srlw { rd, rs1, rs2 } => Ok(self.put(rd, srlw(self.read(rs1), self.read(rs2)))),
            Instr::Sraw { rd, rs1, rs2 } => Ok(self.put(rd, sraw(self.read(rs1), self.read(rs2)))),
            Instr::Mul { rd, rs1, rs2 } => Ok(self.put(
                rd,
                self.read(rs1).wrapping_mul(self.read(rs2)),
            )),
            Instr::Mulh { rd, rs1, rs2 } => Ok(self.put(rd, mulh(self.read(rs1), self.read(rs2)))),
            Instr::Mulhsu { rd, rs1, rs2 } => Ok(self.put(
                rd,
                mulhsu(self.read(rs1), self.read(rs2)),
            )),
            Instr::Mulhu { rd, rs1, rs2 } => Ok(self.put(
                rd,
                mulhu(self.read(rs1), self.read(rs2)),
            )),
            Instr::Div { rd, rs1, rs2 } => Ok(self.put(rd, div(self.read(rs1), self.read(rs2)))),
            Instr::Divu { rd, rs1, rs2 } => Ok(self.put(rd, divu(self.read(rs1), self.read(rs2)))),
            Instr::Rem { rd, rs1, rs2 } => Ok(self.put(rd, rem(self.read(rs1), self.read(rs2)))),
            Instr::Remu { rd, rs1, rs2 } => Ok(self.put(rd, remu(self.read(rs1), self.read(rs2)))),
            Instr::Mulw { rd, rs1, rs2 } => Ok(self.put(rd, mulw(self.read(rs1), self.read(rs2)))),
            Instr::Divw { rd, rs1, rs2 } => Ok(self.put(rd, divw(self.read(rs1), self.read(rs2)))),
            Instr::Divuw { rd, rs1, rs2 } => Ok(self.put(
                rd,
                divuw(self.read(rs1), self.read(rs2)),
            )),
            Instr::Remw { rd, rs1, rs2 } => Ok(self.put(rd, remw(self.read(rs1), self.read(rs2)))),
            Instr::Remuw { rd, rs1, rs2 } => Ok(self.put(
                rd,
                remuw(self.read(rs1), self.read(rs2)),
            )),
        }
    }
}
