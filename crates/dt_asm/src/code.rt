// The code of a guest: its items in order, their labels resolved.
ghost use Rattle.std.specs.Prelude.{◌≡◌, ◌<◌, ◌^◌, ℕ, false, true, IfOk, IfErr, OnOk, length};
ghost use Rattle.std.specs.List.{list_any};
ghost use Rattle.dt_asm.specs.Item.{total_size, pieces_of, piece_of, branch_by, word, item_size};
ghost use Rattle.dt_asm.specs.Refusal.{is_bad};
ghost use Rattle.dt_asm.specs.Code.{AreSpelled};
ghost use Rattle.dt_asm.specs.inner.Adding.{IsAdded, IsFieldRefusal};

use crate::encoder::encode;
use crate::error::AsmErr;
use crate::item::Item;
use crate::labels::distance;
use dt_rv64::Instr;
use std::alloc::Global;

/// The bytes of the items in order, with their labels resolved; `BadField` where no word holds one of the instructions.
pub fn code_of(alloc: Global, items: &[Item]) -> Result<Vec<u8>, AsmErr>
    requires { total_size items.now < 2 ^ 63 }
    ensures spelled { IfOk result (λ code. AreSpelled (pieces_of items.now) code.items) }
    ensures size { IfOk result (λ code. length code.items ≡ total_size items.now) }
    ensures good { OnOk result (list_any is_bad (pieces_of items.now) ≡ false) }
    ensures refused { IfErr result (IsFieldRefusal (list_any is_bad (pieces_of items.now))) }
{
    let mut code = Vec::new(alloc);
    let mut at = 0;
    for item in items {
        add_item(&mut code, items, at, item)?;
        at += item.size();
    }
    Ok(code)
}

// Adds the bytes of an item at an offset.
fn add_item(code: &mut Vec<u8>, items: &[Item], at: u64, item: &Item) -> Result<(), AsmErr>
    requires small { total_size items.now < 2 ^ 63 }
    requires inside { at < 2 ^ 63 }
    ensures added { OnOk result (IsAdded (piece_of items.now at item.now) code.old.items code.new.items) }
    ensures good { OnOk result (is_bad (piece_of items.now at item.now) ≡ false) }
    ensures refused { IfErr result (IsFieldRefusal (is_bad (piece_of items.now at item.now))) }
{
    match item {
        Item::Code(i) => add_word(code, i),
        Item::Branch {
            funct3,
            rs1,
            rs2,
            label,
        } => {
            let offset = distance(items, at, *label);
            add_word(code, &branch_by(*funct3, *rs1, *rs2, offset))
        }
        Item::Jump(label) => {
            let imm = distance(items, at, *label);
            add_word(code, &Instr::Jal { rd: 0, imm })
        }
        Item::Bytes(bytes) => Ok(code.extend_from_slice(bytes.as_slice())?),
        Item::Label(_) => Ok(()),
    }
}

// Adds an instruction's word.
fn add_word(code: &mut Vec<u8>, i: &Instr) -> Result<(), AsmErr>
    ensures added { OnOk result (IsAdded (word i.now) code.old.items code.new.items) }
    ensures good { OnOk result (is_bad (word i.now) ≡ false) }
    ensures refused { IfErr result (IsFieldRefusal (is_bad (word i.now))) }
{
    let Some(word) = encode(i) else {
        return Err(AsmErr::BadField);
    };
    code.extend_from_slice(&word.to_le_bytes())?;
    Ok(())
}

// The branch with a funct3.
fn branch_by(funct3: u8, rs1: u8, rs2: u8, imm: i64) -> Instr
    ensures { result ≡ branch_by funct3 rs1 rs2 imm }
{
    match funct3 {
        0 => Instr::Beq { rs1, rs2, imm },
        1 => Instr::Bne { rs1, rs2, imm },
        4 => Instr::Blt { rs1, rs2, imm },
        5 => Instr::Bge { rs1, rs2, imm },
        6 => Instr::Bltu { rs1, rs2, imm },
        7 => Instr::Bgeu { rs1, rs2, imm },
        _ => Instr::Unknown,
    }
}
