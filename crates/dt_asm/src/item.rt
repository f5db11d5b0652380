// What a guest is built of.
ghost use Rattle.std.specs.Prelude.{◌≡◌};
ghost use Rattle.dt_asm.specs.Item.{item_size};

use dt_base::Blob;
use dt_rv64::Instr;

/// A part of a guest.
#[derive(Debug, Drop)]
pub enum Item {
    /// An instruction.
    Code(Instr),
    /// The branch with this funct3, to a label.
    Branch {
        funct3: u8,
        rs1: u8,
        rs2: u8,
        label: u32,
    },
    /// A jump to a label.
    Jump(u32),
    /// Bytes as they are.
    Bytes(Blob),
    /// The offset that a label stands for, where the next item begins.
    Label(u32),
}

impl Item {
    /// How many bytes it takes: 4 for an instruction, none for a label.
    pub fn size(&self) -> u64
        ensures { result ≡ item_size self.now }
    {
        match self {
            Item::Code(_) | Item::Branch { .. } | Item::Jump(_) => 4,
            Item::Bytes(bytes) => bytes.len() as u64,
            Item::Label(_) => 0,
        }
    }
}
