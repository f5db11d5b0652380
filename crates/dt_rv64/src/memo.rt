// Words decoded before.
ghost use Rattle.std.specs.Prelude.{◌≡◌, ◌<◌};
ghost use Rattle.dt_rv64.specs.Instruction.{instr};
ghost use Rattle.dt_rv64.specs.inner.Memo.{word_at};
ghost use Rattle.dt_rv64.specs.inner.Registers.{HasRegisters};

use crate::decoder::decode;
use crate::instruction::Instr;
use std::marker::Model;

/// How many entries a memo has.
const ENTRIES: usize = 1024;

// A word with its instruction.
#[derive(Clone, Copy, Debug)]
pub struct Entry {
    word: u32,
    instruction: Instr,
}

/// Words whose instructions are known. What a word is depends on nothing else, so an entry stays right for ever.
#[derive(Debug, Drop)]
pub struct Memo {
    entries: [Entry; ENTRIES],
}

impl Model for Memo {
    ghost use Rattle.std.specs.Prelude.{◌≡◌, List, length};
    ghost use Rattle.dt_rv64.specs.declared.memo.Entry.{Entry};
    ghost use Rattle.dt_rv64.specs.declared.memo.TheConstants.{ENTRIES};
    ghost use Rattle.dt_rv64.specs.inner.Memo.{AreDecoded};

    ghost Value = { List Entry };

    ghost view = { λ m. m.entries };

    ghost invariant = { λ m. AreDecoded m.entries };
}

impl Memo {
    /// A memo of nothing yet: each entry is that of the word 0.
    pub fn new() -> Self {
        Memo {
            entries: [Entry {
                word: 0,
                instruction: Instr::Unknown,
            }; ENTRIES],
        }
    }

    /// The index of a word's entry. If another word stands there, this one is decoded and takes its place.
    #[inline(always)]
    pub fn index(&mut self, word: u32) -> usize
        ensures within { result < ENTRIES }
        ensures is { word_at self.new result ≡ word }
    {
        let index = (word.wrapping_mul(0x9e37_79b1) >> 22) as usize;
        if self.entries[index].word != word {
            self.keep(index, word);
        }
        index
    }

    // Decodes a word, and keeps it in an entry.
    #[inline(never)]
    fn keep(&mut self, index: usize, word: u32)
        requires { index < ENTRIES }
        ensures { word_at self.new index ≡ word }
    {
        let instruction = decode(word);
        self.entries[index] = Entry { word, instruction };
    }

    /// The instruction of the word that stands at an index.
    #[inline(always)]
    pub fn instruction(&self, index: usize) -> &Instr
        requires { index < ENTRIES }
        ensures is { result.now ≡ instr (word_at self.now index) }
        ensures registers { HasRegisters result.now }
    {
        &self.entries[index].instruction
    }
}
