// The frame of a handler, on its stack.
ghost use Rattle.std.specs.Prelude.{◌≡◌, ℕ, ◌≤◌, ◌<◌, ◌+◌, ◌^◌, ◌∷◌, length, drop, slice_index};
ghost use Rattle.dt_base.specs.Bytes.{with_bytes_at};
ghost use Rattle.dt_space.specs.Space.{IsBytes};
ghost use Rattle.dt_elf.specs.Stack.{word_bytes};
ghost use Rattle.dt_signals.specs.Frame.{frame_of, frame_address, word_in, words_in};

use crate::numbers::{FRAME_ALIGN, FRAME_MASK, FRAME_PC, FRAME_REGISTERS, FRAME_SIZE};
use dt_base::{get64, put32, put64};
use dt_rv64::Machine;

/// The frame of a handler of a signal, with the machine's program counter and registers and a mask.
pub(crate) fn frame_of(signal: u8, machine: &Machine, mask: u64) -> [u8; FRAME_SIZE]
    ensures frame { result ≡ frame_of signal machine.now mask }
    ensures bytes { IsBytes result }
{
    let mut frame = [0; FRAME_SIZE];
    put32(&mut frame, 0, u32::from(signal));
    put64(&mut frame, FRAME_PC, machine.pc);
    put_registers(&mut frame, &machine.regs);
    put64(&mut frame, FRAME_MASK, mask);
    frame
}

// Puts all registers but x0 into a frame.
fn put_registers(frame: &mut [u8; FRAME_SIZE], registers: &[u64; 32])
    ensures put { frame.new ≡ with_bytes_at frame.old FRAME_REGISTERS (word_bytes (drop 1 registers.now)) }
    ensures up_to_mask { FRAME_REGISTERS + length (word_bytes (drop 1 registers.now)) ≡ FRAME_MASK }
{
    for index in 1..32 {
        put64(frame, FRAME_REGISTERS + 8 * (index - 1), registers[index]);
    }
}

/// Where the frame stands for a stack pointer.
pub(crate) fn frame_address(pointer: u64) -> u64
    ensures { result ≡ frame_address pointer }
{
    let low = pointer.wrapping_sub(FRAME_SIZE as u64);
    low - low % FRAME_ALIGN
}

/// The registers that a frame keeps.
pub(crate) fn registers_in(frame: &[u8; FRAME_SIZE]) -> [u64; 32]
    ensures registers { result ≡ 0 ∷ words_in frame.now FRAME_REGISTERS 31 }
    ensures words { (i : ℕ) → slice_index result i < 2 ^ 64 }
{
    let mut registers = [0; 32];
    for index in 1..32 {
        registers[index] = word_in(frame, FRAME_REGISTERS + 8 * (index - 1));
    }
    registers
}

/// The word of 64 bits at an offset of a frame.
pub(crate) fn word_in(frame: &[u8], offset: usize) -> u64
    requires { offset + 8 ≤ length frame.now }
    ensures { result ≡ word_in frame.now offset }
{
    get64(frame, offset).unwrap_or(0)
}
