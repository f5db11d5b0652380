//! Laws between crates: what one says of a thing, the other says too.
#![tactic(auto)]

ghost use Rattle.std.specs.Prelude.{◌≡◌, IfErr, IfOk, IsOk, None, OnOk};
ghost use Rattle.dt_asm.specs.File.{IsFileOf, IsRefusal};
ghost use Rattle.dt_asm.specs.Refusal.{refusal_of};
ghost use Rattle.dt_elf.specs.Executable.{exe};

use dt_asm::{AsmErr, Guest};

/// The file of a guest, which the loader of executables accepts.
pub fn executable(guest: &Guest) -> Result<Vec<u8>, AsmErr>
    ensures file { IfOk result (λ file. IsFileOf guest.now file.items) }
    ensures executable { IfOk result (λ file. IsOk (exe file.items)) }
    ensures sound { OnOk result (refusal_of guest.now.items ≡ None) }
    ensures refused { IfErr result (IsRefusal guest.now.items) }
{
    guest.elf()
}
