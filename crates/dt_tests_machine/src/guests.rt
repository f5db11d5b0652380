// Guests that become executables, and guests that are refused.
ghost use Rattle.std.specs.Prelude.{◌≡◌, None};
ghost use Rattle.dt_asm.specs.Refusal.{refusal_of};

use crate::expect::same;
use dt_asm::{Guest, hello};
use dt_laws::executable;
use std::test::Fail;

// The number of what is wrong with a guest: None only where nothing is.
fn refusal(guest: &Guest) -> Option<u8>
    ensures { result ≡ None → refusal_of guest.now.items ≡ None }
{
    match executable(guest) {
        Ok(_) => None,
        Err(error) => Some(error.number()),
    }
}

#[test]
fn a_guest_becomes_an_executable_or_is_refused(rt: HostRuntime) -> Result<(), Fail> {
    let alloc = rt.alloc();
    let mut lost = Guest::new(alloc);
    lost.jump(7)?;
    let mut twice = Guest::new(alloc);
    twice.label(7)?;
    twice.label(7)?;
    same(&rt, refusal(&hello(alloc)?), None);
    same(&rt, refusal(&lost), Some(1));
    same(&rt, refusal(&twice), Some(2));
    Ok(())
}
