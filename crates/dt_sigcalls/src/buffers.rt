// Buffers that a call fills.
ghost use Rattle.std.specs.Prelude.{◌≡◌, MatchResult, Ok, OnErr};
ghost use Rattle.dt_space.specs.Space.{IsSpace};
ghost use Rattle.dt_space.specs.Write.{IsWriteErr};
ghost use Rattle.dt_sigcalls.specs.Called.{after_store_unless_null};

use dt_space::{Space, WriteErr};

/// Puts bytes into a buffer, unless its address is 0. At an error the space stays.
pub(crate) fn store_unless_null(
    space: &mut Space,
    address: u64,
    bytes: &[u8],
) -> Result<(), WriteErr>
    ensures told { MatchResult result
        (λ _. after_store_unless_null space.old address bytes.now ≡ Ok space.new)
        (IsWriteErr (after_store_unless_null space.old address bytes.now)) }
    ensures kept { OnErr result (space.new ≡ space.old) }
    ensures sound { IsSpace space.new }
{
    let _sound = space.pages();
    if address == 0 {
        return Ok(());
    }
    space.write_bytes(address, bytes)
}
