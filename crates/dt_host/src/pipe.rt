// One transfer of everything out of a pipe or into one, whatever part each call moves.
ghost use Rattle.std.specs.Prelude.{◌+◌, ◌≤◌, length, IsErrOf};
ghost use Rattle.dt_host.specs.Cause.{HasCause};
ghost use Rattle.dt_host.specs.World.{IsPipe, pipe_bytes};
ghost use Rattle.dt_host.specs.Legal.{TakesAll, PutsAll};

use crate::error::HostErr;
use crate::host::Host;
use dt_base::PIPE_LIMIT;

/// Takes the oldest bytes that a pipe holds until the buffer is full or the pipe is empty, and answers how many came.
/// After an error some of them may be gone from the pipe.
pub fn take_whole<H: Host>(host: &mut H, ino: u64, buf: &mut [u8]) -> Result<usize, HostErr>
    requires { IsPipe (H.view host.old) ino }
    ensures legal { TakesAll (H.view host.old) ino buf.old buf.new result (H.view host.new) }
    ensures cause { HasCause (H.count host.old) (H.count host.new) (IsErrOf result HostErr.Failed) }
{
    let _before = host.faults();
    let mut done = 0;
    while done < buf.len() {
        let (_, rest) = buf.split_at_mut(done);
        let moved = host.pipe_take(ino, rest)?;
        if moved == 0 {
            return Ok(done);
        }
        done += moved;
    }
    Ok(done)
}

/// Puts all of `bytes` into a pipe. After an error a prefix of them may have been put there.
pub fn put_whole<H: Host>(host: &mut H, ino: u64, bytes: &[u8]) -> Result<(), HostErr>
    requires pipe { IsPipe (H.view host.old) ino }
    requires fits { length (pipe_bytes (H.view host.old) ino) + length bytes.now ≤ PIPE_LIMIT }
    ensures legal { PutsAll (H.view host.old) ino bytes.now result (H.view host.new) }
    ensures cause { HasCause (H.count host.old) (H.count host.new) (IsErrOf result HostErr.Failed) }
{
    let mut done = 0;
    while done < bytes.len() {
        let (_, rest) = bytes.split_at(done);
        done += host.pipe_put(ino, rest)?;
    }
    Ok(())
}
