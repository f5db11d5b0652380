// Buffers that are filled.
ghost use Rattle.std.specs.Prelude.{◌≡◌};
ghost use Rattle.dt_callbase.specs.Filling.{fill_reply};
ghost use Rattle.dt_callbase.specs.Sound.{Sound, HasReply, stage, scene};

use crate::fs::Fs;
use dt_base::{Answer, Caller, Errno};
use dt_host::{Host, HostErr};
use dt_space::{Space, WriteErr};

/// Fills a buffer, and answers this value: EFAULT where one of its bytes may not be written.
pub fn fill<H: Host>(
    fs: &Fs,
    host: &H,
    caller: &Caller,
    space: &mut Space,
    buffer: u64,
    bytes: &[u8],
    value: u64,
) -> Result<Answer, HostErr>
    requires { Sound (stage fs.now (H.view host.now) caller.now space.old) }
    ensures { HasReply (fill_reply (scene (stage fs.now (H.view host.now) caller.now space.old)) buffer bytes.now value)
        (stage fs.now (H.view host.now) caller.now space.old) (stage fs.now (H.view host.now) caller.now space.new)
        result (H.count host.now) (H.count host.now) }
{
    match space.write_bytes(buffer, bytes) {
        Ok(()) => Ok(Answer::Value(value)),
        Err(WriteErr::Miss(_)) => Ok(Answer::Refused(Errno::Fault)),
        Err(WriteErr::NoMemory) => Err(HostErr::NoMemory),
    }
}
