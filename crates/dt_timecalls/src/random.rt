//! The call that draws random bytes (getrandom(2)).
ghost use Rattle.std.specs.Prelude.{IsOk};
ghost use Rattle.dt_timecalls.specs.Random.{draw_reply, getrandom_row};
ghost use Rattle.dt_callbase.specs.Sound.{Sound, HasRowReply, HasReplyOf, stage};
ghost use Rattle.dt_space.specs.declared.access.TheConstants.{WRITE};
ghost use Rattle.dt_space.specs.Space.{load};

use dt_base::abi::{GRND_ALL, byte_count, low_word};
use dt_base::{Answer, Caller, Errno};
use dt_callbase::Fs;
use dt_host::{Host, HostErr};
use dt_space::{Space, WriteErr};
use std::alloc::Global;

/// getrandom(2): fills a buffer with the next bytes of the seed's words, and answers how many these are: the length,
/// cut to what one call moves at most. The errors are EINVAL (a flag that is none of its own) and EFAULT.
#[tactic(auto, unfolding(crate::specs::Random::getrandom_row), using(crate::proofs::Drawn::draws_bytes, crate::proofs::Kept::in_other_words))]
pub fn getrandom<H: Host>(
    alloc: Global,
    fs: &mut Fs,
    host: &mut H,
    caller: &Caller,
    space: &mut Space,
    args: [u64; 6],
) -> Result<Answer, HostErr>
    requires { Sound (stage fs.old (H.view host.old) caller.now space.old) }
    ensures { HasRowReply getrandom_row args (stage fs.old (H.view host.old) caller.now space.old)
        (stage fs.new (H.view host.new) caller.now space.new) result
        (H.count host.old) (H.count host.new) }
{
    let _before = host.faults();
    if low_word(args[2]) > GRND_ALL {
        return Ok(Answer::Refused(Errno::Inval));
    }
    let count = byte_count(args[1]);
    // Before a buffer is made, since the count may be near 2 GiB, and a process has 64 MiB at most.
    if space.writable(args[0], count).is_err() {
        return Ok(Answer::Refused(Errno::Fault));
    }
    draw(alloc, fs, host, caller, space, args[0], count)
}

// Fills a buffer that may be written with the next bytes.
#[tactic(auto, using(crate::proofs::Drawn::draws_bytes))]
fn draw<H: Host>(
    alloc: Global,
    fs: &mut Fs,
    host: &mut H,
    caller: &Caller,
    space: &mut Space,
    buffer: u64,
    count: u64,
) -> Result<Answer, HostErr>
    requires sound { Sound (stage fs.old (H.view host.old) caller.now space.old) }
    requires room { IsOk (load space.old WRITE buffer count) }
    ensures { HasReplyOf (draw_reply buffer count) (stage fs.old (H.view host.old) caller.now space.old)
        (stage fs.new (H.view host.new) caller.now space.new) result
        (H.count host.old) (H.count host.new) }
{
    let _before = host.faults();
    let mut bytes = vec![in alloc; 0; count as usize]?;
    fs.rand.fill(&mut bytes);
    match space.write_bytes(buffer, &bytes) {
        Ok(()) => Ok(Answer::Value(count)),
        Err(WriteErr::Miss(_)) => unreachable!(),
        Err(WriteErr::NoMemory) => Err(HostErr::NoMemory),
    }
}
