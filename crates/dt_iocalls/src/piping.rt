//! Pipes in calls: pipe2(2), and what a read or a write of a pipe answers.
ghost use Rattle.std.specs.Prelude.{◌≡◌, Some, IsOk};
ghost use Rattle.dt_base.specs.Abi.{low_word};
ghost use Rattle.dt_fds.specs.Descriptions.{table_at, two_free};
ghost use Rattle.dt_space.specs.Write.{pages_after_store};
ghost use Rattle.dt_iocalls.specs.Piping.{broken_write, pair_bytes, pipe_reply, pipe2_row};
ghost use Rattle.dt_iocalls.specs.inner.Answered.{pipe_answer};
ghost use Rattle.dt_callbase.specs.Sound.{Sound, HasRowReply, HasReplyOf, stage};

use dt_base::abi::{O_CLOEXEC, O_NONBLOCK, low_word};
use dt_base::{Answer, Caller, Errno, put32};
use dt_callbase::Fs;
use dt_fds::Flow;
use dt_host::{CallErr, Host, HostErr};
use dt_pipes::PIPE_NUMBER_LIMIT;
use dt_space::{Space, WriteErr};

/// Bytes of the two descriptors that pipe2(2) tells.
const PAIR_LEN: usize = 8;

/// Where the second of them stands.
const SECOND: usize = 4;

/// The answer of a read or a write of a pipe, unless the host failed or memory was wanting.
pub(crate) fn pipe_answer(flow: Result<Flow, CallErr>) -> Result<Answer, HostErr>
    ensures { result ≡ pipe_answer flow }
{
    match flow {
        Ok(Flow::Moved(count)) => Ok(Answer::Value(count)),
        Ok(Flow::Part(count)) => Ok(Answer::Part(count)),
        Ok(Flow::Broken(count)) => Ok(Answer::Pipe(broken_write(count))),
        Ok(Flow::Wait) => Ok(Answer::Waits),
        Err(CallErr::Errno(errno)) => Ok(Answer::Refused(errno)),
        Err(CallErr::Host(error)) => Err(error),
    }
}

// What a write answers that nobody reads.
fn broken_write(count: u64) -> Result<u64, Errno>
    ensures { result ≡ broken_write count }
{
    if count == 0 {
        Err(Errno::Pipe)
    } else {
        Ok(count)
    }
}

/// pipe2(2): makes a pipe, and puts the descriptors of its ends into a buffer, 4 bytes each: first the one that is read
/// from. They are the two lowest free ones. The errors are EINVAL (a flag that is neither O_CLOEXEC nor O_NONBLOCK),
/// EMFILE (not two are free), and EFAULT.
#[tactic(auto, unfolding(crate::specs::Piping::pipe2_row))]
pub fn pipe2<H: Host>(
    fs: &mut Fs,
    host: &mut H,
    caller: &Caller,
    space: &mut Space,
    args: [u64; 6],
) -> Result<Answer, HostErr>
    requires { Sound (stage fs.old (H.view host.old) caller.now space.old) }
    ensures { HasRowReply pipe2_row args (stage fs.old (H.view host.old) caller.now space.old)
        (stage fs.new (H.view host.new) caller.now space.new) result
        (H.count host.old) (H.count host.new) }
{
    let _before = host.faults();
    let (buffer, flags) = (args[0], low_word(args[1]));
    let known = O_CLOEXEC | O_NONBLOCK;
    if flags | known != known {
        return Ok(Answer::Refused(Errno::Inval));
    }
    let Some(ends) = fs.files.two_free(caller.vpid) else {
        return Ok(Answer::Refused(Errno::MFile));
    };
    let bytes = pair_bytes(ends);
    if space.writable(buffer, PAIR_LEN as u64).is_err() {
        return Ok(Answer::Refused(Errno::Fault));
    }
    make_pipe(fs, host, caller, space, buffer, flags, ends, bytes)
}

// Makes a pipe whose ends stand under these descriptors, and tells them.
fn make_pipe<H: Host>(
    fs: &mut Fs,
    host: &mut H,
    caller: &Caller,
    space: &mut Space,
    buffer: u64,
    flags: u32,
    ends: (u32, u32),
    bytes: [u8; PAIR_LEN],
) -> Result<Answer, HostErr>
    requires sound { Sound (stage fs.old (H.view host.old) caller.now space.old) }
    requires free { two_free (table_at fs.old.files.descriptors caller.now.vpid) ≡ Some ends }
    requires bytes { bytes ≡ pair_bytes ends }
    requires may { IsOk (pages_after_store space.old buffer bytes) }
    ensures { HasReplyOf (λ s. pipe_reply s buffer flags (Some ends))
        (stage fs.old (H.view host.old) caller.now space.old)
        (stage fs.new (H.view host.new) caller.now space.new) result
        (H.count host.old) (H.count host.new) }
{
    let _before = host.faults();
    if fs.files.pipes.next() >= PIPE_NUMBER_LIMIT {
        return Err(HostErr::NoMemory);
    }
    match fs.files.pipe(host, caller.vpid, flags) {
        Ok(_) => {}
        Err(CallErr::Errno(_)) => unreachable!(),
        Err(CallErr::Host(error)) => return Err(error),
    }
    match space.write_bytes(buffer, &bytes) {
        Ok(()) => Ok(Answer::Value(0)),
        Err(WriteErr::Miss(_)) => unreachable!(),
        Err(WriteErr::NoMemory) => Err(HostErr::NoMemory),
    }
}

// Two descriptors as they stand in memory.
fn pair_bytes(ends: (u32, u32)) -> [u8; PAIR_LEN]
    ensures { result ≡ pair_bytes ends }
{
    let mut bytes = [0; PAIR_LEN];
    put32(&mut bytes, 0, ends.0);
    put32(&mut bytes, SECOND, ends.1);
    bytes
}
