// The calls that set and tell the timer of a process (setitimer(2)).
ghost use Rattle.std.specs.Prelude.{◌≡◌, ◌+◌, ◌%◌, ◌^◌, ◌≤◌, length, IfOk, OnErr};
ghost use Rattle.dt_space.specs.Space.{IsSpace};
ghost use Rattle.dt_signals.specs.Called.{signal_call_result, IsDone};
ghost use Rattle.dt_signals.specs.Frame.{word_in};
ghost use Rattle.dt_late.specs.Itimer.{timeval_in, itimerval_in, is_good_time, itimerval_at, ticks_in, timer_of};
ghost use Rattle.dt_late.specs.Itimer.{microseconds_left, time_of, itimerval_of, itimerval_bytes, timer_told, setitimer_by_new, counts_running};
ghost use Rattle.dt_late.specs.Itimer.{setitimer_of, getitimer_of};

use crate::due::due_after;
use crate::numbers::{
    IT_INTERVAL, IT_VALUE, ITIMER_PROF, ITIMER_REAL, ITIMER_VIRTUAL, ITIMERVAL_SIZE, MICROSECONDS,
    SECOND_MICROSECONDS,
};
use dt_base::{Answer, Errno, NoMemory, get64, put64};
use dt_callbase::wall_time::{MICROSECOND_TICKS, SECOND_TICKS};
use dt_signals::Sig;
use dt_space::{Space, fill_unless_null, is_writable_or_null};
use dt_virt::Clock;

// The lowest number of 64 bits that stands for a negative one.
const LOWEST_NEGATIVE: u64 = 0x8000_0000_0000_0000;

/// A time in seconds, and microseconds of the next one (timeval(3type)).
#[derive(Clone, Copy, Debug)]
pub struct Timeval {
    pub seconds: u64,
    pub microseconds: u64,
}

/// A timer as the calls are handed it: its interval, and the time until it is due (setitimer(2)).
#[derive(Clone, Copy, Debug)]
pub struct Itimerval {
    pub interval: Timeval,
    pub value: Timeval,
}

impl Timeval {
    // The time at an offset.
    fn at(bytes: &[u8; ITIMERVAL_SIZE], offset: usize) -> Self
        requires { offset + 16 ≤ ITIMERVAL_SIZE }
        ensures { result ≡ timeval_in bytes.now offset }
    {
        Timeval {
            seconds: word_in(bytes, offset),
            microseconds: word_in(bytes, offset + MICROSECONDS),
        }
    }

    // Whether it is a time: not negative, and less than a second of microseconds.
    fn is_good(self) -> bool
        ensures { result ≡ is_good_time self }
    {
        self.seconds < LOWEST_NEGATIVE && self.microseconds < SECOND_MICROSECONDS
    }

    // Its nanoseconds.
    fn ticks(self) -> u128
        ensures { result ≡ ticks_in self }
    {
        u128::from(self.seconds) * u128::from(SECOND_TICKS)
            + u128::from(self.microseconds) * u128::from(MICROSECOND_TICKS)
    }
}

impl Itimerval {
    // The times at an address: EFAULT where it is null or may not be read, EINVAL where one is no time.
    fn read(space: &Space, address: u64) -> Result<Self, Errno>
        ensures { result ≡ itimerval_at space.now address }
    {
        if address == 0 {
            return Err(Errno::Fault);
        }
        let mut bytes = [0; ITIMERVAL_SIZE];
        if space.read_bytes(address, &mut bytes).is_err() {
            return Err(Errno::Fault);
        }
        let new = Itimerval::of(&bytes);
        if !new.interval.is_good() || !new.value.is_good() {
            return Err(Errno::Inval);
        }
        Ok(new)
    }

    // The times of these bytes.
    fn of(bytes: &[u8; ITIMERVAL_SIZE]) -> Self
        ensures { result ≡ itimerval_in bytes.now }
    {
        Itimerval {
            interval: Timeval::at(bytes, IT_INTERVAL),
            value: Timeval::at(bytes, IT_VALUE),
        }
    }

    // The timer that is set so at these ticks.
    fn timer(self, ticks: u64) -> Option<(u64, u128)>
        ensures { result ≡ timer_of ticks self }
    {
        let value = self.value.ticks();
        if value == 0 {
            return None;
        }
        Some((due_after(ticks, value), self.interval.ticks()))
    }
}

// The word of 64 bits at an offset.
fn word_in(bytes: &[u8], offset: usize) -> u64
    requires { offset + 8 ≤ length bytes.now }
    ensures { result ≡ word_in bytes.now offset }
{
    get64(bytes, offset).unwrap_or(0)
}

// The low 64 bits.
fn low_half(number: u128) -> u64
    ensures { result ≡ number % 2 ^ 64 }
{
    (number & u128::from(u64::MAX)) as u64
}

// The microseconds that are left until a timer is due.
fn microseconds_left(ticks: u64, due: Option<u64>) -> u64
    ensures { result ≡ microseconds_left ticks due }
{
    match due {
        Some(due) => due.saturating_sub(ticks).div_ceil(MICROSECOND_TICKS).max(1),
        None => 0,
    }
}

// A time of so many microseconds.
fn time_of(microseconds: u128) -> Timeval
    ensures { result ≡ time_of microseconds }
{
    Timeval {
        seconds: low_half(microseconds / u128::from(SECOND_MICROSECONDS)),
        microseconds: low_half(microseconds % u128::from(SECOND_MICROSECONDS)),
    }
}

// What is told of the timer at these ticks.
fn itimerval_of(ticks: u64, sig: &Sig) -> Itimerval
    ensures { result ≡ itimerval_of ticks sig.now }
{
    Itimerval {
        interval: time_of(sig.interval() / u128::from(MICROSECOND_TICKS)),
        value: time_of(u128::from(microseconds_left(ticks, sig.due()))),
    }
}

// `struct itimerval`
fn itimerval_bytes(told: Itimerval) -> [u8; ITIMERVAL_SIZE]
    ensures { result ≡ itimerval_bytes told }
{
    let mut bytes = [0; ITIMERVAL_SIZE];
    put64(&mut bytes, 0, told.interval.seconds);
    put64(&mut bytes, 8, told.interval.microseconds);
    put64(&mut bytes, 16, told.value.seconds);
    put64(&mut bytes, 24, told.value.microseconds);
    bytes
}

// Tells the timer as it is at these ticks, unless the address is null.
fn tell_timer(sig: &Sig, space: &mut Space, ticks: u64, address: u64) -> Result<Answer, NoMemory>
    ensures told { IfOk result (λ answer.
        timer_told sig.now space.old ticks address sig.now ≡ signal_call_result sig.now space.new answer) }
    ensures memory { OnErr result (IsDone (timer_told sig.now space.old ticks address sig.now)) }
    ensures pages_kept { OnErr result (space.new ≡ space.old) }
    ensures sound { IsSpace space.new }
{
    let _sound = space.pages();
    if !is_writable_or_null(space, address, ITIMERVAL_SIZE) {
        return Ok(Answer::Refused(Errno::Fault));
    }
    let bytes = itimerval_bytes(itimerval_of(ticks, sig));
    fill_unless_null(space, address, &bytes)?;
    let _still_sound = space.pages();
    Ok(Answer::Value(0))
}

// Whether a timer counts the time in which the process runs.
fn counts_running(which: u64) -> bool
    ensures { result ≡ counts_running which }
{
    matches!(which, ITIMER_VIRTUAL | ITIMER_PROF)
}

/// setitimer(2): puts the old timer into a buffer, unless its address is 0, and sets another one. That is due once so
/// much time has passed, and then again after its interval; a time of 0 disarms it. Only ITIMER_REAL is supported.
/// EINVAL for a timer that there is not; EFAULT where the new one can't be read, then EINVAL where it has no times, then
/// EFAULT where the old one can't be put into its buffer. A call that is refused changes nothing. Neither does one that
/// wants memory, which only a call can that would else be done.
#[tactic(auto, unfolding(crate::specs::Itimer::setitimer_of))]
pub fn setitimer(
    sig: &mut Sig,
    space: &mut Space,
    clock: &Clock,
    which: u64,
    new: u64,
    old: u64,
) -> Result<Answer, NoMemory>
    ensures called { IfOk result (λ answer.
        setitimer_of sig.old space.old clock.now which new old ≡ signal_call_result sig.new space.new answer) }
    ensures memory { OnErr result (IsDone (setitimer_of sig.old space.old clock.now which new old)) }
    ensures signals_kept { OnErr result (sig.new ≡ sig.old) }
    ensures pages_kept { OnErr result (space.new ≡ space.old) }
    ensures sound { IsSpace space.new }
{
    let _sound = space.pages();
    if counts_running(which) {
        return Ok(Answer::Unsupported);
    }
    if which != ITIMER_REAL {
        return Ok(Answer::Refused(Errno::Inval));
    }
    change_timer(sig, space, clock.ticks(), new, old)
}

// Tells the old timer, and sets the new one.
fn change_timer(
    sig: &mut Sig,
    space: &mut Space,
    ticks: u64,
    new: u64,
    old: u64,
) -> Result<Answer, NoMemory>
    ensures called { IfOk result (λ answer.
        setitimer_by_new sig.old space.old ticks old (itimerval_at space.old new)
        ≡ signal_call_result sig.new space.new answer) }
    ensures memory { OnErr result
        (IsDone (setitimer_by_new sig.old space.old ticks old (itimerval_at space.old new))) }
    ensures signals_kept { OnErr result (sig.new ≡ sig.old) }
    ensures pages_kept { OnErr result (space.new ≡ space.old) }
    ensures sound { IsSpace space.new }
{
    let _sound = space.pages();
    let new = match Itimerval::read(space, new) {
        Ok(new) => new,
        Err(errno) => return Ok(Answer::Refused(errno)),
    };
    let answer = tell_timer(sig, space, ticks, old)?;
    if matches!(answer, Answer::Value(_)) {
        sig.arm(new.timer(ticks));
    }
    Ok(answer)
}

/// getitimer(2): puts the timer into a buffer: its interval, and the time until it is due, of which a part of a
/// microsecond counts as one; 0 where it is disarmed. Only ITIMER_REAL is supported. EINVAL for a timer that there is
/// not, EFAULT where the buffer is null or may not be written. A call that is refused or wants memory changes nothing.
#[tactic(auto, unfolding(crate::specs::Itimer::getitimer_of))]
pub fn getitimer(
    sig: &Sig,
    space: &mut Space,
    clock: &Clock,
    which: u64,
    buffer: u64,
) -> Result<Answer, NoMemory>
    ensures called { IfOk result (λ answer.
        getitimer_of sig.now space.old clock.now which buffer ≡ signal_call_result sig.now space.new answer) }
    ensures memory { OnErr result (IsDone (getitimer_of sig.now space.old clock.now which buffer)) }
    ensures pages_kept { OnErr result (space.new ≡ space.old) }
    ensures sound { IsSpace space.new }
{
    let _sound = space.pages();
    if counts_running(which) {
        return Ok(Answer::Unsupported);
    }
    if which != ITIMER_REAL {
        return Ok(Answer::Refused(Errno::Inval));
    }
    if buffer == 0 {
        return Ok(Answer::Refused(Errno::Fault));
    }
    tell_timer(sig, space, clock.ticks(), buffer)
}
