//! The calls on time (nanosleep(2), clock_gettime(2), clock_nanosleep(2), gettimeofday(2)), and what they count in.
ghost use Rattle.std.specs.Prelude.{◌≡◌, ◌≤◌, ℕ, IsTrue, length, min, max};
ghost use Rattle.dt_space.specs.Argument.{is_writable_or_null};
ghost use Rattle.dt_space.specs.Write.{pages_after_store};
ghost use Rattle.dt_callbase.specs.Sound.{Sound, HasRowReply, HasReplyOf, HasReply, stage, scene};
ghost use Rattle.dt_timecalls.specs.Time.{is_wall, first_second, time_of, timespec_bytes, timeval_bytes};
ghost use Rattle.dt_timecalls.specs.Time.{ticks_at, is_for_sleep, time_reply};
ghost use Rattle.dt_timecalls.specs.Time.{time_of_day_reply, clock_gettime_row, gettimeofday_row, nanosleep_row};
ghost use Rattle.dt_timecalls.specs.Time.{clock_nanosleep_row};

use dt_base::abi::{
    CLOCK_BOOTTIME, CLOCK_MONOTONIC, CLOCK_REALTIME, CLOCK_REALTIME_COARSE, TIMER_ABSTIME, low_word,
};
use dt_base::{Answer, Caller, Errno, put64};
use dt_callbase::wall_time::{FIRST_SECOND, MICROSECOND_TICKS, SECOND_TICKS};
use dt_callbase::{Fs, Timespec};
use dt_host::{Host, HostErr};
use dt_space::{Space, WriteErr, fill_unless_null, is_writable_or_null};
use dt_virt::{Clock, TICK_LIMIT};

/// Bytes of `struct timespec` and of `struct timeval`: 8 of seconds, 8 of their part.
pub const TIME_LEN: usize = 16;

/// Bytes of `struct timezone`.
pub const TIMEZONE_LEN: usize = 8;

// The time that a clock tells.
fn time_of(clock: u32, ticks: u64) -> Timespec
    ensures { result ≡ time_of clock ticks }
{
    Timespec {
        seconds: first_second(clock) + ticks / SECOND_TICKS,
        nanoseconds: ticks % SECOND_TICKS,
    }
}

// The ticks at which a clock tells a time, 0 where it never told it.
fn ticks_at(clock: u32, time: Timespec) -> u128
    ensures { result ≡ ticks_at clock time }
{
    time.ticks()
        .saturating_sub(u128::from(first_second(clock)) * u128::from(SECOND_TICKS))
}

// `struct timespec`
#[tactic(auto, unfolding(crate::specs::Time::timespec_bytes))]
fn timespec_bytes(time: Timespec) -> [u8; TIME_LEN]
    ensures { result ≡ timespec_bytes time }
{
    let mut bytes = [0; TIME_LEN];
    put64(&mut bytes, 0, time.seconds);
    put64(&mut bytes, 8, time.nanoseconds);
    bytes
}

// Whether a clock tells wall time.
fn is_wall(clock: u32) -> bool
    ensures { result ≡ is_wall clock }
{
    matches!(clock, CLOCK_REALTIME | CLOCK_REALTIME_COARSE)
}

// The second that a clock tells at tick 0.
fn first_second(clock: u32) -> u64
    ensures value { result ≡ first_second clock }
    ensures few { result ≤ FIRST_SECOND }
{
    if is_wall(clock) { FIRST_SECOND } else { 0 }
}

// `struct timeval` of wall time
#[tactic(auto, unfolding(crate::specs::Time::timeval_bytes))]
fn timeval(ticks: u64) -> [u8; TIME_LEN]
    ensures { result ≡ timeval_bytes ticks }
{
    let mut bytes = [0; TIME_LEN];
    put64(&mut bytes, 0, FIRST_SECOND + ticks / SECOND_TICKS);
    put64(&mut bytes, 8, ticks % SECOND_TICKS / MICROSECOND_TICKS);
    bytes
}

// So many ticks, or as many as a clock can have.
fn capped_ticks(ticks: u128) -> u64
    ensures { result ≡ min ticks TICK_LIMIT }
{
    ticks.min(u128::from(TICK_LIMIT)) as u64
}

/// clock_gettime(2): reads a clock into a buffer, and answers 0. The reading takes some time first. The errors are
/// EINVAL (no such clock) and EFAULT.
#[tactic(auto, unfolding(crate::specs::Time::clock_gettime_row), using(crate::proofs::Kept::in_other_words))]
pub fn clock_gettime<H: Host>(
    fs: &mut Fs,
    host: &H,
    caller: &Caller,
    space: &mut Space,
    args: [u64; 6],
) -> Result<Answer, HostErr>
    requires { Sound (stage fs.old (H.view host.now) caller.now space.old) }
    ensures { HasRowReply clock_gettime_row args (stage fs.old (H.view host.now) caller.now space.old)
        (stage fs.new (H.view host.now) caller.now space.new) result
        (H.count host.now) (H.count host.now) }
{
    let clock = low_word(args[0]);
    if clock > CLOCK_BOOTTIME {
        return Ok(Answer::Refused(Errno::Inval));
    }
    let time = time_of(clock, fs.next_stamp());
    tell_time(fs, host, caller, space, args[1], &timespec_bytes(time))
}

// Tells what a reading of the clock gives, which takes some time.
fn tell_time<H: Host>(
    fs: &mut Fs,
    host: &H,
    caller: &Caller,
    space: &mut Space,
    buffer: u64,
    bytes: &[u8],
) -> Result<Answer, HostErr>
    requires { Sound (stage fs.old (H.view host.now) caller.now space.old) }
    ensures { HasReply (time_reply (scene (stage fs.old (H.view host.now) caller.now space.old))
        (pages_after_store space.old buffer bytes.now))
        (stage fs.old (H.view host.now) caller.now space.old) (stage fs.new (H.view host.now) caller.now space.new)
        result (H.count host.now) (H.count host.now) }
{
    match space.write_bytes(buffer, bytes) {
        Ok(()) => {}
        Err(WriteErr::Miss(_)) => return Ok(Answer::Refused(Errno::Fault)),
        Err(WriteErr::NoMemory) => return Err(HostErr::NoMemory),
    }
    fs.clock.read();
    Ok(Answer::Value(0))
}

/// gettimeofday(2): tells the wall time to the microsecond and a time zone of zeros, each where the guest wants it, and
/// answers 0. Telling the time takes some first. The error is EFAULT.
#[tactic(auto, unfolding(crate::specs::Time::gettimeofday_row))]
pub fn gettimeofday<H: Host>(
    fs: &mut Fs,
    host: &H,
    caller: &Caller,
    space: &mut Space,
    args: [u64; 6],
) -> Result<Answer, HostErr>
    requires { Sound (stage fs.old (H.view host.now) caller.now space.old) }
    ensures { HasRowReply gettimeofday_row args (stage fs.old (H.view host.now) caller.now space.old)
        (stage fs.new (H.view host.now) caller.now space.new) result
        (H.count host.now) (H.count host.now) }
{
    let [time, zone, ..] = args;
    if !is_writable_or_null(space, time, TIME_LEN)
        || !is_writable_or_null(space, zone, TIMEZONE_LEN)
    {
        return Ok(Answer::Refused(Errno::Fault));
    }
    tell_time_of_day(fs, host, caller, space, time, zone)
}

// Tells the wall time and a time zone, each unless its address is null.
fn tell_time_of_day<H: Host>(
    fs: &mut Fs,
    host: &H,
    caller: &Caller,
    space: &mut Space,
    time: u64,
    zone: u64,
) -> Result<Answer, HostErr>
    requires sound { Sound (stage fs.old (H.view host.now) caller.now space.old) }
    requires time { IsTrue (is_writable_or_null space.old time TIME_LEN) }
    requires zone { IsTrue (is_writable_or_null space.old zone TIMEZONE_LEN) }
    ensures { HasReplyOf (time_of_day_reply time zone) (stage fs.old (H.view host.now) caller.now space.old)
        (stage fs.new (H.view host.now) caller.now space.new) result
        (H.count host.now) (H.count host.now) }
{
    if time != 0 {
        fill_unless_null(space, time, &timeval(fs.clock.read()))?;
    }
    fill_unless_null(space, zone, &[0; TIMEZONE_LEN])?;
    Ok(Answer::Value(0))
}

/// nanosleep(2): lets a time pass, and answers 0. What is left of it is never told, since nothing wakes the process
/// before. The errors are EFAULT, and EINVAL (no such time).
#[tactic(auto, unfolding(crate::specs::Time::nanosleep_row))]
pub fn nanosleep<H: Host>(
    fs: &mut Fs,
    host: &H,
    caller: &Caller,
    space: &Space,
    args: [u64; 6],
) -> Result<Answer, HostErr>
    requires { Sound (stage fs.old (H.view host.now) caller.now space.now) }
    ensures { HasRowReply nanosleep_row args (stage fs.old (H.view host.now) caller.now space.now)
        (stage fs.new (H.view host.now) caller.now space.now) result
        (H.count host.now) (H.count host.now) }
{
    match Timespec::read(space, args[0]) {
        Ok(time) => fs.clock.sleep(capped_ticks(time.ticks())),
        Err(errno) => return Ok(Answer::Refused(errno)),
    }
    Ok(Answer::Value(0))
}

// Whether a process may sleep by this clock.
fn is_for_sleep(clock: u32) -> bool
    ensures { result ≡ is_for_sleep clock }
{
    matches!(clock, CLOCK_REALTIME | CLOCK_MONOTONIC | CLOCK_BOOTTIME)
}

/// clock_nanosleep(2): lets a time pass, or with TIMER_ABSTIME the time until a clock tells one, and answers 0. The
/// errors are EINVAL (a clock or a flag that is none of its own), EFAULT, and EINVAL (no such time).
#[tactic(auto, unfolding(crate::specs::Time::clock_nanosleep_row))]
pub fn clock_nanosleep<H: Host>(
    fs: &mut Fs,
    host: &H,
    caller: &Caller,
    space: &Space,
    args: [u64; 6],
) -> Result<Answer, HostErr>
    requires { Sound (stage fs.old (H.view host.now) caller.now space.now) }
    ensures { HasRowReply clock_nanosleep_row args (stage fs.old (H.view host.now) caller.now space.now)
        (stage fs.new (H.view host.now) caller.now space.now) result
        (H.count host.now) (H.count host.now) }
{
    let (clock, flags) = (low_word(args[0]), low_word(args[1]));
    if !is_for_sleep(clock) || flags > TIMER_ABSTIME {
        return Ok(Answer::Refused(Errno::Inval));
    }
    let time = match Timespec::read(space, args[2]) {
        Ok(time) => time,
        Err(errno) => return Ok(Answer::Refused(errno)),
    };
    if flags == TIMER_ABSTIME {
        sleep_until(&mut fs.clock, capped_ticks(ticks_at(clock, time)));
    } else {
        fs.clock.sleep(capped_ticks(time.ticks()));
    }
    Ok(Answer::Value(0))
}

// Lets time pass until so many ticks, if they have not passed.
fn sleep_until(clock: &mut Clock, ticks: u64)
    ensures { clock.new ≡ min (max clock.old ticks) TICK_LIMIT }
{
    clock.sleep(ticks.saturating_sub(clock.ticks()));
}
