// The timer of a process.
ghost use Rattle.std.specs.Prelude.{◌≡◌};
ghost use Rattle.dt_signals.specs.Timer.{with_timer, timer_due, timer_interval, timer_after_due, signals_at};

use crate::numbers::SIGALRM;
use crate::signals::Sig;
use dt_virt::TICK_LIMIT;

impl Sig {
    /// Arms the timer, with the ticks at which it is due and the nanoseconds after which it is due again, 0 for never;
    /// or disarms it (setitimer(2)).
    pub fn arm(&mut self, timer: Option<(u64, u128)>)
        ensures { self.new ≡ with_timer timer self.old }
    {
        self.timer = timer;
    }

    /// The ticks at which the timer is due; none exactly where it is disarmed (getitimer(2)).
    pub fn due(&self) -> Option<u64>
        ensures { result ≡ timer_due self.now }
    {
        match self.timer {
            Some((due, _)) => Some(due),
            None => None,
        }
    }

    /// The nanoseconds after which the timer is due again; 0 where it is not, or is disarmed (getitimer(2)).
    pub fn interval(&self) -> u128
        ensures { result ≡ timer_interval self.now }
    {
        match self.timer {
            Some((_, interval)) => interval,
            None => 0,
        }
    }

    /// Makes SIGALRM pending where the timer is due at these ticks, and sets the timer by its interval from now on.
    #[tactic(auto, unfolding(crate::specs::Timer::signals_at))]
    pub fn fire(&mut self, ticks: u64)
        ensures { self.new ≡ signals_at ticks self.old }
    {
        match self.timer {
            Some((due, interval)) if due <= ticks => {
                self.raise(SIGALRM);
                self.timer = timer_after_due(ticks, interval);
            }
            Some(_) | None => {}
        }
    }
}

// The timer once it was due.
fn timer_after_due(ticks: u64, interval: u128) -> Option<(u64, u128)>
    ensures { result ≡ timer_after_due ticks interval }
{
    if interval == 0 {
        return None;
    }
    let due = u128::from(ticks)
        .saturating_add(interval)
        .min(u128::from(TICK_LIMIT));
    Some((due as u64, interval))
}
