// What a process does about signals, which are masked, which are pending, and when its timer raises one.
ghost use Rattle.std.specs.Prelude.{◌≡◌, ◌≤◌, IfSome};
ghost use Rattle.dt_signals.specs.Signals.{no_signals, with_pending, action_of, with_action, with_mask, after_fork};
ghost use Rattle.dt_signals.specs.Signals.{after_exec};
ghost use Rattle.dt_signals.specs.Signals.{bit_of, is_in, is_signal, is_due, is_ignored};
ghost use Rattle.dt_signals.specs.Signals.{is_dropped, dropped_signals, without_ignored};
ghost use Rattle.dt_signals.specs.Signals.{is_deliverable, lowest_deliverable, without_pending};

use crate::action::{Action, DEFAULT_ACTION};
use dt_base::abi::{MASKABLE, SIGNAL_LIMIT};

/// What a process does about each signal, and the signals that are masked and that are pending, as sets in which
/// signal `s` is bit `s - 1` (signal(7)); and its timer in real time (setitimer(2)).
#[derive(Clone, Copy, Debug)]
pub struct Sig {
    pub(crate) actions: [Action; 64],
    pub(crate) mask: u64,
    pub(crate) pending: u64,
    /// Where the timer is armed, the ticks at which it is due, and after how many nanoseconds it is due again, 0 where
    /// it is not. An interval of setitimer(2) may have more of them than 64 bits count.
    pub(crate) timer: Option<(u64, u128)>,
}

impl Sig {
    /// All actions are the default, no signal is masked or pending, and the timer is disarmed.
    pub fn new() -> Sig
        ensures { result ≡ no_signals }
    {
        Sig {
            actions: [DEFAULT_ACTION; 64],
            mask: 0,
            pending: 0,
            timer: None,
        }
    }

    /// Makes a signal pending.
    pub fn raise(&mut self, sig: u8)
        requires least { 1 ≤ sig }
        requires greatest { sig ≤ SIGNAL_LIMIT }
        ensures { self.new ≡ with_pending sig self.old }
    {
        self.pending |= bit_of(sig);
    }

    /// What is done about a signal.
    pub fn action(&self, sig: u8) -> Action
        requires least { 1 ≤ sig }
        requires greatest { sig ≤ SIGNAL_LIMIT }
        ensures { result ≡ action_of self.now sig }
    {
        self.actions[usize::from(sig) - 1]
    }

    /// Changes what is done about a signal.
    pub fn set_action(&mut self, sig: u8, action: Action)
        requires least { 1 ≤ sig }
        requires greatest { sig ≤ SIGNAL_LIMIT }
        ensures { self.new ≡ with_action sig action self.old }
    {
        self.actions[usize::from(sig) - 1] = action;
    }

    /// The signals that are masked.
    pub fn mask(&self) -> u64
        ensures { result ≡ self.now.mask }
    {
        self.mask
    }

    /// Keeps back these signals, but never SIGKILL and SIGSTOP.
    pub fn set_mask(&mut self, mask: u64)
        ensures { self.new ≡ with_mask mask self.old }
    {
        self.mask = mask & MASKABLE;
    }

    /// What a child begins with (fork(2)).
    pub fn fork(&self) -> Sig
        ensures { result ≡ after_fork self.now }
    {
        let mut child = *self;
        child.pending = 0;
        child.timer = None;
        child
    }

    /// Another program was started: the handlers are gone with the one before (execve(2)).
    pub fn after_exec(&mut self)
        ensures { self.new ≡ after_exec self.old }
    {
        for index in 0..SIGNAL_LIMIT {
            self.actions[index] = self.actions[index].after_exec();
        }
    }

    /// The lowest signal that is pending, not masked, and would do something.
    #[tactic(auto, unfolding(crate::specs::Signals::lowest_deliverable))]
    pub fn deliverable(&self) -> Option<u8>
        ensures lowest { result ≡ lowest_deliverable self.now }
        ensures least { IfSome result (λ sig. 1 ≤ sig) }
        ensures greatest { IfSome result (λ sig. sig ≤ SIGNAL_LIMIT) }
    {
        if self.pending & !self.mask == 0 {
            return None;
        }
        for index in 0..64 {
            if self.is_deliverable(index + 1) {
                return Some(index + 1);
            }
        }
        None
    }

    /// Drops the pending signals that aren't masked and would do nothing.
    pub(crate) fn drop_ignored(&mut self)
        ensures { self.new ≡ without_ignored self.old }
    {
        if self.pending & !self.mask != 0 {
            self.pending &= !self.dropped_signals();
        }
    }

    /// A signal is pending no longer.
    pub(crate) fn take(&mut self, sig: u8)
        requires least { 1 ≤ sig }
        requires greatest { sig ≤ SIGNAL_LIMIT }
        ensures { self.new ≡ without_pending sig self.old }
    {
        self.pending &= !bit_of(sig);
    }

    // The signals that are pending, not masked, and would do nothing.
    fn dropped_signals(&self) -> u64
        ensures { result ≡ dropped_signals self.now }
    {
        let mut set = 0;
        for index in 0..64 {
            if self.is_dropped(index + 1) {
                set |= bit_of(index + 1);
            }
        }
        set
    }

    // Whether a signal is pending, not masked, and would do nothing.
    fn is_dropped(&self, sig: u8) -> bool
        requires least { 1 ≤ sig }
        requires greatest { sig ≤ SIGNAL_LIMIT }
        ensures { result ≡ is_dropped self.now sig }
    {
        self.is_due(sig) && self.action(sig).is_ignored(sig)
    }

    // Whether a signal is pending, not masked, and would do something.
    fn is_deliverable(&self, sig: u8) -> bool
        requires least { 1 ≤ sig }
        requires greatest { sig ≤ SIGNAL_LIMIT }
        ensures { result ≡ is_deliverable self.now sig }
    {
        self.is_due(sig) && !self.action(sig).is_ignored(sig)
    }

    // Whether a signal is pending and not masked.
    fn is_due(&self, sig: u8) -> bool
        requires least { 1 ≤ sig }
        requires greatest { sig ≤ SIGNAL_LIMIT }
        ensures { result ≡ is_due self.now sig }
    {
        is_in(sig, self.pending) && !is_in(sig, self.mask)
    }
}

/// Whether there is a signal of this number.
pub(crate) fn is_signal(number: u8) -> bool
    ensures { result ≡ is_signal number }
{
    number != 0 && number <= SIGNAL_LIMIT as u8
}

/// The bit of a signal in a set of signals.
pub(crate) fn bit_of(sig: u8) -> u64
    requires least { 1 ≤ sig }
    requires greatest { sig ≤ SIGNAL_LIMIT }
    ensures { result ≡ bit_of sig }
{
    1 << (sig - 1)
}

/// Whether a signal is in a set.
pub(crate) fn is_in(sig: u8, set: u64) -> bool
    requires least { 1 ≤ sig }
    requires greatest { sig ≤ SIGNAL_LIMIT }
    ensures { result ≡ is_in sig set }
{
    set >> (sig - 1) & 1 == 1
}
