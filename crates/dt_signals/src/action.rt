// What is done about a signal.
ghost use Rattle.std.specs.Prelude.{◌≡◌};
ghost use Rattle.dt_signals.specs.Signals.{has_handler, action_after_exec, is_ignored};

use dt_base::abi::{SIG_DFL, SIG_IGN, SIGCHLD};

/// What a process does about a signal (`struct sigaction`, sigaction(2)).
#[derive(Clone, Copy, Debug)]
pub struct Action {
    /// SIG_DFL, SIG_IGN, or the address of a handler.
    pub handler: u64,
    /// SA_RESTART among them; the others have no effect.
    pub flags: u64,
    /// The signals that are masked while the handler runs, signal `s` as bit `s - 1`.
    pub mask: u64,
}

/// The action that every signal has at first (signal(7)).
pub(crate) const DEFAULT_ACTION: Action = Action {
    handler: SIG_DFL,
    flags: 0,
    mask: 0,
};

impl Action {
    /// Whether a handler runs.
    pub(crate) fn has_handler(self) -> bool
        ensures { result ≡ has_handler self }
    {
        self.handler != SIG_DFL && self.handler != SIG_IGN
    }

    /// The action after another program was started (execve(2)).
    pub(crate) fn after_exec(self) -> Action
        ensures { result ≡ action_after_exec self }
    {
        if self.has_handler() {
            DEFAULT_ACTION
        } else {
            self
        }
    }

    /// Whether a signal with this action does nothing: it is ignored, or does nothing by default.
    pub(crate) fn is_ignored(self, sig: u8) -> bool
        ensures { result ≡ is_ignored sig self }
    {
        self.handler == SIG_IGN || self.handler == SIG_DFL && sig == SIGCHLD
    }
}
