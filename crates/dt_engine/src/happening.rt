// What happens in a run in an order that nobody fixes, and what an admission answers.
ghost use Rattle.std.specs.Prelude.{◌≡◌};
ghost use Rattle.dt_engine.specs.inner.InCode.{has_come};

use dt_base::Verdict;

/// What may happen next in a run.
#[derive(Clone, Copy, Debug)]
pub enum Happening {
    /// The process of this virtual pid runs the segment that it owes.
    Ran(u32),
    /// The head of the queue takes its turn.
    Admit,
}

/// What admitting the head of the queue comes to.
#[derive(Clone, Copy, Debug, PartialEq, Eq)]
pub enum Admitted {
    /// The segment of the head, by its virtual pid, has not arrived.
    NotArrived(u32),
    /// The head took its turn, and the run goes on.
    Turn,
    /// The run is over.
    Over(Verdict),
}

impl Admitted {
    /// Whether the head's turn has come: its segment has arrived.
    pub fn has_come(self) -> bool
        ensures { result ≡ has_come self }
    {
        !matches!(self, Admitted::NotArrived(_))
    }
}
