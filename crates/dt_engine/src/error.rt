// Why a run was not completed.
ghost use Rattle.std.specs.Prelude.{◌≡◌};
ghost use Rattle.dt_engine.specs.declared.error.RunErr.TheVariants.{NoMemory as OutOfMemory};
ghost use Rattle.dt_engine.specs.inner.Errors.{run_err_of_host, run_err_of_sink};

use dt_base::NoMemory;
use dt_host::{HostErr, SinkErr};
use thiserror::Error;

/// Why a run was not completed: the host failed, the sink of the report failed, or memory ran out.
#[derive(Clone, Copy, Debug, PartialEq, Eq, Error)]
pub enum RunErr {
    #[error("host fault")]
    Host,
    #[error("output fault")]
    Sink,
    #[error("out of memory")]
    NoMemory,
}

impl From<HostErr> for RunErr {
    ghost from_gives = { λ e r. r ≡ run_err_of_host e };

    fn from(e: HostErr) -> Self {
        match e {
            HostErr::Failed => RunErr::Host,
            HostErr::NoMemory => RunErr::NoMemory,
        }
    }
}

impl From<SinkErr> for RunErr {
    ghost from_gives = { λ e r. r ≡ run_err_of_sink e };

    fn from(e: SinkErr) -> Self {
        match e {
            SinkErr::Failed => RunErr::Sink,
            SinkErr::NoMemory => RunErr::NoMemory,
        }
    }
}

impl From<NoMemory> for RunErr {
    ghost from_gives = { λ _ r. r ≡ OutOfMemory };

    fn from(_: NoMemory) -> Self {
        RunErr::NoMemory
    }
}
