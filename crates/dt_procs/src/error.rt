// Why there is no new process.
ghost use Rattle.std.specs.Prelude.{◌≡◌};
ghost use Rattle.dt_host.specs.declared.error.HostErr.TheVariants.{NoMemory as no_memory};
ghost use Rattle.dt_procs.specs.declared.error.ProcErr.TheVariants.{Host as host_failed};

use dt_base::NoMemory;
use dt_host::HostErr;
use thiserror::Error;

/// Why a process was not made.
#[derive(Clone, Copy, Debug, PartialEq, Eq, Error)]
pub enum ProcErr {
    /// As many processes are there as may be, zombies included.
    #[error("too many processes")]
    Full,
    /// The host gave no answer.
    #[error("{0}")]
    Host(HostErr),
}

impl From<HostErr> for ProcErr {
    ghost from_gives = { λ cause e. e ≡ host_failed cause };

    fn from(cause: HostErr) -> Self {
        ProcErr::Host(cause)
    }
}

impl From<NoMemory> for ProcErr {
    ghost from_gives = { λ _ e. e ≡ host_failed no_memory };

    fn from(_: NoMemory) -> Self {
        ProcErr::Host(HostErr::NoMemory)
    }
}
