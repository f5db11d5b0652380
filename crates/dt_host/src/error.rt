// Why a call of the outside gave no answer.
ghost use Rattle.std.specs.Prelude.{◌≡◌};
ghost use Rattle.dt_host.specs.declared.error.CallErr.TheVariants.{Errno as call_refused, Host as host_failed};
ghost use Rattle.dt_host.specs.declared.error.HostErr.TheVariants.{NoMemory as no_memory_of_host};
ghost use Rattle.dt_host.specs.declared.error.StoreErr.TheVariants.{NoMemory as no_memory_of_store};
ghost use Rattle.dt_host.specs.declared.error.SinkErr.TheVariants.{NoMemory as no_memory_of_sink};

use dt_base::{Errno, NoMemory};
use std::alloc::{AllocError, AllocFailed};
use thiserror::Error;

/// Why a call of a host gave no answer.
#[derive(Clone, Copy, Debug, PartialEq, Eq, Error)]
pub enum HostErr {
    /// The host failed, and counted it.
    #[error("the host failed")]
    Failed,
    /// Memory ran out.
    #[error("out of memory")]
    NoMemory,
}

/// Why a guest's call gave no value: it is refused with an error number, or the host gave no answer.
#[derive(Clone, Copy, Debug, PartialEq, Eq, Error)]
pub enum CallErr {
    /// The guest gets this error number.
    #[error("the call is refused")]
    Errno(Errno),
    /// The host gave no answer.
    #[error("{0}")]
    Host(HostErr),
}

/// Why a call of a store gave no answer.
#[derive(Clone, Copy, Debug, PartialEq, Eq, Error)]
pub enum StoreErr {
    /// The store failed, and counted it.
    #[error("the store failed")]
    Failed,
    /// Memory ran out.
    #[error("out of memory")]
    NoMemory,
}

/// Why a sink took nothing.
#[derive(Clone, Copy, Debug, PartialEq, Eq, Error)]
pub enum SinkErr {
    /// The sink failed, and counted it.
    #[error("the sink failed")]
    Failed,
    /// Memory ran out.
    #[error("out of memory")]
    NoMemory,
}

impl From<AllocError> for HostErr {
    ghost from_gives = { λ _ e. e ≡ no_memory_of_host };

    fn from(_: AllocError) -> Self {
        HostErr::NoMemory
    }
}

impl<T: Drop> From<AllocFailed<T>> for HostErr {
    ghost from_gives = { λ _ e. e ≡ no_memory_of_host };

    fn from(_: AllocFailed<T>) -> Self {
        HostErr::NoMemory
    }
}

impl From<Errno> for CallErr {
    ghost from_gives = { λ number e. e ≡ call_refused number };

    fn from(number: Errno) -> Self {
        CallErr::Errno(number)
    }
}

impl From<HostErr> for CallErr {
    ghost from_gives = { λ cause e. e ≡ host_failed cause };

    fn from(cause: HostErr) -> Self {
        CallErr::Host(cause)
    }
}

impl From<AllocError> for StoreErr {
    ghost from_gives = { λ _ e. e ≡ no_memory_of_store };

    fn from(_: AllocError) -> Self {
        StoreErr::NoMemory
    }
}

impl<T: Drop> From<AllocFailed<T>> for StoreErr {
    ghost from_gives = { λ _ e. e ≡ no_memory_of_store };

    fn from(_: AllocFailed<T>) -> Self {
        StoreErr::NoMemory
    }
}

impl From<AllocError> for SinkErr {
    ghost from_gives = { λ _ e. e ≡ no_memory_of_sink };

    fn from(_: AllocError) -> Self {
        SinkErr::NoMemory
    }
}

impl<T: Drop> From<AllocFailed<T>> for SinkErr {
    ghost from_gives = { λ _ e. e ≡ no_memory_of_sink };

    fn from(_: AllocFailed<T>) -> Self {
        SinkErr::NoMemory
    }
}

impl From<NoMemory> for HostErr {
    ghost from_gives = { λ _ e. e ≡ no_memory_of_host };

    fn from(_: NoMemory) -> Self {
        HostErr::NoMemory
    }
}

impl From<NoMemory> for StoreErr {
    ghost from_gives = { λ _ e. e ≡ no_memory_of_store };

    fn from(_: NoMemory) -> Self {
        StoreErr::NoMemory
    }
}

impl From<NoMemory> for SinkErr {
    ghost from_gives = { λ _ e. e ≡ no_memory_of_sink };

    fn from(_: NoMemory) -> Self {
        SinkErr::NoMemory
    }
}
