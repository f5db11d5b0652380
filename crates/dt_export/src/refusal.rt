// Why a tree is not exported.
ghost use Rattle.std.specs.Prelude.{◌≡◌};
ghost use Rattle.dt_export.specs.declared.refusal.ExportErr.TheVariants.{NoMemory as OutOfMemory};
ghost use Rattle.dt_export.specs.inner.Errors.{export_err_of_host};

use dt_base::NoMemory;
use dt_host::HostErr;
use std::alloc::{AllocError, AllocFailed};
use thiserror::Error;

/// Why an export is refused. The refusals are tried in this order.
#[derive(Clone, Copy, Debug, PartialEq, Eq, Error)]
pub enum ExportRefusal {
    #[error("the folder has an index already")]
    Exists,
    #[error("a path is longer than a path may be")]
    LongPath,
    #[error("there are more paths than an image may have entries")]
    TooMany,
    #[error("a path or a target is not UTF-8")]
    NotText,
    #[error("the index is longer than an index may be")]
    BigIndex,
}

impl ExportRefusal {
    ghost use Rattle.dt_export.specs.ExportRefusal.{export_refusal_number, export_refusal_name};

    /// Its number in the order, from 1.
    pub fn number(self) -> u8
        ensures { result ≡ export_refusal_number self }
    {
        match self {
            ExportRefusal::Exists => 1,
            ExportRefusal::LongPath => 2,
            ExportRefusal::TooMany => 3,
            ExportRefusal::NotText => 4,
            ExportRefusal::BigIndex => 5,
        }
    }

    /// Its name, as a refusal's line shows it.
    pub fn name(self) -> &'static str
        ensures { result.now ≡ export_refusal_name self }
    {
        match self {
            ExportRefusal::Exists => "Exists",
            ExportRefusal::LongPath => "LongPath",
            ExportRefusal::TooMany => "TooMany",
            ExportRefusal::NotText => "NotText",
            ExportRefusal::BigIndex => "BigIndex",
        }
    }
}

/// Why a tree is not exported: it is refused, the host failed, or memory ran out.
#[derive(Clone, Copy, Debug, PartialEq, Eq, Error)]
pub enum ExportErr {
    #[error("export refused: {0}")]
    Refused(ExportRefusal),
    #[error("host fault")]
    Host,
    #[error("out of memory")]
    NoMemory,
}

impl From<HostErr> for ExportErr {
    ghost from_gives = { λ cause e. e ≡ export_err_of_host cause };

    fn from(cause: HostErr) -> Self {
        match cause {
            HostErr::Failed => ExportErr::Host,
            HostErr::NoMemory => ExportErr::NoMemory,
        }
    }
}

impl From<NoMemory> for ExportErr {
    ghost from_gives = { λ _ e. e ≡ OutOfMemory };

    fn from(_: NoMemory) -> Self {
        ExportErr::NoMemory
    }
}

impl From<AllocError> for ExportErr {
    ghost from_gives = { λ _ e. e ≡ OutOfMemory };

    fn from(_: AllocError) -> Self {
        ExportErr::NoMemory
    }
}

impl<T: Drop> From<AllocFailed<T>> for ExportErr {
    ghost from_gives = { λ _ e. e ≡ OutOfMemory };

    fn from(_: AllocFailed<T>) -> Self {
        ExportErr::NoMemory
    }
}
