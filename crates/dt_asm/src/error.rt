// Why a guest becomes no file.
ghost use Rattle.std.specs.Prelude.{◌≡◌};
ghost use Rattle.dt_asm.specs.declared.error.AsmErr.TheVariants.{NoMemory as OutOfMemory};

use dt_base::NoMemory;
use std::alloc::{AllocError, AllocFailed};
use thiserror::Error;

/// What is wrong with a guest, in the order in which it is looked for; memory may run out at any time.
#[derive(Clone, Copy, Debug, PartialEq, Eq, Error)]
pub enum AsmErr {
    #[error("a label is used and not set")]
    NoLabel,
    #[error("a label is set twice")]
    TwoLabels,
    #[error("a target is out of its form's range")]
    Far,
    #[error("a field is out of its range")]
    BadField,
    #[error("out of memory")]
    NoMemory,
    #[error("the file is longer than a file may be")]
    TooLong,
}

impl AsmErr {
    ghost use Rattle.dt_asm.specs.Refusal.{error_number};

    /// Its number, from 1.
    pub fn number(self) -> u8
        ensures { result ≡ error_number self }
    {
        match self {
            AsmErr::NoLabel => 1,
            AsmErr::TwoLabels => 2,
            AsmErr::Far => 3,
            AsmErr::BadField => 4,
            AsmErr::NoMemory => 5,
            AsmErr::TooLong => 6,
        }
    }
}

impl From<NoMemory> for AsmErr {
    ghost from_gives = { λ _ e. e ≡ OutOfMemory };

    fn from(_: NoMemory) -> Self {
        AsmErr::NoMemory
    }
}

impl From<AllocError> for AsmErr {
    ghost from_gives = { λ _ e. e ≡ OutOfMemory };

    fn from(_: AllocError) -> Self {
        AsmErr::NoMemory
    }
}

impl<T: Drop> From<AllocFailed<T>> for AsmErr {
    ghost from_gives = { λ _ e. e ≡ OutOfMemory };

    fn from(_: AllocFailed<T>) -> Self {
        AsmErr::NoMemory
    }
}
