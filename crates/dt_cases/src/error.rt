// Why a file of cases is not read to its end.
use dt_asm::AsmErr;
use dt_base::NoMemory;
use std::alloc::{AllocError, AllocFailed};
use std::io;
use thiserror::Error;

/// What is wrong with a file of cases or with its surroundings.
#[derive(Debug, Drop, Error)]
pub enum CaseErr {
    #[error("out of memory")]
    NoMemory,
    #[error("the first argument is the folder of the cases")]
    NoFolder,
    #[error("no kind of cases has this ending")]
    Kind,
    #[error("no cases")]
    Empty,
    #[error("{0}")]
    Files(io::Error),
    /// A line that says nothing that is known.
    #[error("cannot read: {0}")]
    Line(String),
    #[error("{0}")]
    Case(String),
    #[error("out of its range: {0}")]
    Range(i64),
    #[error("no guest: {0}")]
    Guest(AsmErr),
}

impl From<NoMemory> for CaseErr {
    fn from(_: NoMemory) -> Self {
        CaseErr::NoMemory
    }
}

impl From<AllocError> for CaseErr {
    fn from(_: AllocError) -> Self {
        CaseErr::NoMemory
    }
}

impl<T: Drop> From<AllocFailed<T>> for CaseErr {
    fn from(_: AllocFailed<T>) -> Self {
        CaseErr::NoMemory
    }
}

impl From<AsmErr> for CaseErr {
    fn from(error: AsmErr) -> Self {
        CaseErr::Guest(error)
    }
}

impl From<io::Error> for CaseErr {
    fn from(error: io::Error) -> Self {
        CaseErr::Files(error)
    }
}
