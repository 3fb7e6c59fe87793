use sqlite::{Error, ErrorCode};
use std::alloc::{AllocError, AllocFailed};
use vet_base::Memory;

/// Why the database gave nothing.
#[derive(Clone, Copy, Debug, PartialEq, Eq)]
pub enum Refusal {
    /// It refused a statement.
    Database,
    /// It held what no statement of this crate writes.
    Inconsistent,
    Memory,
}

impl From<Error> for Refusal {
    fn from(error: Error) -> Refusal {
        match error {
            Error::SqliteFailure(ErrorCode::OutOfMemory) => Refusal::Memory,
            Error::QueryReturnedNoRows
            | Error::InvalidColumnType(..)
            | Error::IntegralValueOutOfRange(_)
            | Error::Utf8Error(_) => Refusal::Inconsistent,
            _ => Refusal::Database,
        }
    }
}

impl From<AllocError> for Refusal {
    fn from(_e: AllocError) -> Refusal {
        Refusal::Memory
    }
}

impl<T: Drop> From<AllocFailed<T>> for Refusal {
    fn from(_e: AllocFailed<T>) -> Refusal {
        Refusal::Memory
    }
}

impl From<Memory> for Refusal {
    fn from(_e: Memory) -> Refusal {
        Refusal::Memory
    }
}
