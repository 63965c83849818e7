//! Why the program ends early.

use polygon_overlay::plane::fault::Fault;
use std::alloc::{AllocError, AllocFailed};
use std::io;
use thiserror::Error;

/// Why the program ends early.
#[derive(Clone, Copy, Debug, PartialEq, Eq, Error)]
pub enum TileError {
    #[error("a line doesn't belong to a map")]
    Line,
    #[error("coordinates are out of range")]
    Range,
    #[error("refused: {0}")]
    Refused(Fault),
    #[error("reading or writing failed")]
    Io,
}

impl From<Fault> for TileError {
    fn from(fault: Fault) -> TileError {
        TileError::Refused(fault)
    }
}

impl From<AllocError> for TileError {
    fn from(_error: AllocError) -> TileError {
        TileError::Refused(Fault::Memory)
    }
}

impl<T: Drop> From<AllocFailed<T>> for TileError {
    fn from(_error: AllocFailed<T>) -> TileError {
        TileError::Refused(Fault::Memory)
    }
}

impl From<io::Error> for TileError {
    fn from(_error: io::Error) -> TileError {
        TileError::Io
    }
}
