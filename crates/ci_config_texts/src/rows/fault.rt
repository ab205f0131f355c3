//! Why a line is no row.

use std::alloc::{AllocError, AllocFailed};

/// Why a line is no row, or a row asks for nothing that is known.
#[derive(Clone, Copy, Drop)]
pub enum RowFault {
    /// Memory was refused.
    Memory,
    /// The line isn't in the form of a row.
    NotRead,
}

impl From<AllocError> for RowFault {
    fn from(_refused: AllocError) -> RowFault {
        RowFault::Memory
    }
}

impl<T: Drop> From<AllocFailed<T>> for RowFault {
    fn from(_refused: AllocFailed<T>) -> RowFault {
        RowFault::Memory
    }
}
