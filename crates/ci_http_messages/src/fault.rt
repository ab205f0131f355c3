//! Why no request was read.

use crate::link::Failed;
use ci_machine::reply::Code;
use std::alloc::{AllocError, AllocFailed};

/// Why no request was read.
#[derive(Drop)]
pub enum HttpFault {
    /// The bytes ended before the request did.
    Ended,
    /// The bytes are no request, or are one over a limit: H1, H2, H3, H4 or H8.
    Refused(Code),
    /// A call of the reader failed.
    ReadFailed,
    /// Memory was refused.
    Memory,
}

impl From<Failed> for HttpFault {
    ghost use Rattle.std.specs.Prelude.{◌≡◌};
    ghost use Rattle.ci_http_messages.specs.declared.fault.HttpFault.TheVariants.{ReadFailed};

    ghost from_gives = { λ _ e. e ≡ ReadFailed };

    fn from(_failed: Failed) -> Self {
        HttpFault::ReadFailed
    }
}

impl From<AllocError> for HttpFault {
    ghost use Rattle.std.specs.Prelude.{◌≡◌};
    ghost use Rattle.ci_http_messages.specs.declared.fault.HttpFault.TheVariants.{Memory};

    ghost from_gives = { λ _ e. e ≡ Memory };

    fn from(_refused: AllocError) -> Self {
        HttpFault::Memory
    }
}

impl<T: Drop> From<AllocFailed<T>> for HttpFault {
    ghost use Rattle.std.specs.Prelude.{◌≡◌};
    ghost use Rattle.ci_http_messages.specs.declared.fault.HttpFault.TheVariants.{Memory};

    ghost from_gives = { λ _ e. e ≡ Memory };

    fn from(_refused: AllocFailed<T>) -> Self {
        HttpFault::Memory
    }
}
