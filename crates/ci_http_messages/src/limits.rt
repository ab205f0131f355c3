//! The limits of requests and replies. Each name ends with the unit, where there is one.

use ci_values::limits::MAX_FILE_BYTES;

/// The longest head of a request with its empty line, in bytes.
pub const MAX_HEAD_BYTES: usize = 8192;

/// The most fields of a head.
pub const MAX_HEAD_FIELDS: usize = 32;

/// The most line feeds of a head: those of the request line, of its fields and of the empty line.
pub const MAX_HEAD_LINES: usize = 34;

/// The longest body of a request, in bytes.
pub const MAX_BODY_BYTES: usize = MAX_FILE_BYTES;

/// Room for the longest head of a reply, in bytes.
pub const MAX_REPLY_HEAD_BYTES: usize = 512;
