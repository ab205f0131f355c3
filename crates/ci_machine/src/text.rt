//! Texts and bytes, which contracts see as lists of bytes.

pub use ci_values::text::{Bytes, Text, Texts};
