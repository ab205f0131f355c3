//! The parts of records that are kept as JSON: compact, the members of an object in byte order.

mod causes;
mod lists;
mod options;
mod part;
mod texts;

pub use options::{read_demand, read_spec, spec_text};
pub use texts::{list_text, read_list};
