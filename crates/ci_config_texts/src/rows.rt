//! Tables of rows: what is asked of a layer, and beside it what must be answered.

mod fault;
mod line;
mod parts;
mod quoted;
mod row;
mod table;

pub use fault::RowFault;
pub use row::{Part, Row};
pub use table::{TableLine, table_lines};
