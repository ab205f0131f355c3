//! What jobs ask of runners, as rows of some columns of `job`.

use crate::json::read_demand;
use crate::read::{Loaded, has_columns};
use ci_machine::records::Demand;
use ci_store::fault::StoreFault;
use sqlite::Row;
use std::alloc::Global;

impl Loaded for Demand {
    ghost use Rattle.ci_store_rows.specs.Load.{IsDemandRow};

    ghost is_row = { IsDemandRow };

    fn read(alloc: Global, row: &Row) -> Result<Demand, StoreFault> {
        has_columns(row, 3)?;
        let job: u64 = row.get(0)?;
        let pipeline: u64 = row.get(1)?;
        let spec: String = row.get(2)?;
        read_demand(alloc, job, pipeline, spec.as_str())
    }
}
