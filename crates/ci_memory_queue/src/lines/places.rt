//! Where a job stands, and whether it waits for its turn.

ghost use Rattle.std.specs.Prelude.{◌≡◌, IsTrue, false, Some};
ghost use Rattle.ci_store.specs.Prelude.{LoadsBy};
ghost use Rattle.ci_memory_queue.specs.Places.{counts_as, counts, place_at};

use crate::lines::Place;
use ci_board::facts::Status;
use ci_machine::records::{BoardRow, GroupOrder};
use ci_machine::text::Text;
use ci_store::fault::StoreFault;
use ci_store::store::Store;

/// Where a job stands. Errors: the store's; that it fails too where the job or its pipeline isn't there.
pub fn place_of<T: Store>(store: &mut T, job: u64) -> Result<Place, StoreFault>
    ensures { LoadsBy T.honest T.holds T.leaves store.old store.new result (λ k place. place_at k.state job ≡ Some place) }
{
    let Some(demand) = store.demand(job)? else {
        return Err(StoreFault::Broken);
    };
    let Some(pipeline) = store.pipeline(demand.pipeline)? else {
        return Err(StoreFault::Broken);
    };
    Ok(Place {
        pipeline: demand.pipeline,
        project: pipeline.project,
        group: demand.resource_group,
    })
}

/// Is it a place in this resource group of the project?
pub fn is_in_group(place: &Place, project: u64, group: &Text) -> bool
    ensures same { IsTrue result → (place.now.project ≡ project) × (place.now.group ≡ Some group.now) }
    ensures differs { result ≡ false → place.now.project ≡ project → place.now.group ≡ Some group.now → ⊥ }
{
    place.project == project && is_group(&place.group, group)
}

fn is_group(own: &Option<Text>, group: &Text) -> bool
    ensures same { IsTrue result → own.now ≡ Some group.now }
    ensures differs { result ≡ false → own.now ≡ Some group.now → ⊥ }
{
    match own {
        Some(own) => own.is_same(group),
        None => false,
    }
}

/// Does the job with this row count in the order: is it created or pending, or is it pending? One without a row doesn't.
pub fn counts(order: GroupOrder, row: &Option<BoardRow>) -> bool
    ensures { result ≡ counts order row.now }
{
    match row {
        Some(row) => counts_as(order, row.row.status),
        None => false,
    }
}

/// Does a job with this status count in the order?
pub fn counts_as(order: GroupOrder, status: Status) -> bool
    ensures { result ≡ counts_as order status }
{
    match order {
        GroupOrder::OldestFirst => matches!(status, Status::Created | Status::Pending),
        GroupOrder::NewestReadyFirst => matches!(status, Status::Pending),
    }
}
