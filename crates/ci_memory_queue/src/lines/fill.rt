//! The jobs that wait as the store has them, to begin with: all of them are noted, and none is in a line yet.

ghost use Rattle.ci_store.specs.Prelude.{LoadsBy};
ghost use Rattle.ci_memory_queue.specs.LineCovers.{Covers};

use crate::fill::note_with;
use crate::lines::Lines;
use crate::notes::notes_of;
use ci_board::facts::Status;
use ci_store::fault::StoreFault;
use ci_store::store::Store;
use std::alloc::Global;

/// All jobs that are created or pending. Errors: the store's, or memory was refused.
pub fn filled<T: Store>(alloc: Global, store: &mut T) -> Result<Lines, StoreFault>
    ensures { LoadsBy T.honest T.holds T.leaves store.old store.new result (λ k q. Covers q.lines.items q.notes k.state k.board) }
{
    let mut fresh = Vec::new(alloc);
    note_with(store, &mut fresh, Status::Created)?;
    note_with(store, &mut fresh, Status::Pending)?;
    Ok(Lines {
        lines: Vec::new(alloc),
        notes: notes_of(fresh),
    })
}
