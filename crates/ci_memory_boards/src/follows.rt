//! What is remembered, brought up to the changes and the rows of a commit one by one.

ghost use Rattle.std.specs.Prelude.{IfSome};
ghost use Rattle.ci_machine_steps.specs.Prelude.{Kept, row_cmp, put, put_rows, changed, applied};

use ci_machine::change::RowChange;
use ci_machine::records::BoardRow;

/// What is remembered of what a store keeps, and forgotten where it isn't known any more.
pub(crate) trait Follows: Drop {
    /// It is right for what is kept.
    ghost IsRightFor: { Self → Kept → Type 0 };

    /// What is remembered after a change.
    fn noted(self, change: &RowChange) -> Option<Self>
        ensures { IfSome result (λ m. (k : Kept) → IsRightFor self k → IsRightFor m (record k { state = changed change.now k.state })) };

    /// What is remembered after a row is put.
    fn noted_row(self, row: BoardRow) -> Option<Self>
        ensures { IfSome result (λ m. (k : Kept) → IsRightFor self k → IsRightFor m (record k { board = put row_cmp row k.board })) };
}

/// What is remembered after changes.
pub(crate) fn after_changes<M: Follows>(memory: M, changes: &[RowChange]) -> Option<M>
    ensures { IfSome result (λ m. (k : Kept) → M.IsRightFor memory k → M.IsRightFor m (record k { state = applied changes.now k.state })) }
{
    let mut memory = memory;
    for change in changes {
        memory = memory.noted(change)?;
    }
    Some(memory)
}

/// What is remembered after rows are put.
pub(crate) fn after_rows<M: Follows>(memory: M, rows: &[BoardRow]) -> Option<M>
    ensures { IfSome result (λ m. (k : Kept) → M.IsRightFor memory k → M.IsRightFor m (record k { board = put_rows rows.now k.board })) }
{
    let mut memory = memory;
    for row in rows {
        memory = memory.noted_row(*row)?;
    }
    Some(memory)
}
