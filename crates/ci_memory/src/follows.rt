//! What is remembered of records, brought up to the changes of a commit one by one.

ghost use Rattle.ci_machine_steps.specs.Prelude.{State, changed, applied};

use ci_machine::change::RowChange;

/// What is remembered of a state's records.
pub(crate) trait Follows: Drop {
    /// It is right of the state.
    ghost IsRightOf: { Self → State → Type 0 };

    /// Brings what is remembered up to one change.
    fn change(&mut self, change: &RowChange)
        ensures { (s : State) → IsRightOf self.old s → IsRightOf self.new (changed change.now s) };
}

/// What is remembered after changes.
pub(crate) fn followed<M: Follows>(memory: M, changes: &[RowChange]) -> M
    ensures { (s : State) → M.IsRightOf memory s → M.IsRightOf result (applied changes.now s) }
{
    let mut memory = memory;
    for change in changes {
        memory.change(change);
    }
    memory
}
