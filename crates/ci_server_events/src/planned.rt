//! What is planned of an event before anything changes.

ghost use Rattle.std.specs.Prelude.{◌≡◌, [], option_to_list, Ok, IfOk, IfErr, Err};
ghost use Rattle.std.specs.List.{AllByRecursion};
ghost use Rattle.ci_machine_steps.specs.Prelude.{Kept, cleared, State};
ghost use Rattle.ci_server_lookups.specs.Prelude.{LeavesStatuses, IsKept};
ghost use Rattle.ci_machine_steps.specs.Plans as machine;
ghost use Rattle.ci_server_events.specs.Planning.{Settles};

use ci_machine::change::{Changes, IndexChange};
use ci_machine::records::BoardRow;
use ci_machine::reply::{Code, Reply};
use ci_machine_plans::replies;
use ci_machine_statuses::holder_laws::indexes_stay;
use ci_machine_statuses::laws::rows_stay;
use ci_store::fault::StoreFault;
use std::alloc::{AllocError, Global};

/// What an event does.
pub struct Planned<A> {
    /// What is answered once it is committed.
    pub answer: A,
    /// The records that are put and removed.
    pub changes: Changes,
    /// What changes beside them.
    pub beside: Beside,
    /// The jobs whose rows of statuses go, before all else is written.
    pub cleared: Vec<u64>,
}

/// What changes beside the records.
#[derive(Drop)]
pub struct Beside {
    /// The rows of statuses that are put.
    pub rows: Vec<BoardRow>,
    /// The groups that are held and the pipelines that aren't finished, as far as that changes.
    pub indexes: Vec<IndexChange>,
}

impl Beside {
    /// Nothing changes beside the records.
    pub(crate) fn nothing(alloc: Global) -> Beside
        ensures rows { result.rows.items ≡ [] }
        ensures indexes { result.indexes.items ≡ [] }
    {
        Beside {
            rows: Vec::new(alloc),
            indexes: Vec::new(alloc),
        }
    }
}

/// The change of an index, if there is one.
pub(crate) fn listed(
    alloc: Global,
    change: Option<IndexChange>,
) -> Result<Vec<IndexChange>, AllocError>
    ensures { IfOk result (λ v. v.items ≡ option_to_list change) }
{
    let mut changes = Vec::new(alloc);
    if let Some(change) = change {
        changes.push(change)?;
    }
    Ok(changes)
}

impl<A: Drop> Planned<A> {
    /// A plan that changes records alone, once the rows of these jobs are gone.
    pub(crate) fn clearing(alloc: Global, plan: (A, Changes), cleared: Vec<u64>) -> Planned<A>
        ensures answer { result.answer ≡ plan.0 }
        ensures changes { result.changes ≡ plan.1 }
        ensures rows { result.beside.rows.items ≡ [] }
        ensures indexes { result.beside.indexes.items ≡ [] }
        ensures cleared { result.cleared.items ≡ cleared.items }
    {
        let (answer, changes) = plan;
        Planned {
            answer,
            changes,
            beside: Beside::nothing(alloc),
            cleared,
        }
    }

    /// A plan that changes records alone, of which no status depends in any state: so all that stands beside them stays right.
    pub(crate) fn of_records(alloc: Global, plan: (A, Changes)) -> Planned<A>
        requires { (s : State) → AllByRecursion (LeavesStatuses s) plan.1 }
        ensures plan { (result.answer, result.changes) ≡ plan }
        ensures settled { (k : Kept) → IsKept k → Settles (cleared result.cleared.items k) result.changes result.beside }
    {
        rows_stay();
        indexes_stay();
        Planned::clearing(alloc, plan, Vec::new(alloc))
    }

    /// A plan that changes nothing.
    pub(crate) fn unchanged(alloc: Global, plan: (A, Changes)) -> Planned<A>
        requires { plan.1 ≡ [] }
        ensures plan { (result.answer, result.changes) ≡ plan }
        ensures settled { (k : Kept) → IsKept k → Settles (cleared result.cleared.items k) result.changes result.beside }
    {
        Planned::of_records(alloc, plan)
    }

    /// The plan with what changes beside its records. Errors: that wasn't found, for this fault, and the plan is given up.
    pub(crate) fn with(
        alloc: Global,
        plan: (A, Changes),
        beside: Result<Beside, StoreFault>,
    ) -> Result<Planned<A>, StoreFault>
        ensures planned { IfOk result (λ p. ((p.answer, p.changes) ≡ plan) × (p.cleared.items ≡ []) × (beside ≡ Ok p.beside)) }
        ensures fault { IfErr result (λ fault. beside ≡ Err fault) }
    {
        let (answer, changes) = plan;
        match beside {
            Ok(beside) => Ok(Planned {
                answer,
                changes,
                beside,
                cleared: Vec::new(alloc),
            }),
            Err(fault) => Err(fault),
        }
    }
}

impl Planned<Reply> {
    /// A refusal.
    pub(crate) fn refused(alloc: Global, code: Code) -> Planned<Reply>
        ensures plan { (result.answer, result.changes) ≡ machine.refused code }
        ensures settled { (k : Kept) → IsKept k → Settles (cleared result.cleared.items k) result.changes result.beside }
    {
        Planned::unchanged(alloc, replies::refused(alloc, code))
    }
}
