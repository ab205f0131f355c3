//! The pipeline that a newer one makes redundant, from what is remembered and what the store holds.

ghost use Rattle.std.specs.Prelude.{◌≡◌, ℕ, List, [], ◌∷◌, IfOk};
ghost use Rattle.ci_machine_steps.specs.Prelude.{Kept, redundant_in};
ghost use Rattle.ci_store.specs.Prelude.{LoadsBy};
ghost use Rattle.ci_server_lookups.specs.Prelude.{IsKept, AreOpen};
ghost use Rattle.ci_memory.specs.Alone.{Accounts, IsRight};
ghost use Rattle.ci_memory.specs.Looks.{IsSeen, IsLooked};
ghost use Rattle.ci_memory.specs.Redundant.{lesser};

use crate::pipelines::held_back::is_held_back;
use crate::pipelines::open::{Open, numbers_known};
use ci_machine::records::Pipeline;
use ci_server_lookups::unfinished::unfinished_of;
use ci_store::fault::StoreFault;
use ci_store::store::Store;
use std::alloc::{AllocError, Global};

/// The redundant pipeline of least number, if there is one. Where it isn't remembered which pipelines aren't finished, they are worked
/// out of rows of statuses, all of them suspects: this is right only where the rows are. Of each suspect it is looked up whether there is a newer one, and where there is none, that is remembered.
/// Without a suspect nothing is looked up. Errors: the store failed, or memory was refused; then nothing is remembered.
pub fn first_redundant<T: Store>(
    alloc: Global,
    store: &mut T,
    remembered: &mut Option<Open>,
) -> Result<Option<Pipeline>, StoreFault>
    ensures found { LoadsBy T.honest T.holds T.leaves store.old store.new result (λ k found. IsRight remembered.old k → IsKept k → found ≡ redundant_in k.state k.board) }
    ensures right { T.honest store.new → (k : Kept) → T.holds store.old k → IsKept k → IsRight remembered.old k → IsRight remembered.new k }
{
    let known = known_of(alloc, store, remembered.take())?;
    let Looked {
        alone,
        suspects,
        found,
    } = look(alloc, store, known)?;
    *remembered = Some(Open { alone, suspects });
    Ok(found)
}

/// The numbers of the pipelines that aren't finished, in any order. Where it isn't remembered which these are, they are worked out of rows of
/// statuses, all of them suspects, and remembered: this is right only where the rows are. Errors: as `first_redundant`.
pub fn unfinished<T: Store>(
    alloc: Global,
    store: &mut T,
    remembered: &mut Option<Open>,
) -> Result<Vec<u64>, StoreFault>
    ensures found { LoadsBy T.honest T.holds T.leaves store.old store.new result (λ k numbers. IsRight remembered.old k → IsKept k → AreOpen k numbers.items) }
    ensures right { T.honest store.new → (k : Kept) → T.holds store.old k → IsKept k → IsRight remembered.old k → IsRight remembered.new k }
{
    let known = known_of(alloc, store, remembered.take())?;
    let numbers = numbers_known(alloc, &known)?;
    *remembered = Some(known);
    Ok(numbers)
}

/// What is remembered, or else that all pipelines that aren't finished are suspects.
fn known_of<T: Store>(
    alloc: Global,
    store: &mut T,
    remembered: Option<Open>,
) -> Result<Open, StoreFault>
    ensures { LoadsBy T.honest T.holds T.leaves store.old store.new result (λ k known. IsKept k → IsRight remembered k → Accounts known k) }
{
    if let Some(known) = remembered {
        return Ok(known);
    }
    let suspects = unfinished_of(alloc, store)?;
    let alone = Vec::new(alloc);
    Ok(Open { alone, suspects })
}

/// What is known once suspects are looked at.
#[derive(Drop)]
pub(crate) struct Looked {
    /// Those that have no newer one.
    pub(crate) alone: Vec<Pipeline>,
    /// Those that were looked at and do have one.
    pub(crate) suspects: Vec<u64>,
    /// The one of least number of these that no job holds back.
    pub(crate) found: Option<Pipeline>,
}

/// What a look at a suspect shows.
#[derive(Drop)]
pub(crate) enum Seen {
    /// There is no newer one.
    Alone(Pipeline),
    /// There is a newer one: the pipeline, unless a job holds it back.
    Suspect(Option<Pipeline>),
}

/// Looks at all suspects.
fn look<T: Store>(alloc: Global, store: &mut T, known: Open) -> Result<Looked, StoreFault>
    ensures { LoadsBy T.honest T.holds T.leaves store.old store.new result (λ k looked. Accounts known k → IsLooked k [] looked) }
{
    let Open { alone, suspects } = known;
    let mut looked = Looked {
        alone,
        suspects: Vec::new(alloc),
        found: None,
    };
    for number in suspects.as_slice() {
        let seen = look_at(store, *number)?;
        looked = noted(looked, *number, seen)?;
    }
    Ok(looked)
}

/// Looks at the suspect with a number.
fn look_at<T: Store>(store: &mut T, number: u64) -> Result<Seen, StoreFault>
    ensures { LoadsBy T.honest T.holds T.leaves store.old store.new result (λ k seen. IsSeen k number seen) }
{
    let Some(pipeline) = store.pipeline(number)? else {
        return Err(StoreFault::Broken);
    };
    if store.newer_of(&pipeline)?.is_none() {
        return Ok(Seen::Alone(pipeline));
    }
    if is_held_back(store, &pipeline)? {
        return Ok(Seen::Suspect(None));
    }
    Ok(Seen::Suspect(Some(pipeline)))
}

/// What is known once it is noted what was seen of a suspect.
fn noted(looked: Looked, number: u64, seen: Seen) -> Result<Looked, AllocError>
    ensures { IfOk result (λ after. (k : Kept) (left : List ℕ) → IsSeen k number seen → IsLooked k (number ∷ left) looked → IsLooked k left after) }
{
    let Looked {
        mut alone,
        mut suspects,
        found,
    } = looked;
    match seen {
        Seen::Alone(pipeline) => {
            alone.push(pipeline)?;
            Ok(Looked {
                alone,
                suspects,
                found,
            })
        }
        Seen::Suspect(candidate) => {
            suspects.push(number)?;
            Ok(Looked {
                alone,
                suspects,
                found: lesser(found, candidate),
            })
        }
    }
}

/// The one of lesser number.
fn lesser(found: Option<Pipeline>, candidate: Option<Pipeline>) -> Option<Pipeline>
    ensures { result ≡ lesser found candidate }
{
    match (found, candidate) {
        (Some(found), Some(candidate)) => {
            if candidate.id < found.id {
                Some(candidate)
            } else {
                Some(found)
            }
        }
        (Some(found), None) => Some(found),
        (None, candidate) => candidate,
    }
}
