//! All faults of a CI file.

ghost use Rattle.std.specs.Prelude.{IfOk};
ghost use Rattle.ci_config.specs.Prelude.{value_view};
ghost use Rattle.ci_explain.specs.Told.{InTurn, IsFirst, tolds_view};

use crate::leave::left_out;
use crate::place::{Found, Source};
use ci_config::{ConfigCode, ReadFault};
use ci_config_reader::read_config;
use ci_yaml::{Tree, read};
use std::alloc::{AllocError, Global};

/// A fault of a file, and the way to the entry that has it, without a step where that is the whole file.
#[derive(Drop)]
struct Fault {
    code: ConfigCode,
    way: Vec<usize>,
}

/// The first fault of a tree. None where it configures something.
///
/// Errors: memory was refused.
fn first_fault(alloc: Global, tree: &Tree) -> Result<Option<Fault>, AllocError>
    ensures { IfOk result (IsFirst (value_view tree.now)) }
{
    match read_config(alloc, tree) {
        Ok(_config) => Ok(None),
        Err(ReadFault::Here(code)) => Ok(Some(Fault {
            code,
            way: Vec::new(alloc),
        })),
        Err(ReadFault::Inside(code, way)) => Ok(Some(Fault {
            code,
            way: way.steps(alloc)?,
        })),
        Err(ReadFault::Memory) => Err(AllocError),
    }
}

/// The faults of a tree in turn, each at its place in the file as it is.
///
/// Errors: memory was refused.
fn in_turn(alloc: Global, source: &Source<'_, '_>, tree: Tree) -> Result<Vec<Found>, AllocError>
    ensures { IfOk result (λ told. InTurn (value_view tree.entry) (tolds_view told.items)) }
{
    let mut tree = tree;
    let mut told: Vec<Found> = Vec::new(alloc);
    for _ in 0..u64::MAX {
        let Some(fault) = first_fault(alloc, &tree)? else {
            return Ok(told);
        };
        let next = source.found(alloc, fault.code, fault.way, told.as_slice())?;
        if next.way.as_slice().is_empty() {
            told.push(next)?;
            return Ok(told);
        }
        tree = left_out(tree, next.way.as_slice())?;
        told.push(next)?;
    }
    // No memory holds so many faults.
    Err(AllocError)
}

/// All faults of a file with its tree, in turn: each is the first of the tree without the entries of those before it, at the entry that has
/// it. There is none where the tree configures something.
///
/// Errors: memory was refused; or the source has no tree.
pub fn faults(alloc: Global, source: &str, tree: Tree) -> Result<Vec<Found>, AllocError>
    ensures { IfOk result (λ told. InTurn (value_view tree.entry) (tolds_view told.items)) }
{
    let Ok(original) = read(alloc, source) else {
        return Err(AllocError);
    };
    let lines: Vec<&str> = source.lines().collect(alloc)?;
    let source = Source {
        lines: lines.as_slice(),
        tree: &original,
    };
    in_turn(alloc, &source, tree)
}
