//! Jobs that wait are put into the lines of their groups.

ghost use Rattle.std.specs.Prelude.{◌≡◌, ◌<◌, ℕ, Bool, List, Some, None, length, OnOk};
ghost use Rattle.std.specs.List.{position};
ghost use Rattle.ci_memory_queue.specs.declared.lines.Line.{Line};
ghost use Rattle.ci_machine_steps.specs.Prelude.{OldestFirst};
ghost use Rattle.ci_memory_queue.specs.Places.{counts_at};
ghost use Rattle.ci_memory_queue.specs.LineCovers.{is_line_of, line_of, IsIn, IsInLine, IsInTurn, IsSorted};

use crate::classes::put;
use crate::lines::places::{counts, place_of};
use crate::lines::{Line, Place};
use crate::sorting::Sorts;
use ci_machine::records::GroupOrder;
use ci_machine::text::Text;
use ci_store::fault::StoreFault;
use ci_store::store::Store;
use std::alloc::{AllocError, Global};
use std::collections::BTreeSet;

impl Sorts for Line {
    ghost counts = { λ k n. counts_at OldestFirst k.board n };

    ghost IsPlaced = { λ k lines newest n. IsSorted k.state k.board lines newest n };

    fn sort_in<T: Store>(
        alloc: Global,
        store: &mut T,
        lines: &mut Vec<Line>,
        newest_pipeline: &mut u64,
        job: u64,
    ) -> Result<(), StoreFault> {
        let row = store.row(job)?;
        if !counts(GroupOrder::OldestFirst, &row) {
            return Ok(());
        }
        let place = place_of(store, job)?;
        *newest_pipeline = (*newest_pipeline).max(place.pipeline);
        let is_ready = counts(GroupOrder::NewestReadyFirst, &row);
        put_if_grouped(alloc, lines, place, is_ready, job)?;
        Ok(())
    }
}

/// Puts a job with this place into the line of its group, if it has one.
fn put_if_grouped(
    alloc: Global,
    lines: &mut Vec<Line>,
    place: Place,
    is_ready: bool,
    job: u64,
) -> Result<(), AllocError>
    ensures there { OnOk result (IsInTurn lines.new.items place is_ready job) }
    ensures keeps { (p : ℕ) (g : List ℕ) (ready : Bool) (n : ℕ) → IsInLine (line_of lines.old.items p g) ready n → IsInLine (line_of lines.new.items p g) ready n }
{
    let Place { project, group, .. } = place;
    match group {
        Some(group) => put_in(alloc, lines, project, group, is_ready, job),
        None => Ok(()),
    }
}

/// Puts a job into the line of a group of a project, or into a new one: among those that are ready too, if it is. Errors: memory was
/// refused.
pub fn put_in(
    alloc: Global,
    lines: &mut Vec<Line>,
    project: u64,
    group: Text,
    is_ready: bool,
    job: u64,
) -> Result<(), AllocError>
    ensures there { OnOk result (IsInLine (line_of lines.new.items project group) is_ready job) }
    ensures keeps { (p : ℕ) (g : List ℕ) (ready : Bool) (n : ℕ) → IsInLine (line_of lines.old.items p g) ready n → IsInLine (line_of lines.new.items p g) ready n }
{
    match index_of(lines.as_slice(), project, &group) {
        Some(index) => put_at(lines, index, is_ready, job),
        None => begin(alloc, lines, project, group, is_ready, job),
    }
}

/// The index of the line of a group of a project, if there is one.
pub fn index_of(lines: &[Line], project: u64, group: &Text) -> Option<usize>
    ensures { result ≡ position (is_line_of project group.now) lines.now }
{
    lines
        .iter()
        .position(|line| is_line_of(line, project, group))
}

fn is_line_of(line: &Line, project: u64, group: &Text) -> bool
    ensures { result ≡ is_line_of project group.now line.now }
{
    line.project == project && line.group.is_same(group)
}

fn put_at(lines: &mut Vec<Line>, index: usize, is_ready: bool, job: u64) -> Result<(), AllocError>
    requires { index < length lines.old.items }
    ensures there { OnOk result ((p : ℕ) (g : List ℕ) → position (is_line_of p g) lines.old.items ≡ Some index → IsInLine (line_of lines.new.items p g) is_ready job) }
    ensures keeps { (p : ℕ) (g : List ℕ) (ready : Bool) (n : ℕ) → IsInLine (line_of lines.old.items p g) ready n → IsInLine (line_of lines.new.items p g) ready n }
{
    put_into(&mut lines[index], is_ready, job)
}

/// Adds a line that has this job alone.
fn begin(
    alloc: Global,
    lines: &mut Vec<Line>,
    project: u64,
    group: Text,
    is_ready: bool,
    job: u64,
) -> Result<(), AllocError>
    requires { line_of lines.old.items project group ≡ None }
    ensures there { OnOk result (IsInLine (line_of lines.new.items project group) is_ready job) }
    ensures keeps { (p : ℕ) (g : List ℕ) (ready : Bool) (n : ℕ) → IsInLine (line_of lines.old.items p g) ready n → IsInLine (line_of lines.new.items p g) ready n }
{
    let mut line = Line {
        project,
        group,
        waiting: BTreeSet::new(alloc),
        ready: BTreeSet::new(alloc),
    };
    put_into(&mut line, is_ready, job)?;
    lines.push(line)?;
    Ok(())
}

fn put_into(line: &mut Line, is_ready: bool, job: u64) -> Result<(), AllocError>
    ensures project { line.new.project ≡ line.old.project }
    ensures group { line.new.group ≡ line.old.group }
    ensures there { OnOk result (IsIn is_ready job line.new) }
    ensures keeps { (ready : Bool) (n : ℕ) → IsIn ready n line.old → IsIn ready n line.new }
{
    put(&mut line.waiting, job)?;
    if is_ready {
        put(&mut line.ready, job)?;
    }
    Ok(())
}
