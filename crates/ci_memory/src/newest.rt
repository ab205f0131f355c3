//! The newest pipelines of projects, as they are remembered.

ghost use Rattle.std.specs.Prelude.{◌≡◌, ◌==◌, ◌&&◌, ◌++◌, ◌∷◌, [], ℕ, List, All, drop, filter, find, not, take, IfSome, option_copied};
ghost use Rattle.std.specs.List.{list_any};
ghost use Rattle.ci_machine_steps.specs.Prelude.{State, changed, applied, newest_of};
ghost use Rattle.ci_memory.specs.Newest.{IsList, AreNewest, is_of_list};

use crate::follows::{Follows, followed};
use ci_machine::change::{Key, Record, RowChange};
use ci_machine::records::Pipeline;
use std::alloc::Global;

/// Of how many projects the newest pipelines are remembered, at most. With one more, those go that were learned first.
pub const MAX_LISTS: usize = 64;

/// How many pipelines of a project are remembered, at most. Of a longer list nothing is.
pub const MAX_NEWEST: u64 = 100;

/// The newest pipelines of a project, newest first: at most so many.
#[derive(Drop)]
pub struct NewestList {
    pub project: u64,
    pub count: u64,
    pub pipelines: Vec<Pipeline>,
}

/// What is remembered of the newest pipelines of projects. To forget any of them is always right.
#[derive(Drop)]
pub struct Newest {
    pub known: Option<Vec<NewestList>>,
}

impl Newest {
    /// None is remembered.
    pub(crate) fn unknown() -> Newest
        ensures { (s : State) → AreNewest result s }
    {
        Newest { known: None }
    }

    /// The newest pipelines of a project, at most so many, where they are remembered and there is memory for their copies.
    pub(crate) fn of(&self, project: u64, count: u64) -> Option<Vec<Pipeline>>
        ensures { IfSome result (λ ps. (s : State) → AreNewest self.now s → ps.items ≡ take count (newest_of s project)) }
    {
        match &self.known {
            Some(lists) => pipelines_in(lists.as_slice(), project, count),
            None => None,
        }
    }

    /// Remembers a list that was looked up, unless it may be long. Where there is no memory for it, all are forgotten.
    pub(crate) fn learn(&mut self, project: u64, count: u64, pipelines: &Vec<Pipeline>)
        ensures { (s : State) → AreNewest self.old s → pipelines.now.items ≡ take count (newest_of s project) → AreNewest self.new s }
    {
        if count > MAX_NEWEST {
            return;
        }
        self.known = known_with(self.known.take(), project, count, pipelines);
    }

    /// What is remembered after changes.
    pub(crate) fn after(self, changes: &[RowChange]) -> Newest
        ensures { (s : State) → AreNewest self s → AreNewest result (applied changes.now s) }
    {
        followed(self, changes)
    }
}

impl Follows for Newest {
    ghost IsRightOf = { AreNewest };

    fn change(&mut self, change: &RowChange) {
        self.known = known_without(self.known.take(), change);
    }
}

fn known_with(
    known: Option<Vec<NewestList>>,
    project: u64,
    count: u64,
    pipelines: &Vec<Pipeline>,
) -> Option<Vec<NewestList>>
    ensures { (s : State) → IfSome known (λ v. All (IsList s) v.items) → pipelines.now.items ≡ take count (newest_of s project) → IfSome result (λ v. All (IsList s) v.items) }
{
    let list = NewestList {
        project,
        count,
        pipelines: copies_of(pipelines)?,
    };
    let alloc = *pipelines.allocator();
    match known {
        Some(lists) => with_one(lists, list),
        None => with_one(Vec::new(alloc), list),
    }
}

fn known_without(known: Option<Vec<NewestList>>, change: &RowChange) -> Option<Vec<NewestList>>
    ensures { (s : State) → IfSome known (λ v. All (IsList s) v.items) → IfSome result (λ v. All (IsList (changed change.now s)) v.items) }
{
    match known {
        Some(lists) => Some(without(lists, change)),
        None => None,
    }
}

/// With one more; where there are too many, that goes which was learned first. None where memory was refused.
fn with_one(lists: Vec<NewestList>, list: NewestList) -> Option<Vec<NewestList>>
    ensures { IfSome result (λ v. (n : ℕ) × (v.items ≡ drop n lists.items ++ list ∷ [])) }
{
    let mut lists = lists;
    make_room(&mut lists);
    match lists.push(list) {
        Ok(()) => Some(lists),
        Err(_) => None,
    }
}

fn make_room(lists: &mut Vec<NewestList>)
    ensures { (n : ℕ) × (lists.new.items ≡ drop n lists.old.items) }
{
    if lists.len() >= MAX_LISTS {
        lists.remove(0);
    }
}

/// Those that the change isn't of.
fn without(lists: Vec<NewestList>, change: &RowChange) -> Vec<NewestList>
    ensures { result.items ≡ filter (λ l. not (is_of_list l change.now)) lists.items }
{
    let mut lists = lists;
    lists.retain(|list| !is_of_list(list, change));
    lists
}

/// Does the change put a pipeline of the project, or put or remove one of the list?
fn is_of_list(list: &NewestList, change: &RowChange) -> bool
    ensures { result ≡ is_of_list list.now change.now }
{
    match change {
        RowChange::Put(Record::Pipeline(pipeline)) => {
            pipeline.project == list.project || has_pipeline(list, pipeline.id)
        }
        RowChange::Remove(Key::Pipeline(id)) => has_pipeline(list, *id),
        _ => false,
    }
}

fn has_pipeline(list: &NewestList, id: u64) -> bool
    ensures { result ≡ list_any (λ p. p.id == id) list.now.pipelines.items }
{
    list.pipelines.iter().any(|pipeline| pipeline.id == id)
}

fn pipelines_in(lists: &[NewestList], project: u64, count: u64) -> Option<Vec<Pipeline>>
    ensures { IfSome result (λ ps. (s : State) → All (IsList s) lists.now → ps.items ≡ take count (newest_of s project)) }
{
    let list = list_of(lists, project, count)?;
    copies_of(&list.pipelines)
}

fn list_of(lists: &[NewestList], project: u64, count: u64) -> Option<&NewestList>
    ensures { option_copied result ≡ find (λ l. l.project == project && l.count == count) lists.now }
{
    lists
        .iter()
        .find(|list| list.project == project && list.count == count)
}

/// Copies of pipelines. None where memory was refused.
fn copies_of(pipelines: &Vec<Pipeline>) -> Option<Vec<Pipeline>>
    ensures { IfSome result (λ copies. copies.items ≡ pipelines.now.items) }
{
    Vec::from_clones(*pipelines.allocator(), pipelines.as_slice()).ok()
}
