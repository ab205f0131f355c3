//! The projects that were looked up last, as they are remembered.

ghost use Rattle.std.specs.Prelude.{◌≡◌, ◌++◌, ◌∷◌, [], ℕ, List, All, drop, filter, find, not, Some, IfSome, option_copied};
ghost use Rattle.std.specs.Str.{bytes_eq};
ghost use Rattle.ci_machine_steps.specs.Prelude.{project_with, State, changed, applied};
ghost use Rattle.ci_memory.specs.Projects.{IsFound, AreProjects, is_of_project};

use crate::follows::{Follows, followed};
use ci_machine::change::{Key, Record, RowChange};
use ci_machine::records::Project;
use ci_machine::text::Text;
use std::alloc::Global;

/// How many projects are remembered, at most. With one more, the one that was learned first goes.
pub const MAX_PROJECTS: usize = 16;

/// How long the file of a project may be that is remembered, in bytes. To copy a longer one takes longer than to look the project up.
pub const MAX_FILE_BYTES: usize = 4096;

/// What is remembered of the projects. To forget any of them is always right.
#[derive(Drop)]
pub struct Projects {
    /// None before there is an allocator for them.
    pub known: Option<Vec<Project>>,
}

impl Projects {
    /// None is remembered.
    pub(crate) fn unknown() -> Projects
        ensures { (s : State) → AreProjects result s }
    {
        Projects { known: None }
    }

    /// From here on projects can be remembered.
    pub(crate) fn begin(&mut self, alloc: Global)
        ensures { (s : State) → AreProjects self.old s → AreProjects self.new s }
    {
        if self.known.is_none() {
            self.known = Some(Vec::new(alloc));
        }
    }

    /// The project with a token, where it is remembered and there is memory for its copy.
    pub(crate) fn with_token(&self, token: &Text) -> Option<Project>
        ensures { IfSome result (λ project. (s : State) → AreProjects self.now s → project_with s token.now ≡ Some project) }
    {
        match &self.known {
            Some(projects) => one_with(projects.as_slice(), token),
            None => None,
        }
    }

    /// Remembers a project that was looked up by its token, unless its file is long. Where there is no memory for it, all are forgotten.
    pub(crate) fn learn(&mut self, project: &Project)
        ensures { (s : State) (token : List ℕ) → AreProjects self.old s → project_with s token ≡ Some project.now → AreProjects self.new s }
    {
        if !has_short_file(project) {
            return;
        }
        self.known = known_with(self.known.take(), project);
    }

    /// What is remembered after changes.
    pub(crate) fn after(self, changes: &[RowChange]) -> Projects
        ensures { (s : State) → AreProjects self s → AreProjects result (applied changes.now s) }
    {
        followed(self, changes)
    }
}

impl Follows for Projects {
    ghost IsRightOf = { AreProjects };

    fn change(&mut self, change: &RowChange) {
        self.known = known_without(self.known.take(), change);
    }
}

/// Has the project no file, or one that may be remembered?
fn has_short_file(project: &Project) -> bool {
    match &project.file {
        Some(file) => file.as_str().len() <= MAX_FILE_BYTES,
        None => true,
    }
}

fn known_with(known: Option<Vec<Project>>, project: &Project) -> Option<Vec<Project>>
    ensures { (s : State) (token : List ℕ) → IfSome known (λ v. All (IsFound s) v.items) → project_with s token ≡ Some project.now → IfSome result (λ v. All (IsFound s) v.items) }
{
    match known {
        Some(projects) => with_one(projects, project),
        None => None,
    }
}

fn known_without(known: Option<Vec<Project>>, change: &RowChange) -> Option<Vec<Project>>
    ensures { (s : State) → IfSome known (λ v. All (IsFound s) v.items) → IfSome result (λ v. All (IsFound (changed change.now s)) v.items) }
{
    match known {
        Some(projects) => Some(without(projects, change)),
        None => None,
    }
}

/// With one more; where there are too many, that goes which was learned first. None where memory was refused.
fn with_one(projects: Vec<Project>, project: &Project) -> Option<Vec<Project>>
    ensures { IfSome result (λ v. (n : ℕ) × (v.items ≡ drop n projects.items ++ project.now ∷ [])) }
{
    let copy = copy_of(project)?;
    let mut projects = projects;
    make_room(&mut projects);
    match projects.push(copy) {
        Ok(()) => Some(projects),
        Err(_) => None,
    }
}

fn make_room(projects: &mut Vec<Project>)
    ensures { (n : ℕ) × (projects.new.items ≡ drop n projects.old.items) }
{
    if projects.len() >= MAX_PROJECTS {
        projects.remove(0);
    }
}

/// Those that the change isn't of.
fn without(projects: Vec<Project>, change: &RowChange) -> Vec<Project>
    ensures { result.items ≡ filter (λ p. not (is_of_project p change.now)) projects.items }
{
    let mut projects = projects;
    projects.retain(|project| !is_of_project(project, change));
    projects
}

/// Is the change of this project, or does it put one with its token?
fn is_of_project(project: &Project, change: &RowChange) -> bool
    ensures { result ≡ is_of_project project.now change.now }
{
    match change {
        RowChange::Put(Record::Project(other)) => {
            other.id == project.id || other.token.is_same(&project.token)
        }
        RowChange::Remove(Key::Project(id)) => *id == project.id,
        _ => false,
    }
}

fn one_with(projects: &[Project], token: &Text) -> Option<Project>
    ensures { IfSome result (λ project. (s : State) → All (IsFound s) projects.now → project_with s token.now ≡ Some project) }
{
    let project = first_with(projects, token)?;
    copy_of(project)
}

fn first_with<'a>(projects: &'a [Project], token: &Text) -> Option<&'a Project>
    ensures { option_copied result ≡ find (λ p. bytes_eq p.token token.now) projects.now }
{
    projects.iter().find(|project| project.token.is_same(token))
}

fn copy_of(project: &Project) -> Option<Project>
    ensures { IfSome result (λ copy. copy ≡ project.now) }
{
    project.clone().ok()
}
