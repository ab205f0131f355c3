//! The tree of a list of entries.

ghost use Rattle.std.specs.Prelude.{◌≡◌, ◌==◌, ◌∷◌, ◌++◌, [], map, Option, Some, Ok, Err, IfOk, IfSome, if◌then◌else◌};
ghost use Rattle.ci_yaml_lines.specs.declared.code.Code.TheVariants.{Y3};
ghost use Rattle.ci_yaml.specs.declared.progress.Frame.{Frame};
ghost use Rattle.ci_yaml_lines.specs.Prelude.{sequence, mapping, Value, dash, key, bare, bytes_of, value_view, given_view, entry_view, texts_in, given_texts, entry_texts};
ghost use Rattle.ci_yaml_lines.specs.Prelude.{entries_texts};
ghost use Rattle.ci_yaml.specs.View.{frame_view, frames_view, state_view, Gives, GivesNodes};
ghost use Rattle.ci_yaml.specs.Reading.{with_given, member_next, bare_next, next, run, finished, close_all};
ghost use Rattle.ci_yaml.specs.Spans.{open_texts, frames_texts, state_texts};

use crate::fault::Stop;
use crate::members::{enter_item, enter_pair, or_null};
use crate::nodes::{misplaced, with_given};
use crate::open_map::OpenMap;
use crate::progress::{Frame, Open, Progress};
use ci_yaml_lines::code::Code;
use ci_yaml_lines::entry::{Entry, Head};
use ci_yaml_lines::tree::{Text, Tree};
use std::alloc::{AllocError, Global};

/// The first node, which begins with the file. Errors: the column is another than the first; or memory was refused.
fn first_node<'a>(alloc: Global, column: u32, members: Open<'a>) -> Result<Vec<Frame<'a>>, Stop>
    ensures value { (g : Option Value) → GivesNodes (λ v. frames_view v.items) result g (if column == 0 then with_given (frame_view (record { column = column; members = members.entry }) ∷ []) g else Err Y3) }
    ensures spans { IfOk result (λ v. frames_texts v.items ≡ open_texts members.entry) }
{
    if column != 0 {
        return Err(Stop::Fault(Code::Y3));
    }
    let mut frames = Vec::new(alloc);
    frames.push(Frame { column, members })?;
    Ok(frames)
}

/// The open nodes, once a dash has come behind what was read. Errors: the code that holds of it there; or memory was refused.
fn item_nodes<'a>(
    alloc: Global,
    progress: Progress<'a>,
    column: u32,
) -> Result<Vec<Frame<'a>>, Stop>
    ensures value { (g : Option Value) → GivesNodes (λ v. frames_view v.items) result g (member_next (state_view progress.entry) (record { column = column; head = dash; given = g }) sequence []) }
    ensures spans { IfOk result (λ v. frames_texts v.items ≡ state_texts progress.entry) }
{
    match progress {
        Progress::Start => first_node(alloc, column, Open::Items(Vec::new(alloc))),
        Progress::Whole(_) => Err(Stop::Fault(Code::Y3)),
        Progress::Inside(frames, awaiting) => {
            let mut frames = frames;
            enter_item(alloc, &mut frames, awaiting, column)?;
            Ok(frames)
        }
    }
}

fn next_item<'a>(
    alloc: Global,
    progress: Progress<'a>,
    column: u32,
    given: Option<Tree<'a>>,
) -> Result<Progress<'a>, Stop>
    ensures value { Gives state_view result (member_next (state_view progress.entry) (record { column = column; head = dash; given = given_view given.entry }) sequence []) }
    ensures spans { IfOk result (λ p. state_texts p ≡ state_texts progress.entry ++ given_texts given.entry) }
{
    let frames = item_nodes(alloc, progress, column)?;
    with_given(frames, given)
}

/// The open nodes, once a key has come behind what was read. Errors: the code that holds of it there; or memory was refused.
fn pair_nodes<'a>(
    alloc: Global,
    progress: Progress<'a>,
    column: u32,
    name: Text<'a>,
) -> Result<Vec<Frame<'a>>, Stop>
    ensures value { (g : Option Value) → GivesNodes (λ v. frames_view v.items) result g (member_next (state_view progress.entry) (record { column = column; head = key (bytes_of name.entry); given = g }) mapping (bytes_of name.entry)) }
    ensures spans { IfOk result (λ v. frames_texts v.items ≡ state_texts progress.entry ++ name.entry ∷ []) }
{
    match progress {
        Progress::Start => first_node(alloc, column, Open::Pairs(OpenMap::new(alloc), name)),
        Progress::Whole(_) => Err(Stop::Fault(Code::Y3)),
        Progress::Inside(frames, awaiting) => {
            let mut frames = frames;
            enter_pair(alloc, &mut frames, awaiting, column, name)?;
            Ok(frames)
        }
    }
}

fn next_pair<'a>(
    alloc: Global,
    progress: Progress<'a>,
    column: u32,
    name: Text<'a>,
    given: Option<Tree<'a>>,
) -> Result<Progress<'a>, Stop>
    ensures value { Gives state_view result (member_next (state_view progress.entry) (record { column = column; head = key (bytes_of name.entry); given = given_view given.entry }) mapping (bytes_of name.entry)) }
    ensures spans { IfOk result (λ p. state_texts p ≡ state_texts progress.entry ++ (name.entry ∷ given_texts given.entry)) }
{
    let frames = pair_nodes(alloc, progress, column, name)?;
    with_given(frames, given)
}

fn next_bare<'a>(
    progress: &Progress,
    column: u32,
    given: Option<Tree<'a>>,
) -> Result<Progress<'a>, Stop>
    ensures value { Gives state_view result (bare_next (state_view progress.now) (record { column = column; head = bare; given = given_view given.entry })) }
    ensures spans { IfOk result (λ p. state_texts p ≡ state_texts progress.now ++ given_texts given.entry) }
{
    match progress {
        Progress::Start => {
            if column != 0 {
                return Err(Stop::Fault(Code::Y3));
            }
            match given {
                Some(value) => Ok(Progress::Whole(value)),
                None => Err(Stop::Fault(Code::Y3)),
            }
        }
        Progress::Whole(_) => Err(Stop::Fault(Code::Y3)),
        Progress::Inside(frames, _) => Err(Stop::Fault(misplaced(frames, column))),
    }
}

/// One more entry after those read so far, or the code that holds of it there.
fn next_entry<'a>(
    alloc: Global,
    progress: Progress<'a>,
    entry: Entry<'a>,
) -> Result<Progress<'a>, Stop>
    ensures value { Gives state_view result (next (state_view progress.entry) (entry_view entry.entry)) }
    ensures spans { IfOk result (λ p. state_texts p ≡ state_texts progress.entry ++ entry_texts entry.entry) }
{
    let Entry {
        column,
        head,
        given,
    } = entry;
    match head {
        Head::Dash => next_item(alloc, progress, column, given),
        Head::Key(name) => next_pair(alloc, progress, column, name, given),
        Head::Bare => next_bare(&progress, column, given),
    }
}

fn closed_all<'a>(frames: Vec<Frame<'a>>, value: Tree<'a>) -> Result<Tree<'a>, AllocError>
    ensures value { IfOk result (λ t. value_view t ≡ close_all (frames_view frames.entry.items) (value_view value.entry)) }
    ensures spans { IfOk result (λ t. texts_in t ≡ frames_texts frames.entry.items ++ texts_in value.entry) }
{
    let mut frames = frames;
    let mut value = value;
    while let Some(frame) = frames.pop() {
        value = frame.close(value)?;
    }
    Ok(value)
}

/// The tree that was read, if anything was.
pub fn finish(progress: Progress<'_>) -> Result<Option<Tree<'_>>, AllocError>
    ensures value { IfOk result (λ o. given_view o ≡ finished (state_view progress.entry)) }
    ensures spans { IfOk result (λ o. given_texts o ≡ state_texts progress.entry) }
{
    match progress {
        Progress::Start => Ok(None),
        Progress::Whole(value) => Ok(Some(value)),
        Progress::Inside(frames, awaiting) => Ok(Some(closed_all(frames, or_null(awaiting))?)),
    }
}

/// The entries of a line after those read so far, or the code of the first that cannot stand there.
pub fn enter_all<'a>(
    alloc: Global,
    progress: Progress<'a>,
    entries: Vec<Entry<'a>>,
) -> Result<Progress<'a>, Stop>
    ensures value { Gives state_view result (run (state_view progress.entry) (map entry_view entries.entry.items)) }
    ensures spans { IfOk result (λ p. state_texts p ≡ state_texts progress.entry ++ entries_texts entries.entry.items) }
{
    let mut entries = entries;
    let mut progress = progress;
    'all: while !entries.is_empty() {
        let entry = entries.remove(0);
        progress = next_entry(alloc, progress, entry)?;
    }
    Ok(progress)
}
