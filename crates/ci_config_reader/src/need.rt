//! What a job needs.

ghost use Rattle.std.specs.Prelude.{◌≡◌, []};
ghost use Rattle.ci_config.specs.Prelude.{value_view, GivesAt, need_value, need_entry, need_said, need_from, need_of, needs_of, pairs_view, need_view, needs_view};
ghost use Rattle.ci_config_reader.specs.Parts.{need_parts_view};

use crate::key::keyword_of;
use crate::tree::{bool_of, is_text, list_of, map_of};
use crate::value::name_of;
use ci_config::keyword::{NEED_KEYWORDS, NEED_LEFT_OUT, NeedKeyword};
use ci_config::{ConfigCode, Need, ReadFault};
use ci_yaml_lines::tree::{Text, Tree};
use std::alloc::Global;

/// What the entries of a need say.
#[derive(Clone, Copy)]
pub struct NeedParts<'t> {
    pub job: Option<&'t str>,
    pub optional: bool,
}

impl<'t> NeedParts<'t> {
    /// Sets what an entry says.
    fn set(&mut self, keyword: NeedKeyword, tree: &'t Tree) -> Result<(), ReadFault>
        ensures { GivesAt (λ _. need_parts_view self.new) result (need_value keyword (value_view tree.now) (need_parts_view self.old)) }
    {
        match keyword {
            NeedKeyword::Job => self.job = Some(name_of(tree)?),
            NeedKeyword::Optional => self.optional = bool_of(tree)?,
        }
        Ok(())
    }

    fn enter(&mut self, key: &str, tree: &'t Tree) -> Result<(), ReadFault>
        ensures { GivesAt (λ _. need_parts_view self.new) result (need_entry (key.now, value_view tree.now) (need_parts_view self.old)) }
    {
        let keyword = keyword_of(&NEED_KEYWORDS, &NEED_LEFT_OUT, key)?;
        self.set(keyword, tree)
    }

    fn need(self) -> Result<Need<'t>, ReadFault>
        ensures { GivesAt need_view result (need_said (need_parts_view self.entry)) }
    {
        match self.job {
            Some(job) => Ok(Need {
                job,
                optional: self.optional,
            }),
            None => Err(ReadFault::Here(ConfigCode::K4)),
        }
    }
}

/// A need that is a map.
fn need_from<'t>(pairs: &'t [(Text, Tree)]) -> Result<Need<'t>, ReadFault>
    ensures { GivesAt need_view result (need_from (pairs_view pairs.now)) }
{
    let mut parts = NeedParts {
        job: None,
        optional: false,
    };
    for before in 0..pairs.len() {
        let pair = &pairs[before];
        match parts.enter(pair.0.as_str(), &pair.1) {
            Ok(()) => {}
            Err(fault) => return Err(fault.within(before)),
        }
    }
    parts.need()
}

/// A need: a text, or a map.
fn need_of<'t>(tree: &'t Tree) -> Result<Need<'t>, ReadFault>
    ensures { GivesAt need_view result (need_of [] (value_view tree.now)) }
{
    if is_text(tree) {
        let job = name_of(tree)?;
        return Ok(Need {
            job,
            optional: false,
        });
    }
    let pairs = map_of(tree)?;
    need_from(pairs)
}

/// What a job needs.
pub fn needs_of<'t>(alloc: Global, tree: &'t Tree) -> Result<Vec<Need<'t>>, ReadFault>
    ensures { GivesAt needs_view result (needs_of (value_view tree.now)) }
{
    let values = list_of(tree)?;
    let mut needs = Vec::new(alloc);
    for value in values {
        match need_of(value) {
            Ok(need) => needs.push(need)?,
            Err(fault) => return Err(fault.within(needs.len())),
        }
    }
    Ok(needs)
}
