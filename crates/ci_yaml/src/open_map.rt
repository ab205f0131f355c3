//! The pairs of an open map, and their keys.

ghost use Rattle.std.specs.Prelude.{◌≡◌, ℕ, List, [], ◌∷◌, ◌++◌, IfOk};
ghost use Rattle.std.specs.BTreeSet.{contains_text};
ghost use Rattle.ci_yaml_lines.specs.Prelude.{no_members, push, bytes_of, value_view, pairs_view, texts_in, pairs_texts};
ghost use Rattle.ci_yaml.specs.Reading.{has_name};

use ci_yaml_lines::tree::{Text, Tree};
use std::alloc::{AllocError, Global};
use std::collections::BTreeSet;

/// The pairs of an open map before its last one, and their keys.
#[derive(Drop)]
pub struct OpenMap<'a> {
    pub pairs: Vec<(Text<'a>, Tree<'a>)>,
    keys: BTreeSet<String>,
    ghost same_keys: { (k : List ℕ) → contains_text keys k ≡ has_name k (pairs_view pairs.items) },
}

impl<'a> OpenMap<'a> {
    /// A map without pairs.
    pub fn new(alloc: Global) -> OpenMap<'a>
        ensures value { pairs_view result.pairs.items ≡ no_members }
        ensures spans { pairs_texts result.pairs.items ≡ [] }
    {
        OpenMap {
            pairs: Vec::new(alloc),
            keys: BTreeSet::new(alloc),
        }
    }

    /// Whether one of the keys is this text.
    pub fn has_key(&self, key: &str) -> bool
        ensures { result ≡ has_name key.now (pairs_view self.now.pairs.items) }
    {
        self.keys.contains(key)
    }

    /// With one pair more. Errors: memory was refused.
    pub fn more(
        self,
        alloc: Global,
        key: Text<'a>,
        value: Tree<'a>,
    ) -> Result<OpenMap<'a>, AllocError>
        ensures value { IfOk result (λ m. pairs_view m.pairs.items ≡ push (pairs_view self.entry.pairs.items) (bytes_of key.entry) (value_view value.entry)) }
        ensures spans { IfOk result (λ m. pairs_texts m.pairs.items ≡ pairs_texts self.entry.pairs.items ++ (key.entry ∷ texts_in value.entry)) }
    {
        let OpenMap {
            mut pairs,
            mut keys,
        } = self;
        let name = String::from_str(alloc, key.as_str())?;
        keys.insert(name)?;
        pairs.push((key, value))?;
        Ok(OpenMap { pairs, keys })
    }
}
