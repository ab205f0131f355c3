//! Where a path leads.

ghost use Rattle.std.specs.Prelude.{◌≡◌, [], None, MatchOption, option_map, unwrap_or};
ghost use Rattle.ci_http_messages.specs.Patterns.{patterns, pattern_in, text_in};
ghost use Rattle.ci_http_messages.specs.Table.{table};
ghost use Rattle.ci_http_messages.specs.Places.{LeadsTo, number_at, numbers_in};

use crate::routing::table::Pattern;
use ci_values::number::id_in;
use matchit::Router;

/// The pattern of a path, and what stands in its slots.
#[derive(Clone, Copy, Drop)]
pub(crate) struct Place<'p> {
    pub pattern: Pattern,
    pub id: Option<&'p str>,
    pub n: Option<&'p str>,
    pub m: Option<&'p str>,
    pub key: Option<&'p str>,
}

/// The numbers in the slots of a path, each 0 where the path has no such slot.
#[derive(Clone, Copy, Drop)]
pub(crate) struct Numbers {
    pub id: u64,
    pub n: u64,
    pub m: u64,
}

impl<'p> Place<'p> {
    /// The numbers in the slots, unless what stands in one of them is none.
    pub fn numbers(&self) -> Option<Numbers>
        ensures { result ≡ numbers_in (option_map (λ t. t.now) self.now.id) (option_map (λ t. t.now) self.now.n) (option_map (λ t. t.now) self.now.m) }
    {
        Some(Numbers {
            id: number_in(self.id)?,
            n: number_in(self.n)?,
            m: number_in(self.m)?,
        })
    }

    /// The text in the slot `:key`, empty where the path has none.
    pub fn key(&self) -> &'p str
        ensures { result.now ≡ unwrap_or (option_map (λ t. t.now) self.now.key) [] }
    {
        match self.key {
            Some(key) => key,
            None => "",
        }
    }
}

// The number that stands in a slot, 0 where there is no slot.
fn number_in(text: Option<&str>) -> Option<u64>
    ensures { result ≡ number_at (option_map (λ t. t.now) text.entry) }
{
    match text {
        Some(text) => id_in(text.as_bytes()),
        None => Some(0),
    }
}

/// Where a path leads, if it leads anywhere.
pub(crate) fn place_of<'p>(router: &Router<Pattern>, path: &'p str) -> Option<Place<'p>>
    requires { router.now ≡ table }
    ensures { MatchOption result (pattern_in patterns path.now ≡ None) (λ place. LeadsTo path.now place) }
{
    match router.at(path) {
        Ok(found) => Some(Place {
            pattern: *found.value,
            id: found.params.get("id"),
            n: found.params.get("n"),
            m: found.params.get("m"),
            key: found.params.get("key"),
        }),
        Err(_) => None,
    }
}
