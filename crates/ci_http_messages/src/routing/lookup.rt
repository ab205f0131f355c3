//! What a method and a path ask for.

ghost use Rattle.std.specs.Prelude.{◌≡◌};
ghost use Rattle.ci_http_messages.specs.Routes.{asked_of};
ghost use Rattle.ci_http_messages.specs.Answers.{as_asked};
ghost use Rattle.ci_http_messages.specs.Places.{listed, routes_by};

use crate::routing::method::is_named;
use crate::routing::operation::Operation;
use crate::routing::place::Place;
use crate::routing::table::{Entries, entries_of};
use ci_machine::reply::Method;

/// What a method and a path ask for.
#[derive(Drop)]
pub enum Lookup<K> {
    /// No route has the path.
    NoRoute,
    /// The path's routes have other methods: these, one or two, in the order of their names.
    OtherMethods(Method, Option<Method>),
    /// The route asks for this.
    Found(Operation<K>),
}

/// What a method asks for at a place.
pub(crate) fn lookup_at<'p>(place: &Place<'p>, method: &[u8]) -> Lookup<&'p str>
    ensures { asked_of method.now (routes_by place.now) ≡ as_asked (λ key. key.now) result }
{
    match place.numbers() {
        Some(numbers) => choose(entries_of(place.pattern, numbers, place.key()), method),
        None => Lookup::NoRoute,
    }
}

// What this method asks for among the routes of a path.
fn choose<'p>(entries: Entries<&'p str>, method: &[u8]) -> Lookup<&'p str>
    ensures { asked_of method.now (listed (λ key. key.now) entries.entry) ≡ as_asked (λ key. key.now) result }
{
    let Entries { first, second } = entries;
    if is_named(first.method, method) {
        return Lookup::Found(first.operation);
    }
    let Some(second) = second else {
        return Lookup::OtherMethods(first.method, None);
    };
    if is_named(second.method, method) {
        return Lookup::Found(second.operation);
    }
    Lookup::OtherMethods(first.method, Some(second.method))
}
