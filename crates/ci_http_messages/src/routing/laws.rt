//! Laws of the table of routes.

ghost use Rattle.std.specs.Prelude.{◌≡◌, ◌≤◌, ℕ, List, length, map, filter, true};
ghost use Rattle.ci_http_messages.specs.Laws.{ascends};
ghost use Rattle.ci_http_messages.specs.Methods.{is_text, method_text};
ghost use Rattle.ci_http_messages.specs.Routes.{Wanted, asks, asked_in, path_text, routes_at};

/// A method and a path have one route at most, so what they ask for doesn't depend on the order of
/// the table.
#[tactic(auto, using(crate::proofs::Orders::one_route))]
pub fn one_route()
    ensures { (method path : List ℕ) → length (filter (λ found. is_text (method_text found.0) method) (routes_at path)) ≤ 1 }
{}

/// The methods of a path's routes ascend in the order of their names' bytes, as a reply lists them.
#[tactic(auto, using(crate::proofs::Orders::methods_ascend))]
pub fn methods_ascend()
    ensures { (path : List ℕ) → ascends (map (λ found. method_text found.0) (routes_at path)) ≡ true }
{}

/// What is asked for names its path: the segments in its slots are its numbers, in decimal, and its
/// key. So no two paths ask for the same.
#[tactic(auto, using(crate::proofs::Spelling::one_path))]
pub fn one_path()
    ensures { (method path : List ℕ) (w : Wanted) → asked_in method path ≡ asks w → path ≡ path_text w.operation }
{}
