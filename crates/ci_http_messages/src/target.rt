//! The path of a target.

ghost use Rattle.std.specs.Prelude.{◌≡◌, ◌==◌, position};
ghost use Rattle.ci_http_messages.specs.Targets.{path_of};

/// The target without its query.
pub(crate) fn path_of(target: &[u8]) -> &[u8]
    ensures { result.now ≡ path_of target.now }
{
    match query_start(target) {
        Some(end) => &target[..end],
        None => target,
    }
}

fn query_start(target: &[u8]) -> Option<usize>
    ensures { result ≡ position (λ b. b == 63) target.now }
{
    target.iter().position(|b| *b == b'?')
}
